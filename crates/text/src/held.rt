//! The machine of a script, which is of one of two kinds: the letter that builds it chooses.
ghost use Rattle.std.specs.Prelude.{◌≡◌};
ghost use Rattle.text.specs.Model.{made_at};
ghost use Rattle.text.specs.Both.{both, either_of, is_ranked};

use crate::answer::Report;
use crate::machine::Machine;

/// How waiting threads go: by arrival, or by rank.
#[derive(Clone, Copy, PartialEq, Eq, Debug)]
pub enum Order {
    Arrival,
    Rank,
}

/// A machine whose waiting threads go by arrival, or one where they go by rank. There are these two, as there are letters.
#[derive(Drop)]
pub enum Held<A, B> {
    ByArrival(A),
    ByRank(B),
}

impl<A: Machine, B: Machine> Held<A, B> {
    /// A new machine of the kind asked for.
    pub fn build(order: Order, sizes: [u32; 5]) -> Result<Self, u8>
        ensures { made_at (either_of A.Machine.state B.Machine.state) result ≡ (both A.Machine.model B.Machine.model).build (is_ranked order) sizes }
    {
        match order {
            Order::Arrival => Ok(Held::ByArrival(A::build(sizes)?)),
            Order::Rank => Ok(Held::ByRank(B::build(sizes)?)),
        }
    }

    /// A submission to the machine, of whichever kind it is.
    pub fn submit(&mut self, call: [u32; 4]) -> Result<(), u8>
        ensures answer { result ≡ (both A.Machine.model B.Machine.model).submit (either_of A.Machine.state B.Machine.state self.old) call }
        ensures after { either_of A.Machine.state B.Machine.state self.new ≡ (both A.Machine.model B.Machine.model).submitted (either_of A.Machine.state B.Machine.state self.old) call }
    {
        match self {
            Held::ByArrival(nub) => nub.submit(call),
            Held::ByRank(nub) => nub.submit(call),
        }
    }

    /// A turn of the machine, of whichever kind it is.
    pub fn turn(&mut self, thread: u32) -> Result<Report, u8>
        ensures answer { result ≡ (both A.Machine.model B.Machine.model).turn (either_of A.Machine.state B.Machine.state self.old) thread }
        ensures after { either_of A.Machine.state B.Machine.state self.new ≡ (both A.Machine.model B.Machine.model).turned (either_of A.Machine.state B.Machine.state self.old) thread }
    {
        match self {
            Held::ByArrival(nub) => nub.turn(thread),
            Held::ByRank(nub) => nub.turn(thread),
        }
    }
}
