//! Lines whose take gives the earliest arrival.
ghost use Rattle.std.specs.Prelude.{◌≡◌, []};
ghost use Rattle.lines.specs.Arrivals.{earliest};
ghost use Rattle.lines.specs.Choosing.{first_come};
ghost use Rattle.lines.specs.Lawful.{choosing_laws, first_picks, sound_members, first_come_serves, first_come_empty};

use crate::arrival::{Arrival, first_in};
use crate::choice::Choice;
use crate::decline::Decline;
use crate::set::LineSet;
use crate::waiting::Waiting;

/// Chooses the member that came first.
#[derive(Drop)]
pub struct Earliest;

impl Choice<64> for Earliest {
    type Maker = ();

    ghost from = { λ _. tt };

    ghost choose = { λ _ ts. earliest ts };

    ghost picks = { λ _ ts. first_picks ts };

    ghost serving = { first_come_serves };

    fn make(_maker: ()) -> Self {
        Earliest
    }

    #[tactic(auto, using(crate::proofs::Placing::first_chosen))]
    fn place(&self, arrivals: &[Arrival], line: usize) -> Option<usize> {
        first_in(arrivals, line)
    }
}

/// Lines for 64 threads. A take gives the member that came first.
pub type FirstCome = Waiting<Earliest, 64>;

impl LineSet for FirstCome {
    const SERVES: usize = 64;

    type Maker = ();

    ghost kind = { first_come };

    ghost state = { λ s. (tt, s.arrivals.items) };

    ghost fresh = { λ _. (tt, []) };

    ghost lawful = { choosing_laws 64 (Unit {0}) (λ _ ts. earliest ts) (λ _ ts. first_picks ts) };

    ghost sound = { λ s. sound_members 64 s.arrivals.items s.apart };

    ghost serving = { first_come_serves };

    ghost new = { λ _ l. first_come_empty l };

    fn limit() -> usize {
        Self::SERVES
    }

    fn make(maker: ()) -> Self {
        Waiting::made(maker)
    }

    fn add(&mut self, line: usize, thread: usize) -> Result<(), Decline> {
        self.join(line, thread)
    }

    fn take(&mut self, line: usize) -> Result<Option<usize>, Decline> {
        self.take_chosen(line)
    }

    fn remove(&mut self, line: usize, thread: usize) -> Result<(), Decline> {
        self.leave(line, thread)
    }

    fn is_empty(&self, line: usize) -> Result<bool, Decline> {
        self.has_none(line)
    }
}
