//! What a script runs on: a machine that is built, takes submissions and takes turns.
ghost use Rattle.std.specs.Prelude.{◌≡◌};
ghost use Rattle.text.specs.Model.{Single, made_at};

use crate::answer::Report;

/// A machine of one kind. Each call answers and leaves what its model says; a refusal is a number of the machine's own.
// An error type of each machine's own is no plainer: `Held` joins machines of two types, and would turn both into this number.
pub trait Machine: Sized {
    ghost model: { Single };

    ghost state: { Self → model.State };

    /// A new machine, from the counts of threads, mutexes, conditions and semaphores, and the start count.
    fn build(sizes: [u32; 5]) -> Result<Self, u8>
        ensures { made_at state result ≡ model.build sizes };

    /// A submission: a thread, the code of its call, and two objects.
    fn submit(&mut self, call: [u32; 4]) -> Result<(), u8>
        ensures answer { result ≡ model.submit (state self.old) call }
        ensures after { state self.new ≡ model.submitted (state self.old) call };

    /// A turn of a thread.
    fn turn(&mut self, thread: u32) -> Result<Report, u8>
        ensures answer { result ≡ model.turn (state self.old) thread }
        ensures after { state self.new ≡ model.turned (state self.old) thread };
}
