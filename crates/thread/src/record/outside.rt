//! What the nub does to a thread's record outside the thread's own turns, and whom a signal frees.
ghost use Rattle.std.specs.Prelude.{◌≡◌, ◌&&◌, ◌==◌};
ghost use Rattle.thread.specs.Turns.{state_of, woken_thread, flagged, between_on};

use super::Thread;
use stages::call::Call;
use stages::stage::Stage;
use stages::step::LineEffect;

impl Thread {
    /// Sets its alert flag.
    pub fn set_alert(&mut self)
        ensures { self.new ≡ flagged self.old }
    {
        self.alert = true;
    }

    /// It was taken from a line: one in AlertWait, taken by a signal, has its outcome to choose, and any other tries its gate.
    pub fn wake(&mut self, effect: LineEffect)
        ensures { self.new ≡ woken_thread effect self.old }
    {
        self.stage = match (effect, self.call) {
            (LineEffect::SignalOne | LineEffect::SignalAll, Some(Call::AlertWait(_, _))) =>
                Stage::Choose,
            _ => Stage::Try,
        };
    }

    /// Whether it is between on condition `c`, with the kept count `old`.
    pub fn is_between(&self, c: usize, old: u32) -> bool
        ensures { result ≡ (between_on (state_of self.now) c && self.now.kept == old) }
    {
        match (self.stage, self.call) {
            (
                Stage::Clear
                | Stage::Look
                | Stage::WakeSpin
                | Stage::Wake
                | Stage::WakeOut
                | Stage::BlockSpin
                | Stage::Compare,
                Some(Call::Wait(_, d) | Call::AlertWait(_, d)),
            ) => d == c && self.kept == old,
            _ => false,
        }
    }
}
