//! Which call a thread has under way.
ghost use Rattle.std.specs.Prelude.{◌≡◌};
ghost use Rattle.nub.specs.UnderWay.{under_way};
ghost use Rattle.nub.specs.View.{core_of};

use crate::{records, *};
use stages::call::Call;

impl<L> Nub<L> {
    /// The call that thread `t` has under way, or why a turn of it would be declined.
    pub fn call_under_way(&self, t: usize) -> Result<Option<Call>, Decline>
        ensures { result ≡ under_way (core_of self.now) t }
    {
        if t >= self.core.sizes.threads {
            return Err(Decline::NoThread);
        }
        let thread = records::at(&self.core.threads, t);
        if thread.stage().is_idle() {
            return Err(Decline::IdleThread);
        }
        Ok(thread.call())
    }
}
