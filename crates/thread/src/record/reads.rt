//! What the nub reads of a thread's record.
ghost use Rattle.std.specs.Prelude.{◌≡◌};

use super::Thread;
use stages::call::Call;
use stages::stage::Stage;

impl Thread {
    /// Its stage.
    pub fn stage(&self) -> Stage
        ensures { result ≡ self.now.stage }
    {
        self.stage
    }

    /// Its call, if one is under way.
    pub fn call(&self) -> Option<Call>
        ensures { result ≡ self.now.call }
    {
        self.call
    }
}
