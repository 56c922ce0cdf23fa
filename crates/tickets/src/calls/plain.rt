//! The calls that give nothing but their report when they have finished.
ghost use Rattle.stages.specs.declared.call.Call.TheVariants as call;
ghost use Rattle.std.specs.Prelude.{None, refl};

use crate::calls::sealed::Sealed;
use crate::calls::{Ending, Finished, Free, Spending, Ticketed};
use crate::hold::Hold;
use stages::call::Call;

impl Sealed for () {}

impl Ending for () {
    ghost gives = { λ _ _. tt };

    ghost held = { λ _. None };

    fn of(_call: Call, _by: Finished) {}
}

/// Release of a mutex.
#[derive(Clone, Copy, PartialEq, Eq, Debug)]
pub struct Release {
    pub(crate) mutex: usize,
}

impl Sealed for Release {}

impl Ticketed for Release {
    type End = ();

    ghost under = { λ c. call.Release c.mutex };

    ghost ends = { λ _ _. refl };

    fn call(self) -> Call {
        Call::Release(self.mutex)
    }
}

impl Spending for Release {
    type With = ();

    ghost made = { λ hold _. record { mutex = hold.mutex } };

    fn of(hold: &Hold, _with: ()) -> Release {
        Release { mutex: hold.mutex }
    }
}

/// Signal of a condition.
#[derive(Clone, Copy, PartialEq, Eq, Debug)]
pub struct Signal {
    pub condition: usize,
}

impl Sealed for Signal {}

impl Ticketed for Signal {
    type End = ();

    ghost under = { λ c. call.Signal c.condition };

    ghost ends = { λ _ _. refl };

    fn call(self) -> Call {
        Call::Signal(self.condition)
    }
}

impl Free for Signal {}

/// Broadcast of a condition.
#[derive(Clone, Copy, PartialEq, Eq, Debug)]
pub struct Broadcast {
    pub condition: usize,
}

impl Sealed for Broadcast {}

impl Ticketed for Broadcast {
    type End = ();

    ghost under = { λ c. call.Broadcast c.condition };

    ghost ends = { λ _ _. refl };

    fn call(self) -> Call {
        Call::Broadcast(self.condition)
    }
}

impl Free for Broadcast {}

/// P of a semaphore.
#[derive(Clone, Copy, PartialEq, Eq, Debug)]
pub struct P {
    pub semaphore: usize,
}

impl Sealed for P {}

impl Ticketed for P {
    type End = ();

    ghost under = { λ c. call.P c.semaphore };

    ghost ends = { λ _ _. refl };

    fn call(self) -> Call {
        Call::P(self.semaphore)
    }
}

impl Free for P {}

/// V of a semaphore.
#[derive(Clone, Copy, PartialEq, Eq, Debug)]
pub struct V {
    pub semaphore: usize,
}

impl Sealed for V {}

impl Ticketed for V {
    type End = ();

    ghost under = { λ c. call.V c.semaphore };

    ghost ends = { λ _ _. refl };

    fn call(self) -> Call {
        Call::V(self.semaphore)
    }
}

impl Free for V {}

/// Alert of a thread.
#[derive(Clone, Copy, PartialEq, Eq, Debug)]
pub struct Alert {
    pub thread: usize,
}

impl Sealed for Alert {}

impl Ticketed for Alert {
    type End = ();

    ghost under = { λ c. call.Alert c.thread };

    ghost ends = { λ _ _. refl };

    fn call(self) -> Call {
        Call::Alert(self.thread)
    }
}

impl Free for Alert {}

/// TestAlert of the thread itself; the value of its report is the alert flag.
#[derive(Clone, Copy, PartialEq, Eq, Debug)]
pub struct TestAlert;

impl Sealed for TestAlert {}

impl Ticketed for TestAlert {
    type End = ();

    ghost under = { λ _. call.TestAlert };

    ghost ends = { λ _ _. refl };

    fn call(self) -> Call {
        Call::TestAlert
    }
}

impl Free for TestAlert {}

/// AlertP of a semaphore; the value of its last report says whether it was alerted.
#[derive(Clone, Copy, PartialEq, Eq, Debug)]
pub struct AlertP {
    pub semaphore: usize,
}

impl Sealed for AlertP {}

impl Ticketed for AlertP {
    type End = ();

    ghost under = { λ c. call.AlertP c.semaphore };

    ghost ends = { λ _ _. refl };

    fn call(self) -> Call {
        Call::AlertP(self.semaphore)
    }
}

impl Free for AlertP {}
