//! The calls that give a hold when they have finished: Acquire, Wait and AlertWait.
ghost use Rattle.stages.specs.declared.call.Call.TheVariants as call;
ghost use Rattle.std.specs.Prelude.{Some, refl};
ghost use Rattle.tickets.specs.Ends.{mutex_taken};

use crate::calls::sealed::Sealed;
use crate::calls::{Ending, Finished, Free, Spending, Ticketed};
use crate::hold::Hold;
use stages::call::Call;

impl Sealed for Hold {}

impl Ending for Hold {
    ghost gives = { λ c t. record { thread = t; mutex = mutex_taken c } };

    ghost held = { λ hold. Some hold };

    fn of(call: Call, by: Finished) -> Hold {
        let (Call::Acquire(mutex) | Call::Wait(mutex, _) | Call::AlertWait(mutex, _)) = call else {
            unreachable()
        };
        Hold {
            thread: by.thread,
            mutex,
        }
    }
}

/// Acquire of a mutex.
#[derive(Clone, Copy, PartialEq, Eq, Debug)]
pub struct Acquire {
    pub mutex: usize,
}

impl Sealed for Acquire {}

impl Ticketed for Acquire {
    type End = Hold;

    ghost under = { λ c. call.Acquire c.mutex };

    ghost ends = { λ _ _. refl };

    fn call(self) -> Call {
        Call::Acquire(self.mutex)
    }
}

impl Free for Acquire {}

/// Wait on a condition with a mutex.
#[derive(Clone, Copy, PartialEq, Eq, Debug)]
pub struct Wait {
    pub(crate) mutex: usize,
    pub(crate) condition: usize,
}

impl Sealed for Wait {}

impl Ticketed for Wait {
    type End = Hold;

    ghost under = { λ c. call.Wait c.mutex c.condition };

    ghost ends = { λ _ _. refl };

    fn call(self) -> Call {
        Call::Wait(self.mutex, self.condition)
    }
}

// Written for each of the two waits: an impl may not be written by a macro, and no generic one can make a struct's fields.
impl Spending for Wait {
    type With = usize;

    ghost made = { λ hold condition. record { mutex = hold.mutex; condition = condition } };

    fn of(hold: &Hold, condition: usize) -> Wait {
        Wait {
            mutex: hold.mutex,
            condition,
        }
    }
}

/// AlertWait on a condition with a mutex; the value of its last report says whether it was alerted.
#[derive(Clone, Copy, PartialEq, Eq, Debug)]
pub struct AlertWait {
    pub(crate) mutex: usize,
    pub(crate) condition: usize,
}

impl Sealed for AlertWait {}

impl Ticketed for AlertWait {
    type End = Hold;

    ghost under = { λ c. call.AlertWait c.mutex c.condition };

    ghost ends = { λ _ _. refl };

    fn call(self) -> Call {
        Call::AlertWait(self.mutex, self.condition)
    }
}

impl Spending for AlertWait {
    type With = usize;

    ghost made = { λ hold condition. record { mutex = hold.mutex; condition = condition } };

    fn of(hold: &Hold, condition: usize) -> AlertWait {
        AlertWait {
            mutex: hold.mutex,
            condition,
        }
    }
}
