//! The eleven calls with their objects.
ghost use Rattle.std.specs.Prelude.{◌≡◌, Some};
ghost use Rattle.stages.specs.Calls.{kind_of, condition_of};
ghost use Rattle.stages.specs.Table.{first};

use crate::stage::Stage;

/// A call under way, with the numbers of its mutex, condition, semaphore or alerted thread.
#[derive(Clone, Copy, PartialEq, Eq, Debug)]
pub enum Call {
    Acquire(usize),
    Release(usize),
    Wait(usize, usize),
    Signal(usize),
    Broadcast(usize),
    P(usize),
    V(usize),
    Alert(usize),
    TestAlert,
    AlertP(usize),
    AlertWait(usize, usize),
}

impl Call {
    /// The stage that the call begins at.
    pub fn first(self) -> Stage
        ensures { result ≡ first (kind_of (Some self)) }
    {
        match self {
            Call::Acquire(_) => Stage::Try,
            Call::Release(_) => Stage::Clear,
            Call::Wait(_, _) => Stage::Read,
            Call::Signal(_) => Stage::SigSpin,
            Call::Broadcast(_) => Stage::SigSpin,
            Call::P(_) => Stage::Try,
            Call::V(_) => Stage::Clear,
            Call::Alert(_) => Stage::Set,
            Call::TestAlert => Stage::Swap,
            Call::AlertP(_) => Stage::Try,
            Call::AlertWait(_, _) => Stage::Read,
        }
    }

    /// The condition that the call is on, if it is a wait or a signal.
    pub fn condition(self) -> Option<usize>
        ensures { result ≡ condition_of (Some self) }
    {
        match self {
            Call::Wait(_, c) | Call::AlertWait(_, c) => Some(c),
            Call::Signal(c) | Call::Broadcast(c) => Some(c),
            _ => None,
        }
    }
}
