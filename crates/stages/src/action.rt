//! What a turn reports: its status and the published action that it did; and the outcome of an AlertWait.
ghost use Rattle.std.specs.Prelude.{◌≡◌};
ghost use Rattle.stages.specs.Names.{action_no, status_no};

/// The published actions.
#[derive(Clone, Copy, PartialEq, Eq, Debug)]
pub enum Action {
    Acquire = 1,
    Release = 2,
    Enqueue = 3,
    Resume = 4,
    ChooseOutcome = 5,
    GetMutex = 6,
    Signal = 7,
    Broadcast = 8,
    P = 9,
    V = 10,
    Alert = 11,
    TestAlert = 12,
    AlertPReturns = 13,
    AlertPRaises = 14,
}

impl Action {
    /// The number that stands for an action outside, and 0 for none.
    // No `From`: an `impl From<Option<Action>> for u8` would be for no type of this crate.
    pub fn number(action: Option<Action>) -> u8
        ensures { result ≡ action_no action }
    {
        match action {
            Some(action) => action as u8,
            None => 0,
        }
    }
}

/// How a turn ended: the call goes on, the thread is parked, it found the spin bit taken, or its call is finished.
#[derive(Clone, Copy, PartialEq, Eq, Debug)]
pub enum Status {
    On,
    Parked,
    Spun,
    Finished,
}

impl From<Status> for u8 {
    ghost from_gives = { λ status n. n ≡ status_no status };

    /// The number that stands for a status outside.
    fn from(status: Status) -> u8 {
        status as u8
    }
}

/// Why an AlertWait ended.
#[derive(Clone, Copy, PartialEq, Eq, Debug)]
pub enum Outcome {
    Signalled,
    Alerted,
}
