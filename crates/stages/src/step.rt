//! What a turn looks at besides the thread's own record, and what it leaves to be done outside it.
use crate::action::{Action, Status};

/// What a turn sees: the spin bit, the bit of its gate, whether the gate's line is empty, the count of its condition.
#[derive(Clone, Copy, PartialEq, Eq, Debug)]
pub struct Sight {
    pub spin: bool,
    pub bit: bool,
    pub empty: bool,
    pub count: u32,
}

/// What a turn does to the spin bit.
#[derive(Clone, Copy, PartialEq, Eq, Debug)]
pub enum SpinEffect {
    Keep,
    Set,
    Clear,
}

/// What a turn does to the bit and the owner of its gate.
#[derive(Clone, Copy, PartialEq, Eq, Debug)]
pub enum GateEffect {
    Keep,
    Take,
    Free,
}

/// What a turn does to the waiting lines.
#[derive(Clone, Copy, PartialEq, Eq, Debug)]
pub enum LineEffect {
    Keep,
    JoinGate,
    LeaveGate,
    JoinCondition,
    LeaveCondition,
    WakeGate,
    SignalOne,
    SignalAll,
}

/// What a turn does to the alert flags.
#[derive(Clone, Copy, PartialEq, Eq, Debug)]
pub enum FlagEffect {
    Keep,
    ClearOwn,
    SetNamed,
}

/// A turn's report but for the freed mask, and what is left to do outside the record.
#[derive(Clone, Copy, PartialEq, Eq, Debug)]
pub struct Step {
    pub status: Status,
    pub value: u32,
    pub action: Option<Action>,
    pub spin: SpinEffect,
    pub gate: GateEffect,
    pub line: LineEffect,
    pub flag: FlagEffect,
}
