//! Lists of all stages and all calls.
ghost use Rattle.std.specs.Prelude.{◌≡◌, ◌<◌, Some};
ghost use Rattle.stages.specs.Calls.{kind_of};
ghost use Rattle.stages.specs.Names.{is_wait};
ghost use Rattle.stage_map.specs.Cases.{call_place};

use stages::call::Call;
use stages::stage::Stage;
use stages::stage::Stage::*;

/// The stages, in the order of their numbers. No form lists the values of an enum.
pub const STAGES: [Stage; 32] = [
    Idle, Try, Peek, LineSpin, Add, Test, Park, Parked, LeaveSpin, Leave, LeaveOut, Undo, UndoOut,
    Clear, Look, WakeSpin, Wake, WakeOut, Read, BlockSpin, Compare, BlockPark, Waiting, QuitSpin,
    Quit, BlockOut, Choose, SigSpin, Sig, SigOut, Set, Swap,
];

/// The calls, in the order of their codes, each on the objects 0, and its name, which `{:?}` prints with the objects.
pub const CALLS: [(Call, &str); 11] = [
    (Call::Acquire(0), "Acquire"),
    (Call::Release(0), "Release"),
    (Call::Wait(0, 0), "Wait"),
    (Call::Signal(0), "Signal"),
    (Call::Broadcast(0), "Broadcast"),
    (Call::P(0), "P"),
    (Call::V(0), "V"),
    (Call::Alert(0), "Alert"),
    (Call::TestAlert, "TestAlert"),
    (Call::AlertP(0), "AlertP"),
    (Call::AlertWait(0, 0), "AlertWait"),
];

/// Whether a call is a wait.
pub(crate) fn is_wait(call: Call) -> bool
    ensures { result ≡ is_wait (kind_of (Some call)) }
{
    matches!(&call, Call::Wait(_, _) | Call::AlertWait(_, _))
}

/// The place of a call in the order of the codes, whatever its objects.
pub(crate) fn place(call: Call) -> usize
    ensures value { result ≡ call_place call }
    ensures fits { result < 11 }
{
    match call {
        Call::Acquire(_) => 0,
        Call::Release(_) => 1,
        Call::Wait(_, _) => 2,
        Call::Signal(_) => 3,
        Call::Broadcast(_) => 4,
        Call::P(_) => 5,
        Call::V(_) => 6,
        Call::Alert(_) => 7,
        Call::TestAlert => 8,
        Call::AlertP(_) => 9,
        Call::AlertWait(_, _) => 10,
    }
}
