//! What each stage says of the thread that is at it.
ghost use Rattle.std.specs.Prelude.{◌≡◌};
ghost use Rattle.stages.specs.Marks.{marks, MarksAgree};

use crate::stage::Stage;

/// Where a thread stands: in no line, in its gate's line, or in its condition's line.
#[derive(Clone, Copy, PartialEq, Eq, Debug)]
pub enum Stands {
    Nowhere,
    AtGate,
    AtCondition,
}

/// Whether the thread holds the spin bit, in which line it stands, and whether it is on its way to its gate.
#[derive(Clone, Copy, PartialEq, Eq, Debug)]
pub struct Mark {
    pub spin: bool,
    pub line: Stands,
    pub way: bool,
}

/// The marks of the stages, in the order of their numbers.
const MARKS: [Mark; 32] = [
    // Idle
    Mark {
        spin: false,
        line: Stands::Nowhere,
        way: false,
    },
    // Try
    Mark {
        spin: false,
        line: Stands::Nowhere,
        way: true,
    },
    // Peek
    Mark {
        spin: false,
        line: Stands::Nowhere,
        way: false,
    },
    // LineSpin
    Mark {
        spin: false,
        line: Stands::Nowhere,
        way: false,
    },
    // Add
    Mark {
        spin: true,
        line: Stands::Nowhere,
        way: false,
    },
    // Test
    Mark {
        spin: true,
        line: Stands::AtGate,
        way: true,
    },
    // Park
    Mark {
        spin: true,
        line: Stands::AtGate,
        way: false,
    },
    // Parked
    Mark {
        spin: false,
        line: Stands::AtGate,
        way: false,
    },
    // LeaveSpin
    Mark {
        spin: false,
        line: Stands::AtGate,
        way: false,
    },
    // Leave
    Mark {
        spin: true,
        line: Stands::AtGate,
        way: false,
    },
    // LeaveOut
    Mark {
        spin: true,
        line: Stands::Nowhere,
        way: false,
    },
    // Undo
    Mark {
        spin: true,
        line: Stands::AtGate,
        way: true,
    },
    // UndoOut
    Mark {
        spin: true,
        line: Stands::Nowhere,
        way: true,
    },
    // Clear
    Mark {
        spin: false,
        line: Stands::Nowhere,
        way: true,
    },
    // Look
    Mark {
        spin: false,
        line: Stands::Nowhere,
        way: true,
    },
    // WakeSpin
    Mark {
        spin: false,
        line: Stands::Nowhere,
        way: true,
    },
    // Wake
    Mark {
        spin: true,
        line: Stands::Nowhere,
        way: true,
    },
    // WakeOut
    Mark {
        spin: true,
        line: Stands::Nowhere,
        way: false,
    },
    // Read
    Mark {
        spin: false,
        line: Stands::Nowhere,
        way: false,
    },
    // BlockSpin
    Mark {
        spin: false,
        line: Stands::Nowhere,
        way: false,
    },
    // Compare
    Mark {
        spin: true,
        line: Stands::Nowhere,
        way: false,
    },
    // BlockPark
    Mark {
        spin: true,
        line: Stands::AtCondition,
        way: false,
    },
    // Waiting
    Mark {
        spin: false,
        line: Stands::AtCondition,
        way: false,
    },
    // QuitSpin
    Mark {
        spin: false,
        line: Stands::AtCondition,
        way: false,
    },
    // Quit
    Mark {
        spin: true,
        line: Stands::AtCondition,
        way: false,
    },
    // BlockOut
    Mark {
        spin: true,
        line: Stands::Nowhere,
        way: false,
    },
    // Choose
    Mark {
        spin: false,
        line: Stands::Nowhere,
        way: false,
    },
    // SigSpin
    Mark {
        spin: false,
        line: Stands::Nowhere,
        way: false,
    },
    // Sig
    Mark {
        spin: true,
        line: Stands::Nowhere,
        way: false,
    },
    // SigOut
    Mark {
        spin: true,
        line: Stands::Nowhere,
        way: false,
    },
    // Set
    Mark {
        spin: false,
        line: Stands::Nowhere,
        way: false,
    },
    // Swap
    Mark {
        spin: false,
        line: Stands::Nowhere,
        way: false,
    },
];

/// The marks of a stage.
pub fn mark_of(stage: Stage) -> Mark
    ensures { result ≡ marks stage }
{
    MARKS[stage as usize]
}

/// The marks agree with the turn table, at every stage, for every call, whatever a turn sees.
pub fn marks_agree()
    ensures { MarksAgree }
{}
