//! The thirty-two stages that a thread can be at.
ghost use Rattle.std.specs.Prelude.{◌≡◌};
ghost use Rattle.stages.specs.Names.{stage_no, is_idle};
ghost use Rattle.stages.specs.Table.{reads_bit, reads_line, reads_count};

/// Where a thread is in its call. `Idle` is the stage of a thread that has no call.
#[derive(Clone, Copy, PartialEq, Eq, Debug)]
pub enum Stage {
    Idle,
    Try,
    Peek,
    LineSpin,
    Add,
    Test,
    Park,
    Parked,
    LeaveSpin,
    Leave,
    LeaveOut,
    Undo,
    UndoOut,
    Clear,
    Look,
    WakeSpin,
    Wake,
    WakeOut,
    Read,
    BlockSpin,
    Compare,
    BlockPark,
    Waiting,
    QuitSpin,
    Quit,
    BlockOut,
    Choose,
    SigSpin,
    Sig,
    SigOut,
    Set,
    Swap,
}

impl From<Stage> for u8 {
    ghost from_gives = { λ stage n. n ≡ stage_no stage };

    /// The number of the stage.
    fn from(stage: Stage) -> u8 {
        stage as u8
    }
}

impl Stage {
    /// Whether a thread at this stage has no call.
    pub fn is_idle(self) -> bool
        ensures { result ≡ is_idle self }
    {
        self == Stage::Idle
    }

    /// Whether a turn at this stage reads the bit of its gate.
    pub fn reads_bit(self) -> bool
        ensures { result ≡ reads_bit self }
    {
        matches!(&self, Stage::Try | Stage::Test)
    }

    /// Whether a turn at this stage reads whether its gate's line is empty.
    pub fn reads_line(self) -> bool
        ensures { result ≡ reads_line self }
    {
        self == Stage::Look
    }

    /// Whether a turn at this stage reads the count of its condition.
    pub fn reads_count(self) -> bool
        ensures { result ≡ reads_count self }
    {
        matches!(&self, Stage::Read | Stage::Compare)
    }
}
