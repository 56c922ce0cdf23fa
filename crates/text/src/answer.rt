//! What a line of the script is answered.
ghost use Rattle.std.specs.Prelude.{◌≡◌};
ghost use Rattle.text.specs.declared.answer.Refusal.TheVariants.{Script};

use tokens::fault::Fault;

/// What a turn reports, in numbers whose meaning is the machine's.
#[derive(Clone, Copy, PartialEq, Eq, Debug)]
pub struct Report {
    pub status: u8,
    pub value: u32,
    pub action: u8,
    pub mask: u64,
}

/// Who refuses a line, and why: the nub, by its own number, or the script.
#[derive(Clone, Copy, PartialEq, Eq, Debug)]
pub enum Refusal {
    Nub(u8),
    Script(Fault),
}

impl From<Fault> for Refusal {
    ghost from_gives = { λ fault refusal. refusal ≡ Script fault };

    fn from(fault: Fault) -> Refusal {
        Refusal::Script(fault)
    }
}

/// What is answered to a line that is not refused. A note is a part of the line itself, without its mark.
#[derive(Clone, Copy, PartialEq, Eq, Debug)]
pub enum Answer<'a> {
    Done,
    Turned(Report),
    Note(&'a [u8]),
}
