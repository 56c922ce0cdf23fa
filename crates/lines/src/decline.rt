//! Why an operation on a set of lines is declined.
ghost use Rattle.std.specs.Prelude.{◌≡◌};
ghost use Rattle.lines.specs.Lines.{number};

/// The four refusals. Where several apply, the one with the lowest number is answered.
#[derive(Clone, Copy, PartialEq, Eq, Debug)]
pub enum Decline {
    /// The set has no line of that number.
    NoSuchLine = 21,
    /// The set does not serve a thread of that number.
    NotServed = 22,
    /// A thread to add stands in the set already, in this line or another.
    AlreadyInSet = 23,
    /// A thread to remove does not stand in that line.
    NotInLine = 24,
}

impl From<Decline> for u8 {
    ghost from_gives = { λ decline n. n ≡ number decline };

    /// The number that callers outside know the refusal by.
    fn from(decline: Decline) -> u8 {
        decline as u8
    }
}
