//! Why the script itself refuses a line, and the number and the column that are written of it.
ghost use Rattle.std.specs.Prelude.{◌≡◌};
ghost use Rattle.tokens.specs.Refusals.{number_of, column_of};

/// What is wrong with a line, or with the whole input.
#[derive(Clone, Copy, PartialEq, Eq, Debug)]
pub enum Fault {
    /// The line is empty, or its first byte is none of N, K, S, T and #.
    NoLetter,
    /// A number is missing or over its limit, or more bytes follow the last; the leftmost such fault is at this column.
    BadNumber(usize),
    /// S or T before there is a nub, or N or K after.
    OutOfOrder,
    /// The input has more than 65,536 bytes.
    TooLong,
}

// A variant with a column has no number of its own, so the numbers stand here.
impl From<Fault> for u8 {
    ghost from_gives = { λ fault number. number ≡ number_of fault };

    fn from(fault: Fault) -> u8 {
        match fault {
            Fault::NoLetter => 31,
            Fault::BadNumber(_) => 32,
            Fault::OutOfOrder => 33,
            Fault::TooLong => 34,
        }
    }
}

impl Fault {
    /// The column that is written of the fault, counted from 1.
    pub fn column(self) -> usize
        ensures { result ≡ column_of self }
    {
        match self {
            Fault::BadNumber(column) => column,
            Fault::NoLetter | Fault::OutOfOrder | Fault::TooLong => 1,
        }
    }
}
