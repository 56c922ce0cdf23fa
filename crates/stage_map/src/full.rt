//! The error of a list or a text that is full. None lies on a heap: each has room for what the stages need.
use arrayvec::CapacityError;
use std::{fmt, io};

/// There was no room for one more.
#[derive(Clone, Copy, PartialEq, Eq, Debug)]
pub struct Full;

impl<T: Drop> From<CapacityError<T>> for Full {
    fn from(_: CapacityError<T>) -> Full {
        Full
    }
}

impl From<Full> for fmt::Error {
    fn from(_: Full) -> fmt::Error {
        fmt::Error
    }
}

impl From<Full> for io::Error {
    fn from(_: Full) -> io::Error {
        io::Error::other("a stage has more than there is room for")
    }
}
