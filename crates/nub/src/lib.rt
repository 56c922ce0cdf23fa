//! The nub over any kind of waiting lines: build, submission and turn.
#![tactic(auto)]

mod build;
mod calls;
mod numbers;
mod places;
mod records;
mod signals;
mod submission;
mod table;
mod turn;
mod work;

use stages::action::{Action, Status};
use thread::record::Thread;

/// How many there are of each kind.
#[derive(Clone, Copy, PartialEq, Eq, Debug)]
pub struct Sizes {
    pub threads: usize,
    pub mutexes: usize,
    pub conditions: usize,
    pub semaphores: usize,
}

/// The nub without its lines: the spin bit, the thread records, the bits of the gates by line number, the owners of the
/// mutexes, the counts of the conditions.
// Arrays of fixed lengths: there is no heap here, since no turn may fail for want of memory. Semaphores have bits and no
// owners, so that the two are no pairs.
#[derive(Drop)]
pub struct Core {
    spin: bool,
    threads: [Thread; 64],
    bits: [bool; 32],
    owners: [Option<usize>; 16],
    counts: [u32; 16],
    sizes: Sizes,
}

/// A nub over lines of the kind `L`.
// Clauses read it by `core_of` and `lines_of`. An `impl Model` would need the bound on `L`, which the struct has not: that is
// not supported, and on the struct the bound would ask more of who names it.
#[derive(Drop)]
pub struct Nub<L> {
    core: Core,
    lines: L,
}

/// What a turn reports. Bit n of the mask is for thread n. The value is a number outside too, 0 or 1 today.
#[derive(Clone, Copy, PartialEq, Eq, Debug)]
pub struct Report {
    pub status: Status,
    pub value: u32,
    pub action: Option<Action>,
    pub mask: u64,
}

/// Why a submission, a turn or a build is declined.
#[derive(Clone, Copy, PartialEq, Eq, Debug)]
pub enum Decline {
    NoThread = 1,
    UnderWay = 2,
    NoCode = 3,
    NoObject = 4,
    NotOwner = 5,
    CountHigh = 6,
    IdleThread = 7,
    WrongSize = 8,
}

/// One entry of a run: a submission of a thread, a call code and two object numbers, or a turn of a thread.
// The code stays a number, since one that no call has is an entry too, and is declined.
#[derive(Clone, Copy, PartialEq, Eq, Debug)]
pub enum Event {
    Submission(usize, u32, usize, usize),
    Turn(usize),
}

/// The answer to an entry of a run.
// A `Result` of an `Option` of a report is no plainer: what is granted would be an `Ok(None)`.
#[derive(Clone, Copy, PartialEq, Eq, Debug)]
pub enum Answer {
    Granted,
    Declined(Decline),
    Reported(Report),
}
