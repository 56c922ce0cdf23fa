//! What crosses to other languages: sizes, entries and answers as plain numbers.
ghost use Rattle.std.specs.Prelude.{◌≡◌};
ghost use Rattle.embed.specs.Numbers.{asked_of, event_of, in_numbers};

use nub::{Event, Sizes};
use stages::action::Action;

/// How many there are of each kind, and the count that every condition begins at.
#[repr(C)]
#[derive(Clone, Copy, PartialEq, Eq, Debug)]
pub struct Asked {
    pub threads: u32,
    pub mutexes: u32,
    pub conditions: u32,
    pub semaphores: u32,
    pub start: u32,
}

/// One entry of a run. Where `turn` is 0 it is a submission of the thread, with the code of its call and two objects; else it
/// is a turn of the thread. C has no enum with values: plain numbers cross.
#[repr(C)]
#[derive(Clone, Copy, PartialEq, Eq, Debug)]
pub struct Entry {
    pub turn: u32,
    pub thread: u32,
    pub code: u32,
    pub first: u32,
    pub second: u32,
}

/// The answer to an entry: 0 and the report of a turn, or the number of the decline. What there is not is 0. Plain numbers for
/// C, as an entry is.
#[repr(C)]
#[derive(Clone, Copy, PartialEq, Eq, Debug)]
pub struct Answer {
    pub row: u32,
    pub status: u32,
    pub value: u32,
    pub action: u32,
    pub mask: u64,
}

impl From<Asked> for Sizes {
    ghost from_gives = { λ asked sizes. sizes ≡ asked_of asked };

    /// The sizes that are asked for.
    fn from(asked: Asked) -> Sizes {
        Sizes {
            threads: asked.threads as usize,
            mutexes: asked.mutexes as usize,
            conditions: asked.conditions as usize,
            semaphores: asked.semaphores as usize,
        }
    }
}

impl From<Entry> for Event {
    ghost from_gives = { λ entry event. event ≡ event_of entry };

    /// The submission or turn that an entry is.
    fn from(entry: Entry) -> Event {
        if entry.turn == 0 {
            Event::Submission(
                entry.thread as usize,
                entry.code,
                entry.first as usize,
                entry.second as usize,
            )
        } else {
            Event::Turn(entry.thread as usize)
        }
    }
}

impl From<nub::Answer> for Answer {
    ghost from_gives = { λ answer numbers. numbers ≡ in_numbers answer };

    /// An answer of the nub, in numbers.
    fn from(answer: nub::Answer) -> Answer {
        let none = Answer {
            row: 0,
            status: 0,
            value: 0,
            action: 0,
            mask: 0,
        };
        match answer {
            nub::Answer::Granted => none,
            nub::Answer::Declined(decline) => Answer {
                row: u8::from(decline).into(),
                ..none
            },
            nub::Answer::Reported(report) => Answer {
                status: u8::from(report.status).into(),
                value: report.value,
                action: Action::number(report.action).into(),
                mask: report.mask,
                ..none
            },
        }
    }
}
