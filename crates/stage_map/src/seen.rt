//! What a turn can look at, and cases over it.
ghost use Rattle.std.specs.Prelude.{◌≡◌, ◌↔◌, IsTrue, None, Some, true};
ghost use Rattle.stage_map.specs.Cases.{says, saying};

use crate::full::Full;
use crate::text::*;
use arrayvec::ArrayVec;
use std::fmt;

/// A thing that a turn can look at. Each is off or on.
#[derive(Clone, Copy, Default, PartialEq, Eq)]
pub enum Thing {
    /// The spin bit. It stands where a list has no thing.
    #[default]
    Spin,
    /// The bit of the gate.
    Bit,
    /// Whether the gate's line is empty.
    Empty,
    /// Whether the count is another than the kept one.
    Other,
    /// The own alert flag.
    Flag,
    /// Whether the outcome is alerted.
    Alerted,
}

/// The things, in their order. No form lists the values of an enum.
pub const THINGS: [Thing; 6] = [
    Thing::Spin,
    Thing::Bit,
    Thing::Empty,
    Thing::Other,
    Thing::Flag,
    Thing::Alerted,
];

impl Thing {
    /// How a case says that it is off or on.
    pub(crate) fn words(self, on: bool) -> &'static str {
        let (off_words, on_words) = match self {
            Thing::Spin => ("spin 0", "spin 1"),
            Thing::Bit => ("bit 0", "bit 1"),
            Thing::Empty => ("member", "empty"),
            Thing::Other => ("same count", "other count"),
            Thing::Flag => ("flag 0", "flag 1"),
            Thing::Alerted => ("signalled", "alerted"),
        };
        if on { on_words } else { off_words }
    }
}

/// Some things off or on, the others either.
#[derive(Clone, Copy, Default, PartialEq, Eq)]
pub struct Case {
    of: [Option<bool>; 6],
}

/// Cases, no more than there are ways in which a turn can see things.
pub type Cases = ArrayVec<Case, 64>;

impl Case {
    /// Whatever is seen.
    pub(crate) fn always() -> Case
        ensures { (thing : Thing) → says result thing ≡ None }
    {
        Case { of: [None; 6] }
    }

    /// The same with one thing off or on.
    pub(crate) fn with(self, thing: Thing, on: bool) -> Case
        ensures { result ≡ saying self thing on }
    {
        let mut more = self;
        more.of[thing as usize] = Some(on);
        more
    }

    fn at(self, thing: Thing) -> Option<bool>
        ensures { result ≡ says self thing }
    {
        self.of[thing as usize]
    }

    /// Whether it says that a thing is on.
    pub(crate) fn has(self, thing: Thing) -> bool
        ensures { IsTrue result ↔ (says self thing ≡ Some true) }
    {
        self.at(thing) == Some(true)
    }

    /// Whether another case says all that this one says.
    pub(crate) fn fits(self, other: Case) -> bool {
        THINGS.iter().all(|thing| self.at(*thing).is_none() || other.at(*thing) == self.at(*thing))
    }

    /// The one thing that another case says is on and this one says is off, where they say the same of all others.
    pub(crate) fn turns_on(self, other: Case) -> Option<Thing> {
        let mut turned = None;
        for thing in THINGS {
            let (off, on) = (self.at(thing), other.at(thing));
            if off != on {
                if turned.is_some() || off != Some(false) || on != Some(true) {
                    return None;
                }
                turned = Some(thing);
            }
        }
        turned
    }

    /// What both say.
    pub(crate) fn common(self, other: Case) -> Case {
        let mut both = Case::always();
        for thing in THINGS {
            if let Some(on) = self.at(thing) {
                if other.at(thing) == Some(on) {
                    both = both.with(thing, on);
                }
            }
        }
        both
    }

    /// All cases split by each thing in turn that tells of the case so far.
    pub(crate) fn split<F: Fn(Case, Thing) -> bool>(tells: F) -> Result<Cases, Full>
        requires { F.IsAlwaysCallable tells }
    {
        let mut cases = Cases::new();
        cases.try_push(Case::always())?;
        for thing in THINGS {
            let mut finer = Cases::new();
            for case in &cases {
                if tells(*case, thing) {
                    finer.try_push(case.with(thing, false))?;
                    finer.try_push(case.with(thing, true))?;
                } else {
                    finer.try_push(*case)?;
                }
            }
            cases = finer;
        }
        Ok(cases)
    }

    /// Its words.
    pub(crate) fn words(self) -> Result<Line, fmt::Error> {
        let mut line = Line::new();
        for thing in THINGS {
            if let Some(on) = self.at(thing) {
                add_words(&mut line, thing.words(on))?;
            }
        }
        Ok(line)
    }
}

/// All ways in which a turn can see things: the cases that leave none open.
pub(crate) fn ways() -> Result<Cases, Full> {
    Case::split(|_, _| true)
}
