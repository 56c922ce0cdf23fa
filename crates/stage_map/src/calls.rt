//! Sets of calls.
ghost use Rattle.std.specs.Prelude.{◌≡◌, IsTrue, true, false, filter, length};
ghost use Rattle.stages.specs.declared.call.Call.{Call};
ghost use Rattle.stage_map.specs.Cases.{has_call, with_call};

use crate::names::*;
use crate::text::*;
use stages::call::Call;
use std::fmt;
use std::fmt::Write;

/// A set of calls, whatever their objects: for each in the order of the codes, whether it has it.
#[derive(Clone, Copy, Default, PartialEq, Eq)]
pub struct Calls {
    of: [bool; 11],
}

impl Calls {
    pub(crate) fn none() -> Calls
        ensures { (call : Call) → has_call result call ≡ false }
    {
        Calls { of: [false; 11] }
    }

    fn has(self, call: Call) -> bool
        ensures { result ≡ has_call self call }
    {
        self.of[place(call)]
    }

    pub(crate) fn add(&mut self, call: Call)
        ensures whole { self.new ≡ with_call self.old call }
        ensures added { has_call self.new call ≡ true }
        ensures kept { (other : Call) → IsTrue (has_call self.old other) → IsTrue (has_call self.new other) }
    {
        self.of[place(call)] = true;
    }

    pub(crate) fn len(self) -> usize
        ensures { result ≡ length (filter (λ has. has) self.of) }
    {
        self.of.iter().filter(|has| **has).count()
    }

    /// The calls here that are not there.
    fn without(self, there: Calls) -> Calls {
        let mut left = Calls::none();
        for (call, _) in CALLS {
            if self.has(call) && !there.has(call) {
                left.add(call);
            }
        }
        left
    }

    /// Whether all calls there are here.
    pub(crate) fn covers(self, there: Calls) -> bool {
        there.without(self).len() == 0
    }

    /// Their names, in the order of the calls' codes.
    pub(crate) fn names(self) -> Result<Line, fmt::Error> {
        let mut names = Line::new();
        for (call, name) in CALLS {
            if self.has(call) {
                add_words(&mut names, name)?;
            }
        }
        Ok(names)
    }

    /// The same in short, where `all` are those that there can be: nothing for all of them, and who is left out where that is one
    /// alone.
    pub(crate) fn names_among(self, all: Calls) -> Result<Line, fmt::Error> {
        let left = all.without(self);
        let mut names = Line::new();
        match left.len() {
            0 => {}
            1 if self.len() > 1 => write!(names, "not {}", left.names()?)?,
            _ if self.is_waits() => names.write_str("a wait")?,
            _ => return self.names(),
        }
        Ok(names)
    }

    // Wait and AlertWait, no more and no less.
    fn is_waits(self) -> bool {
        CALLS
            .iter()
            .all(|(call, _)| self.has(*call) == is_wait(*call))
    }
}
