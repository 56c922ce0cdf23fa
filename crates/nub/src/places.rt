//! The lines and objects that a call is about. Mutex m has line m, semaphore s line 16 + s, condition c line 32 + c.
ghost use Rattle.std.specs.Prelude.{◌≡◌, ◌+◌, ◌≤◌, if◌then◌else◌, Some, None, nat_lt};
ghost use Rattle.stages.specs.Calls.{condition_of};
ghost use Rattle.stages.specs.Calls.Object.{condition};
ghost use Rattle.nub.specs.Places.{at_line, gate_line, cond_line, mutex_of, alerted_of};

use stages::call::Call;

// The line of the object of this number, of the kind whose lines begin at `FIRST`, if there can be such an object.
fn line_from<const FIRST: usize>(i: usize) -> Option<usize>
    requires { FIRST ≤ 32 }
    ensures { result ≡ (if nat_lt i 16 then Some (FIRST + i) else None) }
{
    if i < 16 { Some(FIRST + i) } else { None }
}

/// The line of a condition.
pub(crate) fn condition_line(c: usize) -> Option<usize>
    ensures { result ≡ at_line (condition c) }
{
    line_from::<32>(c)
}

/// A thread and its call, in a turn of the thread.
#[derive(Clone, Copy)]
pub(crate) struct Actor {
    pub(crate) thread: usize,
    pub(crate) call: Option<Call>,
}

impl Actor {
    /// The line of the call's mutex or semaphore, if it has one.
    pub(crate) fn gate_line(self) -> Option<usize>
        ensures { result ≡ gate_line self.call }
    {
        match self.call? {
            Call::P(s) | Call::V(s) | Call::AlertP(s) => line_from::<16>(s),
            _ => line_from::<0>(self.mutex()?),
        }
    }

    /// The call's mutex, if it has one.
    pub(crate) fn mutex(self) -> Option<usize>
        ensures { result ≡ mutex_of self.call }
    {
        match self.call? {
            Call::Acquire(m) | Call::Release(m) | Call::Wait(m, _) | Call::AlertWait(m, _) => Some(
                m,
            ),
            _ => None,
        }
    }

    /// The call's condition, if it has one.
    pub(crate) fn condition(self) -> Option<usize>
        ensures { result ≡ condition_of self.call }
    {
        self.call?.condition()
    }

    /// The thread that the call alerts, if it alerts one.
    pub(crate) fn alerted(self) -> Option<usize>
        ensures { result ≡ alerted_of self.call }
    {
        match self.call? {
            Call::Alert(n) => Some(n),
            _ => None,
        }
    }

    /// The line of the call's condition, if it has one.
    pub(crate) fn condition_line(self) -> Option<usize>
        ensures { result ≡ cond_line self.call }
    {
        condition_line(self.condition()?)
    }
}
