//! Holds: a mutex that a thread has acquired, and the submission that uses a hold up.
ghost use Rattle.std.specs.Prelude.{◌≡◌};
ghost use Rattle.nub.specs.Submissions.{submits, answer_for};
ghost use Rattle.nub.specs.View.{core_of, lines_of};
ghost use Rattle.tickets.specs.Tickets.{spent};

use crate::calls::Spending;
use crate::refusal::{Back, Refusal};
use crate::ticket::Ticket;
use lines::set::LineSet;
use nub::Nub;

/// A mutex that a thread has acquired. It can be neither copied nor let go: Release, Wait and AlertWait use it up.
pub struct Hold {
    pub(crate) thread: usize,
    pub(crate) mutex: usize,
}

impl Hold {
    /// The thread that has the mutex.
    pub fn thread(&self) -> usize
        ensures { result ≡ self.now.thread }
    {
        self.thread
    }

    /// The mutex.
    pub fn mutex(&self) -> usize
        ensures { result ≡ self.now.mutex }
    {
        self.mutex
    }

    /// The thread submits the call `C` of the mutex: Release with `()`, or Wait or AlertWait with a condition. Refused, the hold
    /// comes back.
    pub fn submit<C: Spending>(
        self,
        nub: &mut Nub<impl LineSet>,
        with: C::With,
    ) -> Result<Ticket<C>, Back<Hold>>
        ensures core { core_of nub.new ≡ submits (core_of nub.old) self.thread (C.Ticketed.under (C.Spending.made self with)) }
        ensures lines { lines_of nub.new ≡ lines_of nub.old }
        ensures answer { result ≡ spent (answer_for (core_of nub.old) self.thread (C.Ticketed.under (C.Spending.made self with))) self (C.Spending.made self with) }
    {
        let call = C::of(&self, with);
        // No `map_err` here: its closure would hold the hold, and not be `Drop`.
        match nub.submit_call(self.thread, call.call()) {
            Ok(()) => {
                let Hold { thread, mutex: _ } = self;
                Ok(Ticket { thread, call })
            }
            Err(decline) => Err(Back {
                back: self,
                why: Refusal::from(decline),
            }),
        }
    }
}
