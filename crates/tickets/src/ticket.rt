//! Tickets for calls under way: the submission that answers one, and turns on them.
ghost use Rattle.std.specs.Prelude.{◌≡◌, Some};
ghost use Rattle.std.specs.Result.{result_err};
ghost use Rattle.nub.specs.Submissions.{submits, answer_for};
ghost use Rattle.nub.specs.View.{core_of, lines_of};
ghost use Rattle.tickets.specs.Refusals.{refusal_for};
ghost use Rattle.tickets.specs.Tickets.{after, ticketed, ticket_turn};

use crate::calls::{Ending, Finished, Free, Ticketed};
use crate::refusal::{Back, Refusal};
use lines::set::LineSet;
use nub::{Nub, Report};
use stages::action::Status;
use stages::call::Call;

/// A call under way: its thread, and which call it is. It can be neither copied nor let go: its turns take it, until the
/// one that finishes its call.
pub struct Ticket<C> {
    pub(crate) thread: usize,
    pub(crate) call: C,
}

/// What a turn leaves: the ticket, while its call goes on, or what the finished call gives.
// No `Result`: neither is an error, and each comes with a report.
pub enum Turned<C, E> {
    On(Ticket<C>, Report),
    Finished(Report, E),
}

// Whether thread t has this very call under way.
fn check<L: LineSet>(nub: &Nub<L>, t: usize, call: Call) -> Result<(), Refusal>
    ensures { result_err result ≡ refusal_for (core_of nub.now) t call }
{
    match nub.call_under_way(t)? {
        Some(under) if under == call => Ok(()),
        _ => Err(Refusal::OtherCall),
    }
}

impl<C: Free> Ticket<C> {
    /// Thread `t` submits the call, and has a ticket for it.
    pub fn submit(nub: &mut Nub<impl LineSet>, t: usize, call: C) -> Result<Ticket<C>, Refusal>
        ensures core { core_of nub.new ≡ submits (core_of nub.old) t (C.Ticketed.under call) }
        ensures lines { lines_of nub.new ≡ lines_of nub.old }
        ensures answer { result ≡ ticketed (answer_for (core_of nub.old) t (C.Ticketed.under call)) t call }
    {
        nub.submit_call(t, call.call())?;
        Ok(Ticket { thread: t, call })
    }
}

impl<C: Ticketed> Ticket<C> {
    /// The thread whose call it is.
    pub fn thread(&self) -> usize
        ensures { result ≡ self.now.thread }
    {
        self.thread
    }

    // What a turn with this report leaves of it.
    fn after(self, report: Report) -> Turned<C, C::End>
        ensures { result ≡ after report.status self report (C.End.gives (C.Ticketed.under self.call) self.thread) }
    {
        match report.status {
            Status::Finished => {
                let Ticket { thread, call } = self;
                Turned::Finished(report, C::End::of(call.call(), Finished { thread }))
            }
            Status::On | Status::Parked | Status::Spun => Turned::On(self, report),
        }
    }

    /// A turn of the ticket's thread. Refused, the ticket comes back, and the nub is as it was.
    pub fn turn<L: LineSet>(self, nub: &mut Nub<L>) -> Result<Turned<C, C::End>, Back<Ticket<C>>>
        ensures core { core_of nub.new ≡ (ticket_turn L.LineSet.kind (core_of nub.old) (L.LineSet.state (lines_of nub.old)) self (C.Ticketed.under self.call) (C.End.gives (C.Ticketed.under self.call) self.thread)).core }
        ensures lines { L.LineSet.state (lines_of nub.new) ≡ (ticket_turn L.LineSet.kind (core_of nub.old) (L.LineSet.state (lines_of nub.old)) self (C.Ticketed.under self.call) (C.End.gives (C.Ticketed.under self.call) self.thread)).lines }
        ensures answer { Some result ≡ (ticket_turn L.LineSet.kind (core_of nub.old) (L.LineSet.state (lines_of nub.old)) self (C.Ticketed.under self.call) (C.End.gives (C.Ticketed.under self.call) self.thread)).answer }
    {
        // No `map_err` here: its closure would hold the ticket, and not be `Drop`.
        if let Err(why) = check(nub, self.thread, self.call.call()) {
            return Err(Back { back: self, why });
        }
        match nub.turn(self.thread) {
            Ok(report) => Ok(self.after(report)),
            Err(decline) => Err(Back {
                back: self,
                why: decline.into(),
            }),
        }
    }
}
