//! What a person does in a round: one submission, or one turn on its ticket.
use crate::Scene;
use crate::said::Said;
use lines::set::LineSet;
use nub::{Nub, Report};
use tickets::calls::{Free, Spending, Ticketed};
use tickets::hold::Hold;
use tickets::refusal::Back;
use tickets::ticket::{Ticket, Turned};

/// Where a person stands next, and what it says of it.
pub(crate) type Next<S> = (S, Option<Said>);

/// Somebody who plays.
pub(crate) trait Person {
    /// One submission or one turn of thread `t`. Refused, it stays where it is.
    // The scene and the thread are no pair: the scene is one for all, and each person has a thread.
    fn next<L: LineSet>(self, scene: &mut Scene<L>, t: usize) -> Next<Self>;
}

/// Thread `t` submits a call, and `goes` on with its ticket; refused, it `stays`.
// Here and below each asks of its own closures that they may be called: a trait has no place for that.
pub(crate) fn submit<C, S, L, Stays, Goes>(
    nub: &mut Nub<L>,
    t: usize,
    call: C,
    stays: Stays,
    goes: Goes,
) -> Next<S>
where
    C: Free,
    L: LineSet,
    Stays: FnOnce() -> S + Drop,
    Goes: FnOnce(Ticket<C>) -> S + Drop,
    requires stays { Stays.IsAlwaysCallable stays }
    requires goes { Goes.IsAlwaysCallable goes }
{
    match Ticket::submit(nub, t, call) {
        Ok(ticket) => (goes(ticket), None),
        Err(why) => (stays(), Some(Said::Refused(t, why))),
    }
}

/// The thread of a hold submits a call that uses it up, and `goes` on with its ticket; refused, it `stays`.
pub(crate) fn spend<C, S, L, Stays, Goes>(
    nub: &mut Nub<L>,
    hold: Hold,
    with: C::With,
    stays: Stays,
    goes: Goes,
) -> Next<S>
where
    C: Spending,
    L: LineSet,
    Stays: FnOnce(Hold) -> S + Drop,
    Goes: FnOnce(Ticket<C>) -> Next<S> + Drop,
    requires stays { Stays.IsAlwaysCallable stays }
    requires goes { Goes.IsAlwaysCallable goes }
{
    match hold.submit(nub, with) {
        Ok(ticket) => goes(ticket),
        Err(Back { back, why }) => {
            let t = back.thread();
            (stays(back), Some(Said::Refused(t, why)))
        }
    }
}

/// A turn on a ticket: the person `stays` with it while its call goes on, and is `done` once that has finished.
pub(crate) fn turn<C, S, L, Stays, Done>(
    nub: &mut Nub<L>,
    ticket: Ticket<C>,
    stays: Stays,
    done: Done,
) -> Next<S>
where
    C: Ticketed,
    L: LineSet,
    Stays: FnOnce(Ticket<C>) -> S + Drop,
    Done: FnOnce(Report, C::End) -> Next<S> + Drop,
    requires stays { Stays.IsAlwaysCallable stays }
    requires done { Done.IsAlwaysCallable done }
{
    match ticket.turn(nub) {
        Ok(Turned::On(ticket, _)) => (stays(ticket), None),
        Ok(Turned::Finished(report, end)) => done(report, end),
        Err(Back { back, why }) => {
            let t = back.thread();
            (stays(back), Some(Said::Refused(t, why)))
        }
    }
}
