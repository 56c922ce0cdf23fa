//! A thread that passes its hold and its tickets from hand to hand. The uses that the compiler rejects are edits of this file.
use lines::set::LineSet;
use nub::Nub;
use tickets::calls::Spending;
use tickets::calls::holding::*;
use tickets::calls::plain::*;
use tickets::hold::Hold;
use tickets::refusal::Back;
use tickets::ticket::{Ticket, Turned};

/// What a thread has in hand.
pub enum Hand {
    Empty,
    Holding(Hold),
    Refused(Back<Hold>),
    Releasing(Ticket<Release>),
    Waiting(Ticket<Wait>),
    Stale(Back<Ticket<Release>>),
}

// Two functions, and no generic one: the edits that copy, drop or forget a hold or a ticket are of their bodies.
/// Keeps a hold.
fn keep(hold: Hold) -> Hand {
    Hand::Holding(hold)
}

/// Keeps a ticket.
fn keep_ticket(ticket: Ticket<Release>) -> Hand {
    Hand::Releasing(ticket)
}

/// Submits a call that uses a hold up, and keeps its ticket so.
fn spend<C: Spending, L: LineSet, K: FnOnce(Ticket<C>) -> Hand + Drop>(
    nub: &mut Nub<L>,
    hold: Hold,
    with: C::With,
    keep: K,
) -> Hand
    requires { K.IsAlwaysCallable keep }
{
    hold.submit(nub, with).map_or_else(Hand::Refused, keep)
}

/// Waits on condition 0 with a hold. This and the next are functions, since rejected edits call them.
fn wait<L: LineSet>(nub: &mut Nub<L>, hold: Hold) -> Hand {
    spend(nub, hold, 0, Hand::Waiting)
}

/// Submits Release with a hold.
fn release<L: LineSet>(nub: &mut Nub<L>, hold: Hold) -> Hand {
    spend(nub, hold, (), Hand::Releasing)
}

/// Submits Release with a hold, and does no more with it.
fn release_only<L: LineSet>(nub: &mut Nub<L>, hold: Hold) -> (Hand, Hand) {
    (release(nub, hold), Hand::Empty)
}

/// A turn on a ticket.
fn turn<L: LineSet>(nub: &mut Nub<L>, ticket: Ticket<Release>) -> Hand {
    match ticket.turn(nub) {
        Ok(Turned::On(ticket, _)) => Hand::Releasing(ticket),
        Ok(Turned::Finished(_, ())) => Hand::Empty,
        Err(back) => Hand::Stale(back),
    }
}
