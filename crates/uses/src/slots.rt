//! A thread that keeps its hold or its ticket in a slot, which is empty once that is used up.
ghost use Rattle.std.specs.Prelude.{◌≡◌, true, is_some, None};

use lines::set::LineSet;
use nub::Nub;
use tickets::calls::Spending;
use tickets::calls::holding::*;
use tickets::calls::plain::*;
use tickets::hold::Hold;
use tickets::refusal::Back;
use tickets::ticket::{Ticket, Turned};

// Submits a call that uses up the hold in the slot.
fn spend<C: Spending>(
    nub: &mut Nub<impl LineSet>,
    slot: &mut Option<Hold>,
    with: C::With,
) -> Result<Ticket<C>, Back<Hold>>
    requires full { is_some slot.old ≡ true }
    ensures empty { slot.new ≡ None }
{
    slot.take().unwrap().submit(nub, with)
}

// Puts a ticket into an empty slot.
fn put(slot: &mut Option<Ticket<Release>>, ticket: Ticket<Release>)
    requires empty { slot.old ≡ None }
    ensures full { is_some slot.new ≡ true }
{
    let old = slot.replace(ticket);
    let None = old else { unreachable() };
}

// One turn on the ticket in the slot, which stays there until its call has finished: the answer says whether it does.
fn turn<L: LineSet>(nub: &mut Nub<L>, slot: &mut Option<Ticket<Release>>) -> bool
    requires full { is_some slot.old ≡ true }
    ensures there { result ≡ is_some slot.new }
{
    match slot.take().unwrap().turn(nub) {
        Ok(Turned::On(ticket, _)) => {
            put(slot, ticket);
            true
        }
        Ok(Turned::Finished(_, ())) => false,
        Err(Back { back, why: _ }) => {
            put(slot, back);
            true
        }
    }
}

/// What a thread got for its hold.
pub struct Got {
    pub first: Result<Ticket<Release>, Back<Hold>>,
    pub again: Option<Result<Ticket<Release>, Back<Hold>>>,
    pub waits: Option<Result<Ticket<Wait>, Back<Hold>>>,
}

/// Releases with a hold, once: the slot is empty then, so that there is nothing to release or to wait with.
fn release_once<L: LineSet>(nub: &mut Nub<L>, hold: Hold) -> Got {
    let mut slot = Some(hold);
    let first = spend(nub, &mut slot, ());
    let again = None;
    let waits = None;
    let None = slot else { unreachable() };
    Got {
        first,
        again,
        waits,
    }
}

/// Waits with a hold, once.
fn wait_once<L: LineSet>(
    nub: &mut Nub<L>,
    hold: Hold,
    condition: usize,
) -> Result<Ticket<Wait>, Back<Hold>> {
    let mut slot = Some(hold);
    let first = spend(nub, &mut slot, condition);
    let None = slot else { unreachable() };
    first
}

/// Two turns on a ticket, the second only while its call goes on. What is left in the slot is returned.
fn turn_twice<L: LineSet>(nub: &mut Nub<L>, ticket: Ticket<Release>) -> Option<Ticket<Release>> {
    let mut slot = Some(ticket);
    if turn(nub, &mut slot) {
        let _ = turn(nub, &mut slot);
    }
    slot
}
