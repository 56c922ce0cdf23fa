//! Tickets and holds that are refused, and come back: shown to another nub, or overtaken by calls made by thread number.
use lines::first_come::*;
use nub::{Nub, Sizes};
use stages::action::Status;
use stages::call::Call;
use tickets::calls::Ticketed;
use tickets::calls::holding::*;
use tickets::calls::plain::*;
use tickets::hold::Hold;
use tickets::refusal::Back;
use tickets::ticket::{Ticket, Turned};

/// What is left in hand where the scene goes another way.
pub enum Stray {
    Acquiring(Ticket<Acquire>),
    Holding(Hold),
    Releasing(Ticket<Release>),
}

// More turns than any call here takes.
const TURNS: u32 = 20;

fn built(threads: usize) -> Nub<FirstCome> {
    let sizes = Sizes {
        threads,
        mutexes: 1,
        conditions: 0,
        semaphores: 0,
    };
    Nub::make(sizes, 0, ())
}

// Shows a ticket to a nub that must refuse it, and says by which number.
fn show(
    rt: &HostRuntime,
    nub: &mut Nub<FirstCome>,
    ticket: Ticket<Acquire>,
    to: &str,
) -> Result<Ticket<Acquire>, Stray> {
    match ticket.turn(nub) {
        Err(Back { back, why }) => {
            let number = u8::from(why);
            let _ = println!(rt; "  a ticket, shown to {to}, is refused by {number}");
            Ok(back)
        }
        Ok(Turned::On(ticket, _)) => Err(Stray::Acquiring(ticket)),
        Ok(Turned::Finished(_, hold)) => Err(Stray::Holding(hold)),
    }
}

// A whole call by the thread's number.
fn by_number(nub: &mut Nub<FirstCome>, t: usize, call: Call) {
    let _ = nub.submit_call(t, call);
    for _ in 0..TURNS {
        let Ok(report) = nub.turn(t) else {
            return;
        };
        if report.status == Status::Finished {
            return;
        }
    }
}

// A whole call by its ticket, which comes back where it does not finish.
fn finish<C: Ticketed>(
    nub: &mut Nub<FirstCome>,
    mut ticket: Ticket<C>,
) -> Result<C::End, Ticket<C>> {
    for _ in 0..TURNS {
        match ticket.turn(nub) {
            Ok(Turned::On(again, _)) => ticket = again,
            Ok(Turned::Finished(_, end)) => return Ok(end),
            Err(Back { back, why: _ }) => return Err(back),
        }
    }
    Err(ticket)
}

/// Shows a ticket to nubs that it is not of, then has its hold overtaken by a Release and an Acquire by thread number.
pub(crate) fn strangers(rt: &HostRuntime) -> Result<(), Stray> {
    let mut own = built(4);
    let mut small = built(1);
    let mut other = built(4);
    let Ok(ticket) = Ticket::submit(&mut own, 3, Acquire { mutex: 0 }) else {
        return Ok(());
    };
    let ticket = show(rt, &mut small, ticket, "a nub of one thread")?;
    let ticket = show(rt, &mut other, ticket, "a nub whose thread is idle")?;
    let _ = other.submit_call(3, Call::TestAlert);
    let ticket = show(
        rt,
        &mut other,
        ticket,
        "a nub whose thread has another call",
    )?;
    let hold = finish(&mut own, ticket).map_err(Stray::Acquiring)?;
    by_number(&mut own, 3, Call::Release(0));
    let hold = match hold.submit::<Release>(&mut own, ()) {
        Err(Back { back, why }) => {
            let number = u8::from(why);
            let _ = println!(rt;
                "  a hold, its mutex released by thread number, is refused by {number}"
            );
            back
        }
        Ok(ticket) => return Err(Stray::Releasing(ticket)),
    };
    by_number(&mut own, 3, Call::Acquire(0));
    let ticket = hold
        .submit::<Release>(&mut own, ())
        .map_err(|Back { back, why: _ }| Stray::Holding(back))?;
    finish(&mut own, ticket).map_err(Stray::Releasing)?;
    let _ = println!(rt; "  the same hold, its mutex acquired again, is released");
    Ok(())
}
