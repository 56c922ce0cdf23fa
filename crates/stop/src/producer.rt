//! The producer: it puts an item, releases the mutex and signals, as often as it has items.
use crate::Scene;
use crate::said::Said;
use crate::steps::{Next, Person, spend, submit, turn};
use lines::set::LineSet;
use tickets::calls::holding::*;
use tickets::calls::plain::*;
use tickets::hold::Hold;
use tickets::refusal::Back;
use tickets::ticket::{Ticket, Turned};

/// Where the producer stands, with what it has in hand and how many items it has left.
pub enum Producer {
    Outside(u32),
    Acquiring(Ticket<Acquire>, u32),
    Inside(Hold, u32),
    Leaving(Ticket<Release>, u32),
    Left(u32),
    Signalling(Ticket<Signal>, u32),
    Done,
}

impl Person for Producer {
    fn next<L: LineSet>(self, scene: &mut Scene<L>, t: usize) -> Next<Producer> {
        let nub = &mut scene.nub;
        match self {
            Producer::Outside(0) => (Producer::Done, None),
            Producer::Outside(left) => submit(
                nub,
                t,
                Acquire { mutex: 0 },
                || Producer::Outside(left),
                |ticket| Producer::Acquiring(ticket, left),
            ),
            Producer::Acquiring(ticket, left) => turn(
                nub,
                ticket,
                |ticket| Producer::Acquiring(ticket, left),
                |_, hold| (Producer::Inside(hold, left), None),
            ),
            Producer::Inside(hold, left) => {
                let items = &mut scene.items;
                spend(
                    nub,
                    hold,
                    (),
                    |hold| Producer::Inside(hold, left),
                    |ticket| {
                        *items = items.saturating_add(1);
                        let left = left.saturating_sub(1);
                        (Producer::Leaving(ticket, left), Some(Said::Puts(t)))
                    },
                )
            }
            Producer::Leaving(ticket, left) => turn(
                nub,
                ticket,
                |ticket| Producer::Leaving(ticket, left),
                |_, ()| (Producer::Left(left), None),
            ),
            Producer::Left(left) => submit(
                nub,
                t,
                Signal { condition: 0 },
                || Producer::Left(left),
                |ticket| Producer::Signalling(ticket, left),
            ),
            // The one call whose turns are spoken of before it has finished.
            Producer::Signalling(ticket, left) => match ticket.turn(nub) {
                Ok(Turned::On(ticket, report)) => (
                    Producer::Signalling(ticket, left),
                    report.action.map(|_| Said::Signals(t, report.mask)),
                ),
                Ok(Turned::Finished(_, ())) => (Producer::Outside(left), None),
                Err(Back { back, why }) => {
                    (
                        Producer::Signalling(back, left),
                        Some(Said::Refused(t, why)),
                    )
                }
            },
            Producer::Done => (Producer::Done, None),
        }
    }
}
