//! A consumer: it takes items, waits where there is none, and stops once it is alerted.
use crate::Scene;
use crate::said::Said;
use crate::steps::{Next, Person, spend, submit, turn};
use lines::set::LineSet;
use tickets::calls::holding::*;
use tickets::calls::plain::*;
use tickets::hold::Hold;
use tickets::ticket::Ticket;

/// Where a consumer stands, with what it has in hand.
pub enum Consumer {
    Outside,
    Acquiring(Ticket<Acquire>),
    Inside(Hold),
    Waiting(Ticket<AlertWait>),
    Leaving(Ticket<Release>),
    Left,
    Asking(Ticket<TestAlert>),
    Alerted(Hold),
    Stopping(Ticket<Release>),
    Stopped,
}

impl Person for Consumer {
    fn next<L: LineSet>(self, scene: &mut Scene<L>, t: usize) -> Next<Consumer> {
        let nub = &mut scene.nub;
        match self {
            Consumer::Outside => submit(
                nub,
                t,
                Acquire { mutex: 0 },
                || Consumer::Outside,
                Consumer::Acquiring,
            ),
            Consumer::Acquiring(ticket) => turn(
                nub,
                ticket,
                Consumer::Acquiring,
                |_, hold| (Consumer::Inside(hold), None),
            ),
            Consumer::Inside(hold) => inside(scene, t, hold),
            Consumer::Waiting(ticket) => turn(nub, ticket, Consumer::Waiting, |report, hold| {
                if report.value == 1 {
                    (Consumer::Alerted(hold), Some(Said::Alerted(t)))
                } else {
                    (Consumer::Inside(hold), Some(Said::Back(t)))
                }
            }),
            Consumer::Leaving(ticket) => turn(
                nub,
                ticket,
                Consumer::Leaving,
                |_, ()| (Consumer::Left, None),
            ),
            Consumer::Left => submit(nub, t, TestAlert, || Consumer::Left, Consumer::Asking),
            Consumer::Asking(ticket) => turn(nub, ticket, Consumer::Asking, |report, ()| {
                if report.value == 1 {
                    (Consumer::Stopped, Some(Said::Stops(t)))
                } else {
                    (Consumer::Outside, None)
                }
            }),
            Consumer::Alerted(hold) => spend(
                nub,
                hold,
                (),
                Consumer::Alerted,
                |ticket| (Consumer::Stopping(ticket), None),
            ),
            Consumer::Stopping(ticket) => turn(
                nub,
                ticket,
                Consumer::Stopping,
                |_, ()| (Consumer::Stopped, Some(Said::Stops(t))),
            ),
            Consumer::Stopped => (Consumer::Stopped, None),
        }
    }
}

// With the mutex: takes an item and releases, or waits where there is none.
fn inside<L: LineSet>(scene: &mut Scene<L>, t: usize, hold: Hold) -> Next<Consumer> {
    let items = &mut scene.items;
    if *items > 0 {
        spend(&mut scene.nub, hold, (), Consumer::Inside, |ticket| {
            *items -= 1;
            (Consumer::Leaving(ticket), Some(Said::Takes(t)))
        })
    } else {
        spend(
            &mut scene.nub,
            hold,
            0,
            Consumer::Inside,
            |ticket| (Consumer::Waiting(ticket), Some(Said::Waits(t))),
        )
    }
}
