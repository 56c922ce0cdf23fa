//! The operator: it stops the consumers by alerting one after the other.
use crate::Scene;
use crate::said::Said;
use crate::steps::{Next, Person, submit, turn};
use lines::set::LineSet;
use tickets::calls::plain::*;
use tickets::ticket::Ticket;

/// Where the operator stands: whom it alerts and who comes after, and the ticket while it alerts.
pub enum Operator {
    Next(usize, Option<usize>),
    Alerting(Ticket<Alert>, usize, Option<usize>),
    Done,
}

impl Person for Operator {
    fn next<L: LineSet>(self, scene: &mut Scene<L>, t: usize) -> Next<Operator> {
        let nub = &mut scene.nub;
        match self {
            Operator::Next(c, then) => submit(
                nub,
                t,
                Alert { thread: c },
                || Operator::Next(c, then),
                |ticket| Operator::Alerting(ticket, c, then),
            ),
            Operator::Alerting(ticket, c, then) => turn(
                nub,
                ticket,
                |ticket| Operator::Alerting(ticket, c, then),
                |_, ()| {
                    let next = match then {
                        Some(after) => Operator::Next(after, None),
                        None => Operator::Done,
                    };
                    (next, Some(Said::Alerts(t, c)))
                },
            ),
            Operator::Done => (Operator::Done, None),
        }
    }
}
