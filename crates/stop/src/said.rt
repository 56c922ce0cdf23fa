//! What the people say of their turns.
use std::fmt;
use tickets::refusal::Refusal;

/// What a person has just done or seen. A number is that of a thread.
#[derive(Clone, Copy, PartialEq, Eq, Debug)]
pub enum Said {
    Puts(usize),
    Signals(usize, u64),
    Waits(usize),
    Back(usize),
    Takes(usize),
    Alerted(usize),
    Stops(usize),
    Alerts(usize, usize),
    Refused(usize, Refusal),
}

impl fmt::Display for Said {
    fn fmt<W: fmt::Write>(&self, f: &mut fmt::Formatter<W>) -> fmt::Result {
        match *self {
            Said::Puts(t) => write!(f, "thread {t} has the mutex and puts an item"),
            Said::Signals(t, mask) => write!(
                f,
                "thread {t} has signalled, and the freed mask is {mask}"
            ),
            Said::Waits(t) => write!(f, "thread {t} has the mutex, finds no item and waits"),
            Said::Back(t) => write!(f, "thread {t} is back from its wait, signalled"),
            Said::Takes(t) => write!(f, "thread {t} has the mutex and takes an item"),
            Said::Alerted(t) => write!(f, "thread {t} is back from its wait, alerted"),
            Said::Stops(t) => write!(f, "thread {t} has released the mutex and stops"),
            Said::Alerts(t, c) => write!(f, "thread {t} has alerted thread {c}"),
            Said::Refused(t, why) => {
                let number = u8::from(why);
                write!(f, "thread {t} is refused by {number}")
            }
        }
    }
}
