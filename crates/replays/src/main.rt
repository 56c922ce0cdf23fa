//! Replays one list of events on nubs over both kinds of lines, and on one whose sizes the check declines.
#![tactic(auto)]

use lines::first_come::FirstCome;
use lines::ranked::Ranked;
use nub::{Answer, Event, Sizes};
use runs::replay::replay;
use stages::action::Action;
use std::io;

// Threads 0 and 1 want a mutex that thread 2 has; thread 2 releases it.
const EVENTS: [Event; 18] = [
    Event::Submission(2, 1, 0, 0),
    Event::Turn(2),
    Event::Submission(0, 1, 0, 0),
    Event::Turn(0),
    Event::Turn(0),
    Event::Turn(0),
    Event::Turn(0),
    Event::Turn(0),
    Event::Submission(1, 1, 0, 0),
    Event::Turn(1),
    Event::Turn(1),
    Event::Turn(1),
    Event::Turn(1),
    Event::Turn(1),
    Event::Submission(2, 2, 0, 0),
    Event::Submission(2, 9, 0, 0),
    Event::Turn(2),
    Event::Turn(3),
];

// No `Display`: an answer's type is of another crate.
fn show(rt: &HostRuntime, answer: Answer) -> io::Result<()> {
    match answer {
        Answer::Granted => print!(rt; " ok"),
        Answer::Declined(decline) => {
            let number = u8::from(decline);
            print!(rt; " no:{number}")
        }
        Answer::Reported(report) => {
            let status = u8::from(report.status);
            let action = Action::number(report.action);
            print!(rt; " {status}:{action}")
        }
    }
}

fn show_all(rt: &HostRuntime, name: &str, answers: &[Answer]) -> io::Result<()> {
    print!(rt; "{name}:")?;
    for answer in answers {
        show(rt, *answer)?;
    }
    println!(rt; "")
}

fn main(rt: HostRuntime) -> io::Result<()> {
    let sizes = Sizes {
        threads: 3,
        mutexes: 1,
        conditions: 0,
        semaphores: 0,
    };
    let first = replay::<FirstCome>(rt.alloc(), sizes, 0, (), &EVENTS)?;
    show_all(&rt, "first-come", first.answers.as_slice())?;
    let ranked = replay::<Ranked>(rt.alloc(), sizes, 0, [7; 32], &EVENTS)?;
    show_all(&rt, "ranked", ranked.answers.as_slice())?;
    let too_many = Sizes {
        threads: 33,
        ..sizes
    };
    let least = replay::<Ranked>(rt.alloc(), too_many, 0, [7; 32], &EVENTS)?;
    show_all(&rt, "declined sizes", least.answers.as_slice())
}
