//! A producer, two consumers and an operator who stops them, on first-come and on ranked lines.
//!
//! Mutex 0 guards a store, and a consumer that finds it empty waits on condition 0 by AlertWait. Each person has a turn in
//! each round; the operator comes late, and alerts both consumers.
#![tactic(auto)]

mod consumer;
mod operator;
mod producer;
mod said;
mod steps;
mod strangers;

use consumer::Consumer;
use lines::first_come::*;
use lines::ranked::*;
use lines::set::LineSet;
use nub::{Nub, Sizes};
use operator::Operator;
use producer::Producer;
use std::fmt;
use std::mem::ManuallyDrop;
use steps::Person;
use strangers::{Stray, strangers};

/// What the people share: the nub, and how many items there are, which its mutex guards.
#[derive(Drop)]
pub struct Scene<L> {
    nub: Nub<L>,
    items: u32,
}

// The threads of the people.
const PRODUCER: usize = 0;

const CONSUMERS: [usize; 2] = [1, 2];

const OPERATOR: usize = 3;

// By when the consumers wait, when the operator comes, and by when all have stopped.
const PRODUCER_COMES: u32 = 40;

const OPERATOR_COMES: u32 = 150;

const ROUNDS: u32 = 300;

/// The people, with what each has in hand. Each is named: what they hold cannot be let go, and an array would be taken apart.
pub struct People {
    producer: Producer,
    first: Consumer,
    second: Consumer,
    operator: Operator,
}

/// Who or what has not come to its end.
pub enum Unfinished {
    People(People),
    Stray(Stray),
}

/// What the program ends with where somebody has not come to its end: tickets and holds cannot be dropped, so what is left in
/// hand is kept until the process is gone.
#[derive(Drop)]
pub struct Ended {
    _left: ManuallyDrop<Unfinished>,
}

// Not derived: tickets and holds have no `Debug`, so that none can be seen through.
impl fmt::Debug for Ended {
    fn fmt<W: fmt::Write>(&self, f: &mut fmt::Formatter<W>) -> fmt::Result {
        f.write_str("not all have come to their end")
    }
}

// The next step of a person, with what it says of it.
fn step<P: Person, L: LineSet>(rt: &HostRuntime, scene: &mut Scene<L>, person: P, t: usize) -> P {
    let (person, said) = person.next(scene, t);
    if let Some(said) = said {
        let _ = println!(rt; "  {said}");
    }
    person
}

// One round: a step of each who has come, in the order of their threads.
fn round<L: LineSet>(rt: &HostRuntime, scene: &mut Scene<L>, n: u32, people: People) -> People {
    let People {
        mut producer,
        first,
        second,
        mut operator,
    } = people;
    if n >= PRODUCER_COMES {
        producer = step(rt, scene, producer, PRODUCER);
    }
    let first = step(rt, scene, first, CONSUMERS[0]);
    let second = step(rt, scene, second, CONSUMERS[1]);
    if n >= OPERATOR_COMES {
        operator = step(rt, scene, operator, OPERATOR);
    }
    People {
        producer,
        first,
        second,
        operator,
    }
}

// Plays the rounds. Who has not come to an end has a ticket or a hold in hand, so that all people are handed back.
fn play<L: LineSet + Drop>(rt: &HostRuntime, nub: Nub<L>) -> Result<(), Unfinished> {
    let mut scene = Scene { nub, items: 0 };
    let mut people = People {
        producer: Producer::Outside(2),
        first: Consumer::Outside,
        second: Consumer::Outside,
        operator: Operator::Next(CONSUMERS[0], Some(CONSUMERS[1])),
    };
    for n in 0..ROUNDS {
        people = round(rt, &mut scene, n, people);
    }
    match people {
        People {
            producer: Producer::Done,
            first: Consumer::Stopped,
            second: Consumer::Stopped,
            operator: Operator::Done,
        } => {
            let _ = println!(rt; "  all have come to their end");
            Ok(())
        }
        people => Err(Unfinished::People(people)),
    }
}

// Both plays, and the strangers.
fn show(rt: &HostRuntime) -> Result<(), Unfinished> {
    let sizes = Sizes {
        threads: 4,
        mutexes: 1,
        conditions: 1,
        semaphores: 0,
    };
    let _ = println!(rt; "first-come lines:");
    play(rt, Nub::<FirstCome>::make(sizes, 0, ()))?;
    let _ = println!(rt; "ranked lines, where the second consumer ranks higher:");
    let mut ranks = [0; 32];
    ranks[CONSUMERS[1]] = 7;
    play(rt, Nub::<Ranked>::make(sizes, 0, ranks))?;
    let _ = println!(rt; "strangers:");
    strangers(rt).map_err(Unfinished::Stray)
}

fn main(rt: HostRuntime) -> Result<(), Ended> {
    show(&rt).map_err(|left| Ended {
        // The process ends with this error, and nobody sees the tickets and holds again.
        _left: unsafe { ManuallyDrop::new_unchecked(left) },
    })
}
