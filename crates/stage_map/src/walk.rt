//! Whole waits, each walked through by one record: the two ways out, and what decides between them.
use crate::probe;
use crate::reach::*;
use crate::seen::*;
use crate::text::*;
use stages::call::Call;
use stages::stage::Stage;
use stages::step::Step;
use std::fmt;
use std::fmt::Write;
use thread::record::Thread;

// What a wait meets: another count at Compare, an alert, a signal that takes it at a stage. Nothing else is in its way.
#[derive(Clone, Copy)]
struct Plan {
    title: &'static str,
    call: Call,
    other: bool,
    alert: bool,
    taken_at: Option<Stage>,
}

// More turns than such a wait has.
const TURNS: usize = 20;

impl Plan {
    // What its turns see: an empty line, and another count where it has one.
    fn sees(self) -> Case {
        Case::always()
            .with(Thing::Empty, true)
            .with(Thing::Other, self.other)
    }

    // The record after its turn, with what the turn did, or after it is taken.
    fn next(self, thread: Thread, seen: Case) -> Option<(Thread, Option<Step>)> {
        if self.taken_at == Some(thread.stage()) {
            return Some((taken(thread)?, None));
        }
        let (after, step) = turned(thread, sight(thread, seen))?;
        Some((after, Some(step)))
    }
}

// A stage and the arrow from it, with the number of the action done.
fn add_step(line: &mut Line, stage: Stage, step: Option<Step>) -> fmt::Result {
    match step {
        None => write!(line, "{stage:?} = taken => "),
        Some(step) => match step.action {
            None => write!(line, "{stage:?} -> "),
            Some(action) => write!(line, "{stage:?} ({}) -> ", action as u8),
        },
    }
}

// A plan walked, from Compare on; what comes before is the same in all. At the end stand what the last turn answered, and the
// flag that is left.
fn walk(plan: Plan) -> Result<Line, fmt::Error> {
    let seen = plan.sees();
    let mut line = Line::new();
    let mut thread = Thread::new();
    thread.start(plan.call);
    if plan.alert {
        thread.set_alert();
    }
    let mut value = 0;
    for _ in 0..TURNS {
        let stage = thread.stage();
        let Some((after, step)) = plan.next(thread, seen) else {
            break;
        };
        if stage == Stage::Compare || !line.is_empty() {
            add_step(&mut line, stage, step)?;
        }
        if let Some(step) = step {
            value = step.value;
        }
        thread = after;
    }
    let stage = thread.stage();
    let flag = u8::from(probe::flag(thread));
    write!(line, "{stage:?}: value {value}, flag {flag}")?;
    Ok(line)
}

const WAIT: Plan = Plan {
    title: "Wait, taken by a signal",
    call: Call::Wait(0, 0),
    other: false,
    alert: false,
    taken_at: Some(Stage::Waiting),
};

const ALERT_WAIT: Plan = Plan {
    title: "AlertWait, alerted, and no signal before Quit",
    call: Call::AlertWait(0, 0),
    other: false,
    alert: true,
    taken_at: None,
};

const PLANS: [Plan; 6] = [
    WAIT,
    Plan {
        title: "Wait, a signal before Compare",
        other: true,
        ..WAIT
    },
    Plan {
        title: "AlertWait, its alert pending, taken by a signal first",
        taken_at: Some(Stage::Waiting),
        ..ALERT_WAIT
    },
    Plan {
        title: "AlertWait, its alert seen, still taken by a signal before Quit",
        taken_at: Some(Stage::QuitSpin),
        ..ALERT_WAIT
    },
    Plan {
        title: "AlertWait, its alert pending, a signal before Compare",
        other: true,
        ..ALERT_WAIT
    },
    ALERT_WAIT,
];

/// The walks.
#[derive(Clone, Copy)]
pub struct Walks;

impl fmt::Display for Walks {
    fn fmt<W: fmt::Write>(&self, f: &mut fmt::Formatter<W>) -> fmt::Result {
        f.write_str("The same, walked from Compare on\n\n")?;
        for plan in PLANS {
            let title = plan.title;
            let line = walk(plan)?;
            writeln!(f, "  {title}:\n    {line}")?;
        }
        Ok(())
    }
}
