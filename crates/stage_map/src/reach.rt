//! The records that a thread can come to in a call: by its own turns, whatever they see, by being alerted, and by being taken
//! from a line.
ghost use Rattle.std.specs.Prelude.{◌≡◌, ◌↔◌, IsTrue, true, Some, None};
ghost use Rattle.stages.specs.declared.stage.Stage.{Stage};
ghost use Rattle.thread.specs.Turns.{thread_after, step_after};
ghost use Rattle.stage_map.specs.Cases.{says};
ghost use Rattle.stage_map.specs.Taking.{taken_from};

use crate::full::Full;
use crate::probe;
use crate::seen::*;
use arrayvec::ArrayVec;
use stages::call::Call;
use stages::marks::*;
use stages::stage::Stage;
use stages::step::*;
use thread::record::Thread;

/// What a turn of this record sees. A Read keeps the count 0, so that 0 is the kept count from then on, and 1 is another.
pub(crate) fn sight(thread: Thread, seen: Case) -> Sight
    ensures spin { IsTrue result.spin ↔ (says seen Thing.Spin ≡ Some true) }
    ensures bit { IsTrue result.bit ↔ (says seen Thing.Bit ≡ Some true) }
    ensures empty { IsTrue result.empty ↔ (says seen Thing.Empty ≡ Some true) }
    ensures read { thread.stage ≡ Stage.Read → result.count ≡ 0 }
{
    let other = thread.stage() != Stage::Read && seen.has(Thing::Other);
    Sight {
        spin: seen.has(Thing::Spin),
        bit: seen.has(Thing::Bit),
        empty: seen.has(Thing::Empty),
        count: u32::from(other),
    }
}

/// The record after its turn, and what the turn did; none for an idle thread.
pub(crate) fn turned(mut thread: Thread, seen: Sight) -> Option<(Thread, Step)>
    ensures { elim result [ None ↦ step_after thread seen ≡ None | Some p ↦ (p.0 ≡ thread_after thread seen) × (step_after thread seen ≡ Some p.1) ] }
{
    let step = thread.turn(seen)?;
    Some((thread, step))
}

/// The record once it is taken from the line that its stage's mark says it stands in.
///
/// Who takes holds the spin bit, so a thread that holds it itself is not taken.
pub(crate) fn taken(mut thread: Thread) -> Option<Thread>
    ensures { result ≡ taken_from thread }
{
    let mark = mark_of(thread.stage());
    let effect = match mark.line {
        _ if mark.spin => return None,
        Stands::Nowhere => return None,
        Stands::AtGate => LineEffect::WakeGate,
        Stands::AtCondition => LineEffect::SignalOne,
    };
    thread.wake(effect);
    Some(thread)
}

/// What tells the records of a call apart: the stage, the flag, and whether the outcome is alerted.
#[derive(Clone, Copy, PartialEq, Eq)]
pub struct Place {
    pub stage: Stage,
    pub flag: bool,
    pub alerted: bool,
}

impl Place {
    fn of(thread: Thread) -> Place {
        Place {
            stage: thread.stage(),
            flag: probe::flag(thread),
            alerted: probe::quits(thread),
        }
    }
}

/// A record that was reached, and its place.
#[derive(Clone, Copy)]
pub struct Visit {
    place: Place,
    thread: Thread,
}

impl Visit {
    fn of(thread: Thread) -> Visit {
        Visit {
            place: Place::of(thread),
            thread,
        }
    }
}

/// What stands where a list has no record.
impl Default for Visit {
    fn default() -> Visit {
        Visit::of(Thread::new())
    }
}

// A place for each stage, flag and outcome suffices.
const ROOM: usize = 128;

/// The records reached in one call, no two at one place, and all ways in which a turn sees things. A list, since it is gone
/// through while it grows, and some are looked for by a part of their place.
#[derive(Drop)]
pub struct Reached {
    records: ArrayVec<Visit, ROOM>,
    ways: Cases,
}

impl Reached {
    /// The records of a call.
    pub(crate) fn by(call: Call) -> Result<Reached, Full> {
        let ways = ways()?;
        let mut thread = Thread::new();
        thread.start(call);
        let mut reached = Reached {
            records: ArrayVec::new(),
            ways: Cases::new(),
        };
        reached.note(thread)?;
        // By index, since the list grows on the way.
        for i in 0..ROOM {
            let Some(from) = reached.records.get(i).copied() else {
                break;
            };
            reached.go_on(from.thread, ways.as_slice())?;
        }
        reached.ways = ways;
        Ok(reached)
    }

    // Notes a record, unless its call is finished or there is one at its place.
    fn note(&mut self, thread: Thread) -> Result<(), Full> {
        let visit = Visit::of(thread);
        if !visit.place.stage.is_idle() && self.find(|known| known == visit.place).is_none() {
            self.records.try_push(visit)?;
        }
        Ok(())
    }

    // Notes all that can come next.
    fn go_on(&mut self, from: Thread, ways: &[Case]) -> Result<(), Full> {
        let mut alerted = from;
        alerted.set_alert();
        self.note(alerted)?;
        if let Some(after) = taken(from) {
            self.note(after)?;
        }
        for way in ways {
            // A turn sees neither the flag nor the outcome: they are the record's own.
            if way.has(Thing::Flag) || way.has(Thing::Alerted) {
                continue;
            }
            if let Some((after, _)) = turned(from, sight(from, *way)) {
                self.note(after)?;
            }
        }
        Ok(())
    }

    /// All ways in which a turn can see things.
    pub(crate) fn ways(&self) -> &[Case] {
        self.ways.as_slice()
    }

    /// The first record whose place is as asked.
    pub(crate) fn find<F: Fn(Place) -> bool>(&self, asked: F) -> Option<Thread>
        requires { F.IsAlwaysCallable asked }
    {
        let visit = self.records.iter().find(|visit| asked(visit.place))?;
        Some(visit.thread)
    }
}
