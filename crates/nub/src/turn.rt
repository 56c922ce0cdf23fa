//! Turns of a nub over lines of any kind, and entries of a run.
ghost use Rattle.std.specs.Prelude.{◌≡◌, []};
ghost use Rattle.stages.specs.Calls.{is_empty};
ghost use Rattle.nub.specs.Answers.{of_turn};
ghost use Rattle.nub.specs.View.{core_of, lines_of, by_line};
ghost use Rattle.nub.specs.Work.{served, performed};
ghost use Rattle.nub.specs.Turn.{sight, turned, moves};

use crate::places::Actor;
use crate::{records, work, *};
use lines::set::LineSet;
use stages::stage::Stage;
use stages::step::*;

// Whether a line, if there is one, has no member.
fn none_in<L: LineSet>(lines: &L, line: Option<usize>) -> bool
    ensures { result ≡ is_empty (by_line [] (L.LineSet.kind.line (L.LineSet.state lines.now)) line) }
{
    line.is_none_or(|l| lines.is_empty(l).unwrap_or(true))
}

impl<L: LineSet> Nub<L> {
    // What a turn at this stage, in its call, looks at.
    fn look(&self, stage: Stage, by: Actor) -> Sight
        ensures { result ≡ sight L.LineSet.kind (core_of self.now) (L.LineSet.state (lines_of self.now)) stage by.call }
    {
        let bit = stage.reads_bit() && self.core.bit(by);
        let empty = stage.reads_line() && none_in(&self.lines, by.gate_line());
        let count = if stage.reads_count() {
            self.core.count(by)
        } else {
            0
        };
        Sight {
            spin: self.core.spin,
            bit,
            empty,
            count,
        }
    }

    // What a row does to its line and to those that it takes; gives the freed mask.
    fn serve(&mut self, effect: LineEffect, by: Actor) -> u64
        ensures core { core_of self.new ≡ (served L.LineSet.kind effect by.thread by.call (core_of self.old) (L.LineSet.state (lines_of self.old))).core }
        ensures lines { L.LineSet.state (lines_of self.new) ≡ (served L.LineSet.kind effect by.thread by.call (core_of self.old) (L.LineSet.state (lines_of self.old))).lines }
        ensures mask { result ≡ (served L.LineSet.kind effect by.thread by.call (core_of self.old) (L.LineSet.state (lines_of self.old))).mask }
    {
        match effect {
            LineEffect::Keep => 0,
            LineEffect::JoinGate => {
                work::join(&mut self.lines, by.gate_line(), by.thread);
                0
            }
            LineEffect::LeaveGate => {
                work::leave(&mut self.lines, by.gate_line(), by.thread);
                0
            }
            LineEffect::JoinCondition => {
                work::join(&mut self.lines, by.condition_line(), by.thread);
                0
            }
            LineEffect::LeaveCondition => {
                work::leave(&mut self.lines, by.condition_line(), by.thread);
                0
            }
            LineEffect::WakeGate => {
                self.wake(by.gate_line());
                0
            }
            LineEffect::SignalOne | LineEffect::SignalAll => self.signal(effect, by),
        }
    }

    // Does what a turn does besides changing the thread's record, and gives the freed mask.
    fn perform(&mut self, by: Actor, step: Step) -> u64
        ensures core { core_of self.new ≡ (performed L.LineSet.kind step by.thread by.call (core_of self.old) (L.LineSet.state (lines_of self.old))).core }
        ensures lines { L.LineSet.state (lines_of self.new) ≡ (performed L.LineSet.kind step by.thread by.call (core_of self.old) (L.LineSet.state (lines_of self.old))).lines }
        ensures mask { result ≡ (performed L.LineSet.kind step by.thread by.call (core_of self.old) (L.LineSet.state (lines_of self.old))).mask }
    {
        self.core.apply(step, by);
        self.serve(step.line, by)
    }

    /// A turn of thread `t`. A decline alters nothing.
    pub fn turn(&mut self, t: usize) -> Result<Report, Decline>
        ensures core { core_of self.new ≡ (turned L.LineSet.kind (core_of self.old) (L.LineSet.state (lines_of self.old)) t).core }
        ensures lines { L.LineSet.state (lines_of self.new) ≡ (turned L.LineSet.kind (core_of self.old) (L.LineSet.state (lines_of self.old)) t).lines }
        ensures answer { of_turn result ≡ (turned L.LineSet.kind (core_of self.old) (L.LineSet.state (lines_of self.old)) t).answer }
    {
        if t >= self.core.sizes.threads {
            return Err(Decline::NoThread);
        }
        let thread = records::at(&self.core.threads, t);
        let by = Actor {
            thread: t,
            call: thread.call(),
        };
        let seen = self.look(thread.stage(), by);
        let step = records::step_at(&mut self.core.threads, t, seen).ok_or(Decline::IdleThread)?;
        let mask = self.perform(by, step);
        Ok(Report {
            status: step.status,
            value: step.value,
            action: step.action,
            mask,
        })
    }

    /// One entry of a run.
    pub fn enter(&mut self, event: Event) -> Answer
        ensures core { core_of self.new ≡ (moves L.LineSet.kind (core_of self.old) (L.LineSet.state (lines_of self.old)) event).core }
        ensures lines { L.LineSet.state (lines_of self.new) ≡ (moves L.LineSet.kind (core_of self.old) (L.LineSet.state (lines_of self.old)) event).lines }
        ensures answer { result ≡ (moves L.LineSet.kind (core_of self.old) (L.LineSet.state (lines_of self.old)) event).answer }
    {
        match event {
            Event::Submission(t, code, a, b) => self.submit(t, code, a, b).into(),
            Event::Turn(t) => self.turn(t).into(),
        }
    }
}
