//! What a turn does outside the acting thread's record, but for signals.
ghost use Rattle.std.specs.Prelude.{◌≡◌, false, slice_index_or};
ghost use Rattle.stages.specs.Calls.{condition_of};
ghost use Rattle.stages.specs.Table.{spin_new};
ghost use Rattle.nub.specs.Places.{gate_line, alerted_of};
ghost use Rattle.nub.specs.Lining.{take_in, who_in};
ghost use Rattle.nub.specs.View.{by_line};
ghost use Rattle.nub.specs.Work.{gated, alert_named, with_threads, with_spin, applied, count_at, joined_in, left_in, one_less, one_of};

use crate::places::Actor;
use crate::{records, table, *};
use lines::set::LineSet;
use stages::step::*;

impl Core {
    /// Whether the call's gate is taken.
    pub(crate) fn bit(&self, by: Actor) -> bool
        ensures { result ≡ by_line false (λ n. slice_index_or self.now.bits n false) (gate_line by.call) }
    {
        by.gate_line()
            .is_some_and(|g| table::at(&self.bits, g, false))
    }

    /// The count of the call's condition.
    pub(crate) fn count(&self, by: Actor) -> u32
        ensures { result ≡ by_line 0 (count_at self.now) (condition_of by.call) }
    {
        by.condition().map_or(0, |c| table::at(&self.counts, c, 0))
    }

    fn set_spin(&mut self, effect: SpinEffect)
        ensures { self.new ≡ with_spin self.old (spin_new effect self.old.spin) }
    {
        match effect {
            SpinEffect::Keep => {}
            SpinEffect::Set => self.spin = true,
            SpinEffect::Clear => self.spin = false,
        }
    }

    // Sets or clears the bit of the call's gate; a mutex gains or loses its owner with it.
    fn set_gate(&mut self, effect: GateEffect, by: Actor)
        ensures { self.new ≡ gated effect by.thread by.call self.old }
    {
        let (bit, owner) = match effect {
            GateEffect::Keep => return,
            GateEffect::Take => (true, Some(by.thread)),
            GateEffect::Free => (false, None),
        };
        if let Some(g) = by.gate_line() {
            table::put(&mut self.bits, g, bit);
        }
        if let Some(m) = by.mutex() {
            table::put(&mut self.owners, m, owner);
        }
    }

    // Sets the flag of the thread that the call alerts.
    fn set_flag(&mut self, effect: FlagEffect, by: Actor)
        ensures { self.new ≡ with_threads self.old (alert_named effect (alerted_of by.call) self.old.threads) }
    {
        if let (FlagEffect::SetNamed, Some(n)) = (effect, by.alerted()) {
            records::alert_at(&mut self.threads, n);
        }
    }

    /// All that a row does but to the lines and to the threads that it takes.
    pub(crate) fn apply(&mut self, step: Step, by: Actor)
        ensures { self.new ≡ applied step by.thread by.call self.old }
    {
        self.set_spin(step.spin);
        self.set_gate(step.gate, by);
        self.set_flag(step.flag, by);
    }
}

/// Takes a member of line `k`, if any.
pub(crate) fn take<L: LineSet>(lines: &mut L, k: usize) -> Option<usize>
    ensures after { L.LineSet.state lines.new ≡ take_in L.LineSet.kind (L.LineSet.state lines.old) k }
    ensures value { result ≡ who_in L.LineSet.kind (L.LineSet.state lines.old) k }
{
    lines.take(k).unwrap_or(None)
}

/// Takes a member of a line, if there is such a line and it has one.
pub(crate) fn take_from<L: LineSet>(lines: &mut L, line: Option<usize>) -> Option<usize>
    ensures after { L.LineSet.state lines.new ≡ one_less L.LineSet.kind line (L.LineSet.state lines.old) }
    ensures value { result ≡ one_of L.LineSet.kind line (L.LineSet.state lines.old) }
{
    take(lines, line?)
}

/// Thread `t` joins a line, if there is one.
pub(crate) fn join<L: LineSet>(lines: &mut L, line: Option<usize>, t: usize)
    ensures { L.LineSet.state lines.new ≡ joined_in L.LineSet.kind line (L.LineSet.state lines.old) t }
{
    if let Some(k) = line {
        let _ = lines.add(k, t);
    }
}

/// Thread `t` leaves a line, if there is one.
pub(crate) fn leave<L: LineSet>(lines: &mut L, line: Option<usize>, t: usize)
    ensures { L.LineSet.state lines.new ≡ left_in L.LineSet.kind line (L.LineSet.state lines.old) t }
{
    if let Some(k) = line {
        let _ = lines.remove(k, t);
    }
}
