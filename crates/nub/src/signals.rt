//! Wake, Signal and Broadcast: taking threads from a line, and the mask of the freed.
ghost use Rattle.std.specs.Prelude.{◌≡◌, ℕ, ◌<◌, true, false, ◌||◌, length, slice_index_or};
ghost use Rattle.stages.specs.Calls.{condition_of, to_list};
ghost use Rattle.nub.specs.Places.{cond_line};
ghost use Rattle.nub.specs.Lining.{standing, drain_in};
ghost use Rattle.nub.specs.View.{core_of, lines_of};
ghost use Rattle.nub.specs.Model.{signals};
ghost use Rattle.nub.specs.Work.{one_less, one_of, all_less, all_of, worked_in, taken_in, wake_from, with_threads, signalled_on, freed_mask_on};
ghost use Rattle.nub.specs.Marked.{Marks, signalled_marked, mask_marked};

use crate::places::{Actor, condition_line};
use crate::{records, table, work, *};
use lines::set::LineSet;
use stages::step::*;

// Takes a member of a line, if any, and marks it.
fn mark_one<L: LineSet>(lines: &mut L, line: Option<usize>, taken: &mut [bool])
    ensures after { L.LineSet.state lines.new ≡ one_less L.LineSet.kind line (L.LineSet.state lines.old) }
    ensures marks { Marks taken.old taken.new (to_list (one_of L.LineSet.kind line (L.LineSet.state lines.old))) }
{
    if let Some(t) = work::take_from(lines, line) {
        table::put(taken, t, true);
    }
}

// Takes every member of line k, and marks them.
fn mark_line<L: LineSet>(lines: &mut L, k: usize, taken: &mut [bool])
    ensures after { L.LineSet.state lines.new ≡ drain_in L.LineSet.kind (L.LineSet.state lines.old) k }
    ensures marks { Marks taken.old taken.new (standing L.LineSet.kind (L.LineSet.state lines.old) k) }
{
    while let Some(t) = work::take(lines, k) {
        table::put(taken, t, true);
    }
}

// Takes every member of a line, if there is such a line, and marks them.
fn mark_all<L: LineSet>(lines: &mut L, line: Option<usize>, taken: &mut [bool])
    ensures after { L.LineSet.state lines.new ≡ all_less L.LineSet.kind line (L.LineSet.state lines.old) }
    ensures marks { Marks taken.old taken.new (all_of L.LineSet.kind line (L.LineSet.state lines.old)) }
{
    if let Some(k) = line {
        mark_line(lines, k, taken);
    }
}

// Takes from a line what a Signal or a Broadcast takes, and marks it.
fn mark<L: LineSet>(lines: &mut L, effect: LineEffect, line: Option<usize>, taken: &mut [bool])
    requires { signals effect ≡ true }
    ensures after { L.LineSet.state lines.new ≡ worked_in L.LineSet.kind effect line (L.LineSet.state lines.old) 0 }
    ensures marks { Marks taken.old taken.new (taken_in L.LineSet.kind effect line (L.LineSet.state lines.old)) }
{
    match effect {
        LineEffect::SignalAll => mark_all(lines, line, taken),
        _ => mark_one(lines, line, taken),
    }
}

impl Core {
    // Wakes the threads that are marked, counts c up, and gives the mask of the freed.
    fn count_up(&mut self, effect: LineEffect, c: usize, taken: &[bool; 64]) -> u64
        ensures core { self.new ≡ signalled_marked effect c taken.now self.old }
        ensures value { result ≡ mask_marked c taken.now self.old }
        ensures full { length self.old.threads ≡ 64 }
    {
        let old = table::at(&self.counts, c, 0);
        table::put(&mut self.counts, c, old.wrapping_add(1));
        let mask = records::mask(&self.threads, taken, c, old);
        records::wake_marked(&mut self.threads, effect, taken);
        mask
    }
}

impl<L: LineSet> Nub<L> {
    /// Takes from a gate's line, if it has a member.
    #[tactic(auto, using(crate::proofs::Taken::wake_one, crate::proofs::Taken::wake_none))]
    pub(crate) fn wake(&mut self, line: Option<usize>)
        ensures core { core_of self.new ≡ with_threads (core_of self.old) (wake_from LineEffect.WakeGate (to_list (one_of L.LineSet.kind line (L.LineSet.state (lines_of self.old)))) 0 (core_of self.old).threads) }
        ensures lines { L.LineSet.state (lines_of self.new) ≡ one_less L.LineSet.kind line (L.LineSet.state (lines_of self.old)) }
    {
        if let Some(t) = work::take_from(&mut self.lines, line) {
            records::wake_at(&mut self.core.threads, t, LineEffect::WakeGate);
        }
    }

    /// A signal: takes a member of the condition's line, if any, or every member, and frees them and those between that kept
    /// the count.
    pub(crate) fn signal(&mut self, effect: LineEffect, by: Actor) -> u64
        requires { signals effect ≡ true }
        ensures core { core_of self.new ≡ signalled_on effect (condition_of by.call) (taken_in L.LineSet.kind effect (cond_line by.call) (L.LineSet.state (lines_of self.old))) (core_of self.old) }
        ensures lines { L.LineSet.state (lines_of self.new) ≡ worked_in L.LineSet.kind effect (cond_line by.call) (L.LineSet.state (lines_of self.old)) 0 }
        ensures mask { result ≡ freed_mask_on (condition_of by.call) (taken_in L.LineSet.kind effect (cond_line by.call) (L.LineSet.state (lines_of self.old))) (core_of self.old) }
    {
        let Some(c) = by.condition() else {
            return 0;
        };
        let mut taken = [false; 64];
        mark(&mut self.lines, effect, condition_line(c), &mut taken);
        self.core.count_up(effect, c, &taken)
    }
}
