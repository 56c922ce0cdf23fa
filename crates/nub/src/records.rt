//! The table of thread records: one record lent at a time, and loops over the slice of them.
//! A record is lent by index: a proof is told nothing of what is written through the `get_mut` of a slice. Each use has a
//! function of its own: one that lends a record to a closure would leave it to its callers to state what that makes of it.
ghost use Rattle.std.specs.Prelude.{◌≡◌, ◌<◌, ◌≤◌, false, ◌&&◌, ◌||◌, length, get_or, Some, ◌==◌, slice_index_or, slice_set};
ghost use Rattle.thread.specs.Turns.{idle_thread, state_of, thread_after, step_after, started, between_on, woken_thread, flagged};
ghost use Rattle.nub.specs.Model.{mask_of};
ghost use Rattle.nub.specs.Marked.{wake_marked};

use crate::table;
use stages::call::Call;
use stages::stage::Stage;
use stages::step::*;
use thread::record::Thread;

/// The record of thread `t`; an idle one where there is no such record.
pub(crate) fn at(threads: &[Thread], t: usize) -> Thread
    ensures { result ≡ slice_index_or threads.now t idle_thread }
{
    table::at(threads, t, Thread::new())
}

/// The call of thread `t` begins.
pub(crate) fn start_at(threads: &mut [Thread], t: usize, call: Call)
    ensures { threads.new ≡ slice_set threads.old t (started (Some call) (slice_index_or threads.old t idle_thread)) }
{
    if t < threads.len() {
        threads[t].start(call);
    }
}

/// Thread `t`'s own record in its turn, lent; none where there is no such record.
pub(crate) fn step_at(threads: &mut [Thread], t: usize, seen: Sight) -> Option<Step>
    ensures after { threads.new ≡ slice_set threads.old t (thread_after (slice_index_or threads.old t idle_thread) seen) }
    ensures value { result ≡ step_after (slice_index_or threads.old t idle_thread) seen }
{
    if t < threads.len() {
        threads[t].turn(seen)
    } else {
        None
    }
}

/// Thread `n`'s alert flag is set.
pub(crate) fn alert_at(threads: &mut [Thread], n: usize)
    ensures { threads.new ≡ slice_set threads.old n (flagged (slice_index_or threads.old n idle_thread)) }
{
    if n < threads.len() {
        threads[n].set_alert();
    }
}

/// Thread `n` was taken from a line.
pub(crate) fn wake_at(threads: &mut [Thread], n: usize, effect: LineEffect)
    ensures { threads.new ≡ slice_set threads.old n (woken_thread effect (slice_index_or threads.old n idle_thread)) }
{
    if n < threads.len() {
        threads[n].wake(effect);
    }
}

/// The marked threads were taken from a line.
pub(crate) fn wake_marked(threads: &mut [Thread], effect: LineEffect, taken: &[bool])
    requires { length taken.now ≡ length threads.old }
    ensures { threads.new ≡ wake_marked effect taken.now threads.old }
{
    for (n, thread) in threads.iter_mut().enumerate() {
        if taken[n] {
            thread.wake(effect);
        }
    }
}

/// The mask of the freed: those taken, and those between on c that kept the old count.
pub(crate) fn mask(threads: &[Thread], taken: &[bool], c: usize, old: u32) -> u64
    requires threads_len_bound { length threads.now ≤ 64 }
    requires taken_len { length taken.now ≡ length threads.now }
    ensures { result ≡ mask_of (λ n. slice_index_or taken.now n false || (between_on (state_of (slice_index_or threads.now n idle_thread)) c && (get_or threads.now n idle_thread).kept == old)) (length threads.now) }
{
    let mut mask = 0;
    for (n, thread) in threads.iter().enumerate() {
        if taken[n] || thread.is_between(c, old) {
            mask |= 1 << n;
        }
    }
    mask
}
