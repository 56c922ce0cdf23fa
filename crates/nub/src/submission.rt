//! Submissions: a thread and its call, as such or by a code and two object numbers, checked in the order of the declines.
ghost use Rattle.std.specs.Prelude.{◌≡◌, not, ◌&&◌, Some, None, nat_le};
ghost use Rattle.stages.specs.Names.{counted};
ghost use Rattle.stages.specs.Calls.{request_of, kind_of, is_this};
ghost use Rattle.nub.specs.Answers.{of_submission};
ghost use Rattle.nub.specs.Model.{needs_owner, high_count};
ghost use Rattle.nub.specs.View.{core_of, lines_of};
ghost use Rattle.nub.specs.Work.{count_at, owner_at};
ghost use Rattle.nub.specs.Turn.{call_of, exists_in, submitted_in, verdict_in, answer_in};
ghost use Rattle.nub.specs.Submissions.{of_thread, of_call, begun, submits, result_of, answer_for};

use crate::{records, table, *};
use lines::set::LineSet;
use stages::call::Call;

// The count from which a signal is no longer granted: 64 signals under way cannot wrap it.
const HIGH_COUNT: u32 = 4_294_967_232;

// The call that a code and two objects mean.
fn call_of(sizes: Sizes, code: u32, a: usize, b: usize) -> Result<Call, Decline>
    ensures { result ≡ call_of sizes code a b }
{
    match code {
        0 | 12.. => Err(Decline::NoCode),
        1..=3 | 11 if a >= sizes.mutexes => Err(Decline::NoObject),
        3 | 11 if b >= sizes.conditions => Err(Decline::NoObject),
        4..=5 if a >= sizes.conditions => Err(Decline::NoObject),
        6..=7 | 10 if a >= sizes.semaphores => Err(Decline::NoObject),
        8 if a >= sizes.threads => Err(Decline::NoObject),
        1 => Ok(Call::Acquire(a)),
        2 => Ok(Call::Release(a)),
        3 => Ok(Call::Wait(a, b)),
        4 => Ok(Call::Signal(a)),
        5 => Ok(Call::Broadcast(a)),
        6 => Ok(Call::P(a)),
        7 => Ok(Call::V(a)),
        8 => Ok(Call::Alert(a)),
        9 => Ok(Call::TestAlert),
        10 => Ok(Call::AlertP(a)),
        11 => Ok(Call::AlertWait(a, b)),
    }
}

impl Sizes {
    // Whether the objects of a call exist. `call_of` has the same checks as guards over codes, where there is no call yet.
    fn have(self, call: Call) -> bool
        ensures { result ≡ exists_in self (kind_of (Some call)) (request_of (Some call)).x (request_of (Some call)).y }
    {
        match call {
            Call::Acquire(m) | Call::Release(m) => m < self.mutexes,
            Call::Wait(m, c) | Call::AlertWait(m, c) => m < self.mutexes && c < self.conditions,
            Call::Signal(c) | Call::Broadcast(c) => c < self.conditions,
            Call::P(s) | Call::V(s) | Call::AlertP(s) => s < self.semaphores,
            Call::Alert(t) => t < self.threads,
            Call::TestAlert => true,
        }
    }
}

impl Core {
    // Whether thread t does not own the mutex that the call gives up.
    fn foreign(&self, t: usize, call: Call) -> bool
        ensures { result ≡ (needs_owner (kind_of (Some call)) && not (is_this t (owner_at self.now (request_of (Some call)).x))) }
    {
        match call {
            Call::Release(m) | Call::Wait(m, _) | Call::AlertWait(m, _) => {
                table::at(&self.owners, m, None).is_none_or(|owner| owner != t)
            }
            _ => false,
        }
    }

    // Whether the count that the call raises has no room.
    fn high(&self, call: Call) -> bool
        ensures { result ≡ (counted (kind_of (Some call)) && nat_le high_count (count_at self.now (request_of (Some call)).x)) }
    {
        match call {
            Call::Signal(c) | Call::Broadcast(c) => table::at(&self.counts, c, 0) >= HIGH_COUNT,
            _ => false,
        }
    }

    // Why thread t cannot begin any call.
    fn check_thread(&self, t: usize) -> Result<(), Decline>
        ensures { result ≡ result_of (of_thread self.now t None) }
    {
        if t >= self.sizes.threads {
            return Err(Decline::NoThread);
        }
        if !records::at(&self.threads, t).stage().is_idle() {
            return Err(Decline::UnderWay);
        }
        Ok(())
    }

    // Begins a call of thread t, which has none under way, on objects that exist.
    fn begin(&mut self, t: usize, call: Call) -> Result<(), Decline>
        ensures after { self.new ≡ begun self.old t (Some call) (of_call self.old t (Some call)) }
        ensures answer { result ≡ result_of (of_call self.old t (Some call)) }
    {
        if self.foreign(t, call) {
            return Err(Decline::NotOwner);
        }
        if self.high(call) {
            return Err(Decline::CountHigh);
        }
        records::start_at(&mut self.threads, t, call);
        Ok(())
    }

    fn submit(&mut self, t: usize, code: u32, a: usize, b: usize) -> Result<(), Decline>
        ensures core { self.new ≡ submitted_in self.old t code a b }
        ensures answer { result ≡ result_of (verdict_in self.old t code a b) }
    {
        self.check_thread(t)?;
        let call = call_of(self.sizes, code, a, b)?;
        self.begin(t, call)
    }

    fn submit_call(&mut self, t: usize, call: Call) -> Result<(), Decline>
        ensures core { self.new ≡ submits self.old t call }
        ensures answer { result ≡ answer_for self.old t call }
    {
        self.check_thread(t)?;
        if !self.sizes.have(call) {
            return Err(Decline::NoObject);
        }
        self.begin(t, call)
    }
}

impl<L: LineSet> Nub<L> {
    /// A submission of thread `t`: the call with the code `code` and the objects `a` and `b`, of which those that the call has
    /// no use for are ignored. A decline alters nothing.
    #[tactic(auto, using(crate::proofs::Submitted::answer_of))]
    pub fn submit(&mut self, t: usize, code: u32, a: usize, b: usize) -> Result<(), Decline>
        ensures core { core_of self.new ≡ submitted_in (core_of self.old) t code a b }
        ensures lines { lines_of self.new ≡ lines_of self.old }
        ensures answer { of_submission result ≡ answer_in (verdict_in (core_of self.old) t code a b) }
    {
        self.core.submit(t, code, a, b)
    }

    /// The same with the call itself, which answers and leaves what its code and its objects would.
    pub fn submit_call(&mut self, t: usize, call: Call) -> Result<(), Decline>
        ensures core { core_of self.new ≡ submits (core_of self.old) t call }
        ensures lines { lines_of self.new ≡ lines_of self.old }
        ensures answer { result ≡ answer_for (core_of self.old) t call }
    {
        self.core.submit_call(t, call)
    }
}
