//! Build: a check, then a making.
ghost use Rattle.std.specs.Prelude.{◌≡◌};
ghost use Rattle.nub.specs.Build.{sizes_verdict, built_sizes, built_core};
ghost use Rattle.nub.specs.View.{core_of, lines_of};

use crate::*;
use lines::set::LineSet;

// The sizes of the least nub: one thread and no objects.
const LEAST: Sizes = Sizes {
    threads: 1,
    mutexes: 0,
    conditions: 0,
    semaphores: 0,
};

impl Sizes {
    /// Whether there can be a nub of these sizes over lines of the kind `L`: at least one thread, no more threads than
    /// the lines serve, and at most sixteen of each kind of object.
    pub fn check<L: LineSet>(self) -> Result<(), Decline>
        ensures { result ≡ sizes_verdict L.LineSet.kind.serves self }
    {
        if 1 <= self.threads
            && self.threads <= L::limit()
            && self.mutexes <= 16
            && self.conditions <= 16
            && self.semaphores <= 16
        {
            Ok(())
        } else {
            Err(Decline::WrongSize)
        }
    }

    // These sizes, or the least where there can be no such nub.
    fn or_least<L: LineSet>(self) -> Sizes
        ensures { result ≡ built_sizes L.LineSet.kind.serves self }
    {
        if self.check::<L>().is_ok() {
            self
        } else {
            LEAST
        }
    }
}

impl Core {
    fn new(sizes: Sizes, start: u32) -> Core
        ensures { result ≡ built_core sizes start }
    {
        Core {
            spin: false,
            threads: [Thread::new(); 64],
            bits: [false; 32],
            owners: [None; 16],
            counts: [start; 16],
            sizes,
        }
    }
}

impl<L: LineSet> Nub<L> {
    /// A new nub of these sizes, whose conditions begin at the count `start`. Where the check declines the sizes, it has one
    /// thread and no objects.
    // No struct of the three parameters: the check takes the sizes alone, and first-come lines are made from nothing.
    pub fn make(sizes: Sizes, start: u32, maker: L::Maker) -> Nub<L>
        ensures core { core_of result ≡ built_core (built_sizes L.LineSet.kind.serves sizes) start }
        ensures lines { L.LineSet.state (lines_of result) ≡ L.LineSet.fresh maker }
    {
        Nub {
            core: Core::new(sizes.or_least::<L>(), start),
            lines: L::make(maker),
        }
    }
}
