//! A nub over each kind of lines, as the machine of a script.
ghost use Rattle.std.specs.Prelude.{◌≡◌};
ghost use Rattle.script.specs.OneNub.{now_of, asked, in_numbers, nub_over};
ghost use Rattle.script.specs.Kinds.{ranks};

use lines::first_come::FirstCome;
use lines::ranked::Ranked;
use lines::set::LineSet;
use nub::{Nub, Sizes};
use stages::action::Action;
use text::answer::Report;
use text::machine::Machine;

/// Lines of a kind that a script's nubs run on.
pub trait Scripted: LineSet {
    // What the lines of a new nub are made from.
    ghost made_from: { Self.Maker };

    /// What the lines of a new nub are made from.
    fn maker() -> Self::Maker
        ensures { result ≡ made_from };
}

impl Scripted for FirstCome {
    ghost made_from = { tt };

    fn maker() {}
}

impl Scripted for Ranked {
    ghost made_from = { ranks };

    // Rank n for thread n.
    fn maker() -> [u8; 32] {
        std::array::from_fn(|thread| thread as u8)
    }
}

/// A nub over lines of the kind `L`.
#[derive(Drop)]
pub struct On<L> {
    nub: Nub<L>,
}

// The sizes that a building line asks for; its fifth number is the start count. No `From`: neither type is this crate's.
fn sizes_of(numbers: [u32; 5]) -> Sizes
    ensures { result ≡ asked numbers }
{
    Sizes {
        threads: numbers[0] as usize,
        mutexes: numbers[1] as usize,
        conditions: numbers[2] as usize,
        semaphores: numbers[3] as usize,
    }
}

// A report of the nub, in numbers. No `From`: neither type is this crate's.
fn in_numbers(report: nub::Report) -> Report
    ensures { result ≡ in_numbers report }
{
    Report {
        status: u8::from(report.status),
        value: report.value,
        action: Action::number(report.action),
        mask: report.mask,
    }
}

impl<L: Scripted> Machine for On<L> {
    ghost model = { nub_over L.LineSet.kind (L.LineSet.fresh L.Scripted.made_from) };

    ghost state = { λ n. now_of L.LineSet.kind L.LineSet.state n.nub };

    fn build(numbers: [u32; 5]) -> Result<Self, u8> {
        let sizes = sizes_of(numbers);
        sizes.check::<L>()?;
        Ok(On {
            nub: Nub::make(sizes, numbers[4], L::maker()),
        })
    }

    fn submit(&mut self, call: [u32; 4]) -> Result<(), u8> {
        self.nub.submit(
            call[0] as usize,
            call[1],
            call[2] as usize,
            call[3] as usize,
        )?;
        Ok(())
    }

    fn turn(&mut self, thread: u32) -> Result<Report, u8> {
        let report = self.nub.turn(thread as usize)?;
        Ok(in_numbers(report))
    }
}
