//! Whole runs: a nub is built, performs a list of entries, and is let go.
ghost use Rattle.std.specs.Prelude.{◌≡◌, []};
ghost use Rattle.lines.specs.Choosing.{first_come, ranked};
ghost use Rattle.nub.specs.View.{core_of, lines_of};
ghost use Rattle.embed.specs.Numbers.{asked_of};
ghost use Rattle.embed.specs.Play.{played, Plays, ranks_of};

use crate::numbers::*;
use crate::whole_script::lay;
use lines::first_come::FirstCome;
use lines::ranked::Ranked;
use lines::set::LineSet;
use nub::{Event, Nub, Sizes};

// Performs the entries on a nub, as many as there are places for their answers.
fn perform<L: LineSet>(nub: &mut Nub<L>, entries: &[Entry], answers: &mut [Answer])
    ensures { answers.new ≡ played L.LineSet.kind (core_of nub.old) (L.LineSet.state (lines_of nub.old)) entries.now answers.old }
{
    let n = entries.len().min(answers.len());
    // By index: a proof is told nothing of what is written through `iter_mut` under `zip`.
    for (i, entry) in entries[..n].iter().enumerate() {
        answers[i] = nub.enter(Event::from(*entry)).into();
    }
}

// Builds a nub and performs the entries on it, or gives the number of the decline, as C gets it; with the run theorem about its
// own run.
fn play<L: LineSet + Drop>(
    sizes: Sizes,
    start: u32,
    maker: L::Maker,
    entries: &[Entry],
    answers: &mut [Answer],
) -> u32
where
    L::Maker: Drop,
    ensures { Plays L.LineSet.kind (L.LineSet.fresh maker) sizes start entries.now answers.old result answers.new }
{
    match sizes.check::<L>() {
        Ok(()) => {
            let mut nub = Nub::<L>::make(sizes, start, maker);
            perform(&mut nub, entries, answers);
            0
        }
        Err(decline) => u8::from(decline).into(),
    }
}

// A rank for each thread that ranked lines serve; 0 where none is given.
fn ranks_of(ranks: &[u8]) -> [u8; 32]
    ensures { result ≡ ranks_of ranks.now }
{
    let mut all = [0; 32];
    lay(ranks, &mut all);
    all
}

/// Builds a nub with first-come lines and performs the entries in order, as many as there are places for their answers.
/// Gives 0, or 8 where the build is declined; nothing is performed and no answer is written then.
#[unsafe(no_mangle)]
pub extern "C" fn lishabon_play_first_come(
    asked: &Asked,
    entries: &[Entry],
    answers: &mut [Answer],
) -> u32
    ensures { Plays first_come (tt, []) (asked_of asked.now) asked.now.start entries.now answers.old result answers.new }
{
    play::<FirstCome>(Sizes::from(*asked), asked.start, (), entries, answers)
}

/// The same with ranked lines, by a name of its own for C: thread n has the rank at place n of `ranks`, and 0 where there is no such place.
#[unsafe(no_mangle)]
pub extern "C" fn lishabon_play_ranked(
    asked: &Asked,
    ranks: &[u8],
    entries: &[Entry],
    answers: &mut [Answer],
) -> u32
    ensures { Plays ranked (ranks_of ranks.now, []) (asked_of asked.now) asked.now.start entries.now answers.old result answers.new }
{
    play::<Ranked>(
        Sizes::from(*asked),
        asked.start,
        ranks_of(ranks),
        entries,
        answers,
    )
}
