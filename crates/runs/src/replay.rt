//! A whole run: build, then each entry in turn.
ghost use Rattle.std.specs.Prelude.{◌≡◌, [], ◌∷◌, ◌++◌, IfOk, OnOk};
ghost use Rattle.nub.specs.Build.{built_sizes, built_core};
ghost use Rattle.nub.specs.View.{core_of, lines_of};
ghost use Rattle.nub.specs.Turn.{moves};
ghost use Rattle.runs.specs.Granted.{AllGranted};
ghost use Rattle.runs.specs.Replay.{Conformed, ran};

use lines::set::LineSet;
use nub::{Answer, Event, Nub, Sizes};
use std::alloc::{AllocError, Global};

/// The answers of a run, and the nub that it leaves.
#[derive(Drop)]
pub struct Replayed<L> {
    pub answers: Vec<Answer>,
    pub nub: Nub<L>,
}

// One entry: the nub does it, and its answer comes last.
fn enter_one<L: LineSet>(
    nub: &mut Nub<L>,
    event: Event,
    answers: &mut Vec<Answer>,
) -> Result<(), AllocError>
    ensures core { core_of nub.new ≡ (moves L.LineSet.kind (core_of nub.old) (L.LineSet.state (lines_of nub.old)) event).core }
    ensures lines { L.LineSet.state (lines_of nub.new) ≡ (moves L.LineSet.kind (core_of nub.old) (L.LineSet.state (lines_of nub.old)) event).lines }
    ensures answer { OnOk result (answers.new.items ≡ answers.old.items ++ ((moves L.LineSet.kind (core_of nub.old) (L.LineSet.state (lines_of nub.old)) event).answer ∷ [])) }
{
    let answer = nub.enter(event);
    answers.push(answer)?;
    Ok(())
}

/// Makes a nub, performs a list of entries on it, and hands back their answers and the nub.
///
/// Whatever the sizes and the entries are, the run conforms (`run`), its answers and its nub are those of the tables
/// (`tables`), and along it no operation on a line was refused and no count wrapped (`granted`). Want of memory for the
/// answers is the one other result.
pub fn replay<L: LineSet + Drop>(
    heap: Global,
    sizes: Sizes,
    start: u32,
    maker: L::Maker,
    events: &[Event],
) -> Result<Replayed<L>, AllocError>
    ensures run { IfOk result (λ v. Conformed L.LineSet.kind events.now v.answers.items (core_of v.nub) (L.LineSet.state (lines_of v.nub))) }
    ensures tables { IfOk result (λ v. ran L.LineSet.kind (built_core (built_sizes L.LineSet.kind.serves sizes) start) (L.LineSet.fresh maker) events.now ≡ record { answers = v.answers.items; core = core_of v.nub; lines = L.LineSet.state (lines_of v.nub) }) }
    ensures granted { AllGranted L.LineSet.kind (built_core (built_sizes L.LineSet.kind.serves sizes) start) (L.LineSet.fresh maker) events.now }
{
    let mut nub = Nub::<L>::make(sizes, start, maker);
    let mut answers = Vec::new(heap);
    for event in events {
        enter_one(&mut nub, *event, &mut answers)?;
    }
    Ok(Replayed { answers, nub })
}
