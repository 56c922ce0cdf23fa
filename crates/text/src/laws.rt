//! What holds of every script, as a promise that the check must prove.
ghost use Rattle.text.specs.Both.{both};
ghost use Rattle.text.specs.Laws.{CutAtEnds, GoesOn};

use crate::machine::Machine;

/// Inputs are cut at their ends, and a script goes on after each line as if it began there.
#[tactic(auto, using(crate::proofs::Lawful::cut_at_ends, crate::proofs::Lawful::goes_on))]
pub fn laws_hold<A: Machine, B: Machine>()
    ensures cuts { CutAtEnds }
    ensures follows { GoesOn (both A.Machine.model B.Machine.model) }
{}
