//! What holds of the numbers of every line, as a promise that the check must prove.
ghost use Rattle.tokens.specs.Laws.{ReadsRight};
ghost use Rattle.tokens.specs.Faults.{TellsRight};

/// Numbers are read right, and the column of a fault is that of the leftmost.
#[tactic(auto, using(crate::proofs::Right::reads_right, crate::proofs::Telling::tells_right))]
pub fn laws_hold()
    ensures reads { ReadsRight }
    ensures tells { TellsRight }
{}
