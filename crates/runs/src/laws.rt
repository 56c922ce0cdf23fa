//! The theorem as laws over the definitions: the functions do nothing, and their contracts are the laws.
ghost use Rattle.runs.specs.Runs.{RunsConform};
ghost use Rattle.runs.specs.Replay.{RunsOver};
ghost use Rattle.runs.specs.Cases.{CasesHold};

use lines::set::LineSet;

/// Every run by the rules conforms, whoever is taken at each take.
#[tactic(auto, using(crate::proofs::Main::runs_conform))]
pub fn runs_conform()
    ensures { RunsConform }
{}

/// Every run of a nub over lines of the kind `L` conforms, on every build.
pub fn runs_over<L: LineSet>()
    ensures { RunsOver L.LineSet.kind }
{}

/// The worked cases, each alone on a new nub.
pub fn cases_hold()
    ensures { CasesHold }
{}
