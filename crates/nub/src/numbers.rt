//! The numbers of the declines, the codes of the calls, and results as answers.
ghost use Rattle.std.specs.Prelude.{◌≡◌};
ghost use Rattle.stages.specs.Names.{CallKind, call_no};
ghost use Rattle.nub.specs.Answers.{decline_no, of_submission, of_turn};
ghost use Rattle.nub.specs.Model.{code_kind};

use crate::{Answer, Decline, Report};

/// The code of each call is read as that call.
pub fn codes_agree()
    ensures { (k : CallKind) → code_kind (call_no k) ≡ k }
{}

impl From<Decline> for u8 {
    ghost from_gives = { λ decline n. n ≡ decline_no decline };

    /// The number that stands for it outside.
    fn from(decline: Decline) -> u8 {
        decline as u8
    }
}

impl From<Result<(), Decline>> for Answer {
    ghost from_gives = { λ done answer. answer ≡ of_submission done };

    /// The answer to a submission.
    fn from(done: Result<(), Decline>) -> Answer {
        match done {
            Ok(()) => Answer::Granted,
            Err(decline) => Answer::Declined(decline),
        }
    }
}

// An impl apart: what is granted has another word, and a report.
impl From<Result<Report, Decline>> for Answer {
    ghost from_gives = { λ done answer. answer ≡ of_turn done };

    /// The answer to a turn.
    fn from(done: Result<Report, Decline>) -> Answer {
        match done {
            Ok(report) => Answer::Reported(report),
            Err(decline) => Answer::Declined(decline),
        }
    }
}
