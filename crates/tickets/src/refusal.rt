//! Why a ticket or a hold is refused, and what comes back with the refusal.
ghost use Rattle.std.specs.Prelude.{◌≡◌};
ghost use Rattle.tickets.specs.Refusals.{refusal_no};
ghost use Rattle.tickets.specs.declared.refusal.Refusal.TheVariants as refusal;

use nub::Decline;

/// Why a submission, or a turn on a ticket, is refused.
#[derive(Clone, Copy, PartialEq, Eq, Debug)]
pub enum Refusal {
    /// The nub declines it.
    Declined(Decline),
    /// The call and objects under way are not the ticket's.
    OtherCall,
}

/// What was passed, unchanged, and why it was refused.
pub struct Back<T> {
    pub back: T,
    pub why: Refusal,
}

impl From<Decline> for Refusal {
    ghost from_gives = { λ why refused. refused ≡ refusal.Declined why };

    fn from(why: Decline) -> Refusal {
        Refusal::Declined(why)
    }
}

impl From<Refusal> for u8 {
    ghost from_gives = { λ why n. n ≡ refusal_no why };

    /// The number that stands for it outside: the nub's own for what the nub declines, and 9 for another call.
    fn from(why: Refusal) -> u8 {
        match why {
            Refusal::Declined(decline) => decline.into(),
            Refusal::OtherCall => 9,
        }
    }
}
