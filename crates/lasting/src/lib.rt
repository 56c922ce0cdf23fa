//! How long a ticket lasts: from the submission that is granted to the turn that finishes its call.
#![tactic(auto)]

ghost use Rattle.lasting.specs.Lasting.{BuiltRecorded, StaysRecorded, GrantedAccepted, AcceptedLasts, ComesBack};

use lines::set::LineSet;

/// The ticket of a granted submission is accepted by its next turn, in a nub whose threads have their records; and every nub
/// that is built has them, and keeps them at every submission and turn.
#[tactic(auto, using(crate::proofs::Granting::granted, crate::proofs::Granting::built, crate::proofs::Granting::stays))]
pub fn granted_is_accepted<L: LineSet>()
    ensures accepted { GrantedAccepted }
    ensures built { BuiltRecorded }
    ensures stays { StaysRecorded L.LineSet.kind }
{}

/// A ticket that is accepted is accepted still after any submission or turn of any thread, but for the turn that finishes its
/// call.
#[tactic(auto, using(crate::proofs::Accepting::lasting))]
pub fn accepted_lasts<L: LineSet>()
    ensures { AcceptedLasts L.LineSet.kind }
{}

/// A turn that does not finish the call gives back the same ticket.
#[tactic(auto, using(crate::proofs::Returning::returning))]
pub fn comes_back<C, E, L: LineSet>()
    ensures { ComesBack L.LineSet.kind C E }
{}
