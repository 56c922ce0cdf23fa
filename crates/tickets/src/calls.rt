//! The calls that a ticket can be for, and what each gives when it has finished: a hold, or nothing.
ghost use Rattle.std.specs.Prelude.{◌≡◌, ℕ, Option as Maybe};
ghost use Rattle.stages.specs.declared.call.Call.{Call as NubCall};
ghost use Rattle.tickets.specs.declared.hold.Hold.{Hold as AHold};
ghost use Rattle.tickets.specs.Ends.{hold_of};

pub mod holding;
pub mod plain;

use crate::hold::Hold;
use stages::call::Call;

mod sealed {
    /// What only the calls of this crate and their ends are.
    pub trait Sealed {}
}

/// That a thread has finished its call. Only the turn on a ticket that finishes it makes one.
#[derive(Drop)]
pub struct Finished {
    pub(crate) thread: usize,
}

/// What a finished call gives, besides the report: nothing, or a hold.
pub trait Ending: sealed::Sealed {
    // What a call gives to a thread.
    ghost gives: { NubCall → ℕ → Self };

    // The hold in it, if any.
    ghost held: { Self → Maybe AHold };

    /// What a call that ends so gives to the thread that has finished it.
    fn of(call: Call, by: Finished) -> Self
        requires { held (gives call by.thread) ≡ hold_of call by.thread }
        ensures { result ≡ gives call by.thread };
}

// The eleven are written out: no macro may write an `impl`, and each says only what is its own.
/// A call that a ticket can be for. Only the eleven calls of this crate are.
pub trait Ticketed: sealed::Sealed + Copy {
    /// What the call gives when it has finished, besides the report.
    type End: Ending;

    // The call with its objects.
    ghost under: { Self → NubCall };

    /// The call with its objects.
    fn call(self) -> Call
        ensures { result ≡ under self };

    // It gives a hold exactly where the table of ends says so, and of that mutex.
    ghost ends: { (c : Self) (t : ℕ) → Self.End.held (Self.End.gives (under c) t) ≡ hold_of (under c) t };
}

/// A call that needs no hold. Anyone may make values of these.
pub trait Free: Ticketed {}

/// A call that uses a hold up. Only a hold makes values of these.
pub trait Spending: Ticketed {
    /// What the call names besides the mutex: a condition, or nothing.
    type With;

    // The call of the hold's mutex.
    ghost made: { AHold → Self.With → Self };

    /// The call of the hold's mutex.
    fn of(hold: &Hold, with: Self::With) -> Self
        ensures { result ≡ made hold.now with };
}
