//! Whom a take chooses, which is all in which the kinds of lines differ.
ghost use Rattle.std.specs.Prelude.{◌≡◌, ℕ, ◌≤◌, true, List, Option};
ghost use Rattle.lines.specs.Kinds.{Picks};
ghost use Rattle.lines.specs.Arrivals.{members, sound, Chosen};

use crate::arrival::Arrival;

/// A choice among the members of a line, in a set that serves `N` threads.
pub trait Choice<const N: usize>: Sized + Drop {
    /// What the choice is made from.
    type Maker;

    // What the choice was made from.
    ghost from: { Self → Self.Maker };

    // Whom it chooses among the members of a line, given in order of arrival.
    ghost choose: { Self.Maker → List ℕ → Option ℕ };

    /// The choice that goes by `maker`.
    fn make(maker: Self::Maker) -> Self
        ensures { from result ≡ maker };

    /// The place of the chosen member of a line among the arrivals, if the line has any.
    // `sound` is asked here, since a slice has no invariant; the set that passes its own keeps it by one.
    fn place(&self, arrivals: &[Arrival], line: usize) -> Option<usize>
        requires { sound N arrivals.now ≡ true }
        ensures { Chosen arrivals.now line (choose (from self.now) (members arrivals.now line)) result };

    // It chooses a member, and none exactly where the line is empty.
    ghost picks: { (maker : Self.Maker) (ts : List ℕ) → Picks (choose maker ts) ts };

    // A set serves a thread, and no more than a nub can have.
    ghost serving: { (1 ≤ N) × (N ≤ 64) };
}
