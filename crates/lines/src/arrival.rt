//! One entry of the store of arrivals, and what a store is searched for.
ghost use Rattle.std.specs.Prelude.{◌≡◌, ◌<◌, ◌==◌, not, IfSome, length, position};
ghost use Rattle.std.specs.List.{list_all};
ghost use Rattle.lines.specs.Arrivals.{first_place, place, seen};

/// A thread that stands in a line.
#[derive(Clone, Copy, PartialEq, Eq, Debug, Default)]
pub struct Arrival {
    pub line: usize,
    pub thread: usize,
}

/// The place of the earliest arrival of a line.
#[tactic(auto, unfolding(crate::specs::Arrivals::first_place))]
pub fn first_in(arrivals: &[Arrival], line: usize) -> Option<usize>
    ensures value { result ≡ first_place line arrivals.now }
    ensures within { IfSome result (λ i. i < length arrivals.now) }
{
    arrivals.iter().position(|e| e.line == line)
}

/// The place of the arrival of a thread in a line.
#[tactic(auto, unfolding(crate::specs::Arrivals::place))]
pub fn place_in(arrivals: &[Arrival], line: usize, thread: usize) -> Option<usize>
    ensures value { result ≡ place line thread arrivals.now }
    ensures within { IfSome result (λ i. i < length arrivals.now) }
{
    arrivals
        .iter()
        .position(|e| e.line == line && e.thread == thread)
}

/// Whether no arrival is of a line.
pub fn is_line_empty(arrivals: &[Arrival], line: usize) -> bool
    ensures { result ≡ list_all (λ e. not (e.line == line)) arrivals.now }
{
    arrivals.iter().all(|e| e.line != line)
}

/// Whether a thread stands, in whatever line.
pub fn stands(arrivals: &[Arrival], thread: usize) -> bool
    ensures { result ≡ seen thread arrivals.now }
{
    arrivals.iter().any(|e| e.thread == thread)
}
