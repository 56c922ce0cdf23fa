//! Lines whose take gives the member of the highest rank.
ghost use Rattle.std.specs.Prelude.{◌≡◌, ℕ, ◌<◌, true, List, [], length, Some, MatchOption};
ghost use Rattle.lines.specs.Arrivals.{members, sound, Chosen};
ghost use Rattle.lines.specs.Ranking.{best, pick, beats};
ghost use Rattle.lines.specs.Highest.{RankedTakesHighest};
ghost use Rattle.lines.specs.Choosing.{ranked};
ghost use Rattle.lines.specs.Lawful.{choosing_laws, sound_members, ranked_serves, ranked_empty};
ghost use Rattle.lines.specs.Best.{best_picks};

use crate::arrival::Arrival;
use crate::choice::Choice;
use crate::decline::Decline;
use crate::set::LineSet;
use crate::waiting::Waiting;

/// Chooses the member of the highest rank, and among equals the lowest thread number. Each thread has a fixed rank of 0 to
/// 255.
#[derive(Drop)]
pub struct Highest {
    ranks: [u8; 32],
    ghost whole: { length ranks ≡ 32 },
}

impl Highest {
    // Whether thread `a` goes before thread `b`.
    fn goes_before(&self, a: usize, b: usize) -> bool
        requires a_served { a < 32 }
        requires b_served { b < 32 }
        ensures { result ≡ beats self.now.ranks a b }
    {
        (self.ranks[b], a) < (self.ranks[a], b)
    }

    // The place whose thread goes first: the best so far, or `i`.
    #[tactic(auto, using(crate::specs::Facts::served_at))]
    fn better(&self, arrivals: &[Arrival], so_far: Option<usize>, i: usize) -> usize
        requires sound { sound 32 arrivals.now ≡ true }
        requires within { i < length arrivals.now }
        requires there { MatchOption so_far (Unit {0}) (λ b. b < length arrivals.now) }
        ensures { Some result ≡ pick self.now.ranks arrivals.now so_far i }
    {
        match so_far {
            Some(b) if !self.goes_before(arrivals[i].thread, arrivals[b].thread) => b,
            _ => i,
        }
    }
}

impl Choice<32> for Highest {
    type Maker = [u8; 32];

    ghost from = { λ s. s.ranks };

    ghost choose = { best };

    ghost picks = { best_picks };

    ghost serving = { ranked_serves };

    fn make(ranks: [u8; 32]) -> Self {
        Highest { ranks }
    }

    #[tactic(auto, using(crate::specs::Best::best_more, crate::specs::Best::best_skip))]
    fn place(&self, arrivals: &[Arrival], line: usize) -> Option<usize> {
        let mut so_far = None;
        for (i, e) in arrivals.iter().enumerate() {
            if e.line == line {
                so_far = Some(self.better(arrivals, so_far, i));
            }
        }
        so_far
    }
}

/// Lines for 32 threads, each with a fixed rank of 0 to 255.
///
/// A take gives the member of the highest rank, and among equals the lowest thread number.
pub type Ranked = Waiting<Highest, 32>;

impl LineSet for Ranked {
    const SERVES: usize = 32;

    type Maker = [u8; 32];

    ghost kind = { ranked };

    ghost state = { λ s. (s.choice.ranks, s.arrivals.items) };

    ghost fresh = { λ ranks. (ranks, []) };

    ghost lawful = { choosing_laws 32 (List ℕ) best best_picks };

    ghost sound = { λ s. sound_members 32 s.arrivals.items s.apart };

    ghost serving = { ranked_serves };

    ghost new = { λ ranks l. ranked_empty ranks l };

    fn limit() -> usize {
        Self::SERVES
    }

    fn make(ranks: [u8; 32]) -> Self {
        Waiting::made(ranks)
    }

    fn add(&mut self, line: usize, thread: usize) -> Result<(), Decline> {
        self.join(line, thread)
    }

    fn take(&mut self, line: usize) -> Result<Option<usize>, Decline> {
        self.take_chosen(line)
    }

    fn remove(&mut self, line: usize, thread: usize) -> Result<(), Decline> {
        self.leave(line, thread)
    }

    fn is_empty(&self, line: usize) -> Result<bool, Decline> {
        self.has_none(line)
    }
}

/// States whom a ranked line takes, whatever its members and their ranks are.
///
/// It takes nobody exactly if it is empty, and `t` exactly if `t` is a member and every other member
/// has a lower rank, or an equal one and a higher number.
pub fn takes_highest()
    ensures { RankedTakesHighest }
{}
