//! Sets of lines that keep one store of arrivals, whatever the choice of a take.
ghost use Rattle.std.specs.Prelude.{◌≡◌, ◌<◌, ◌≤◌, true, [], ◌∷◌, ◌++◌, length, take, slice_set, slice_index_or, is_some, IfSome, remove};
ghost use Rattle.lines.specs.Lines.{has, add_answer, remove_answer, take_answer, empty_answer, every_answer, after, marked};
ghost use Rattle.lines.specs.Arrivals.{arrival, members, others, quit, sound};
ghost use Rattle.lines.specs.Choosing.{left_by};

use crate::arrival::{Arrival, is_line_empty, place_in, stands};
use crate::choice::Choice;
use crate::decline::Decline;
use crate::set::LINES;
use arrayvec::ArrayVec;

/// Lines for `N` threads. A take gives the member that the choice says.
///
/// The arrivals stand in order, whatever their line. Every search ends with the last of them: its cost is that of the
/// threads that stand, not of the threads that are served. They lie in the set itself, since the core has no heap. Since
/// each thread below `N` stands at most once, there is always room for one more.
#[derive(Drop)]
pub struct Waiting<C, const N: usize> {
    choice: C,
    arrivals: ArrayVec<Arrival, N>,
    ghost apart: { sound N arrivals.items ≡ true },
}

// Each kind has an `impl LineSet` of its own, which goes on to these: one for all kinds knows `SERVES` only by a ghost member
// of the trait, and that member would be asked of whoever writes a kind. They are public for a kind by a choice of one's own.
impl<C: Choice<N>, const N: usize> Waiting<C, N> {
    /// The set that takes by what `maker` makes; all its lines are empty.
    pub fn made(maker: C::Maker) -> Self
        ensures choice { C.from result.choice ≡ maker }
        ensures after { result.arrivals.items ≡ [] }
    {
        Waiting {
            choice: C::make(maker),
            arrivals: ArrayVec::new(),
        }
    }

    /// Takes the member that the choice says out of a line.
    #[tactic(auto, using(crate::proofs::Granted::taken_left, crate::proofs::Granted::sound_removed))]
    pub fn take_chosen(&mut self, line: usize) -> Result<Option<usize>, Decline>
        ensures answer { result ≡ take_answer (λ l. C.choose (C.from self.old.choice) (members self.old.arrivals.items l)) line }
        ensures after { self.new.arrivals.items ≡ after result (left_by (C.choose (C.from self.old.choice) (members self.old.arrivals.items line)) line self.old.arrivals.items) self.old.arrivals.items }
        ensures choice { self.new.choice ≡ self.old.choice }
    {
        check_line(line)?;
        match self.choice.place(self.arrivals.as_slice(), line) {
            Some(i) => Ok(Some(take_out(&mut self.arrivals, i).thread)),
            None => Ok(None),
        }
    }

    /// Takes every member out of a line in one pass, and marks each at its number; one past the end of the marks is taken
    /// without a mark.
    #[tactic(auto, using(crate::proofs::Emptying::sound_others))]
    pub fn take_every(&mut self, line: usize, taken: &mut [bool]) -> Result<(), Decline>
        ensures answer { result ≡ every_answer line }
        ensures after { self.new.arrivals.items ≡ after result (others line self.old.arrivals.items) self.old.arrivals.items }
        ensures marks { taken.new ≡ after result (marked (members self.old.arrivals.items line) taken.old) taken.old }
        ensures choice { self.new.choice ≡ self.old.choice }
    {
        check_line(line)?;
        take_line(&mut self.arrivals, line, taken);
        Ok(())
    }
}

impl<C, const N: usize> Waiting<C, N> {
    /// Lets a thread come to a line, or says why not.
    #[tactic(auto, using(crate::proofs::Standing::stands_seen, crate::proofs::Leaving::room, crate::proofs::Leaving::sound_push))]
    pub fn join(&mut self, line: usize, thread: usize) -> Result<(), Decline>
        ensures answer { result ≡ add_answer N (members self.old.arrivals.items) line thread }
        ensures after { self.new.arrivals.items ≡ after result (self.old.arrivals.items ++ arrival line thread ∷ []) self.old.arrivals.items }
        ensures choice { self.new.choice ≡ self.old.choice }
    {
        check_line(line)?;
        if thread >= N {
            return Err(Decline::NotServed);
        }
        if stands(self.arrivals.as_slice(), thread) {
            return Err(Decline::AlreadyInSet);
        }
        self.arrivals.push(Arrival { line, thread });
        Ok(())
    }

    /// Lets a thread leave a line, or says why not.
    #[tactic(auto, using(crate::proofs::Granted::sound_removed))]
    pub fn leave(&mut self, line: usize, thread: usize) -> Result<(), Decline>
        ensures answer { result ≡ remove_answer N (members self.old.arrivals.items) line thread }
        ensures after { self.new.arrivals.items ≡ after result (quit line thread self.old.arrivals.items) self.old.arrivals.items }
        ensures choice { self.new.choice ≡ self.old.choice }
    {
        check_line(line)?;
        if thread >= N {
            return Err(Decline::NotServed);
        }
        // No `ok_or(..)?`: the search does not close the answer of that way out.
        let Some(place) = self.place_of(line, thread) else {
            return Err(Decline::NotInLine);
        };
        take_out(&mut self.arrivals, place);
        Ok(())
    }

    /// Whether a line has no member.
    #[tactic(auto, using(crate::proofs::Placing::none_all))]
    pub fn has_none(&self, line: usize) -> Result<bool, Decline>
        ensures { result ≡ empty_answer (members self.now.arrivals.items) line }
    {
        check_line(line)?;
        Ok(is_line_empty(self.arrivals.as_slice(), line))
    }

    // The place of a thread in a line, if it stands there.
    fn place_of(&self, line: usize, thread: usize) -> Option<usize>
        ensures member { has thread (members self.now.arrivals.items line) ≡ is_some result }
        ensures within { IfSome result (λ i. i < length self.now.arrivals.items) }
        ensures without { IfSome result (λ i. remove self.now.arrivals.items i ≡ quit line thread self.now.arrivals.items) }
    {
        place_in(self.arrivals.as_slice(), line, thread)
    }
}

// Takes out the arrival at a place, and moves those behind it up.
// Not by the store's own `remove`, which turns them round by one place: that takes longer, and more of the stack.
fn take_out<const N: usize>(arrivals: &mut ArrayVec<Arrival, N>, i: usize) -> Arrival
    requires { i < length arrivals.old.items }
    ensures value { result ≡ slice_index_or arrivals.old.items i result }
    ensures after { arrivals.new.items ≡ remove arrivals.old.items i }
{
    let gone = arrivals.as_slice()[i];
    arrivals.as_mut_slice().copy_within(i + 1.., i);
    arrivals.pop();
    gone
}

// Why there is no such line.
fn check_line(line: usize) -> Result<(), Decline>
    ensures { result ≡ every_answer line }
{
    if line < LINES {
        Ok(())
    } else {
        Err(Decline::NoSuchLine)
    }
}

// Takes out the arrivals of a line, and marks their threads. Not by `retain` after a loop that marks: two passes, of which one
// swaps, take longer.
fn take_line<const N: usize>(arrivals: &mut ArrayVec<Arrival, N>, line: usize, taken: &mut [bool])
    ensures after { arrivals.new.items ≡ others line arrivals.old.items }
    ensures marks { taken.new ≡ marked (members arrivals.old.items line) taken.old }
{
    let left = close_up(arrivals.as_mut_slice(), line, taken);
    arrivals.truncate(left);
}

// Moves those of other lines up front, in their order, and marks the threads of `line`. Answers how many are left.
fn close_up(es: &mut [Arrival], line: usize, taken: &mut [bool]) -> usize
    ensures few { result ≤ length es.old }
    ensures left { take result es.new ≡ others line es.old }
    ensures marks { taken.new ≡ marked (members es.old line) taken.old }
{
    let mut place = 0;
    for i in 0..es.len() {
        let e = es[i];
        if e.line == line {
            mark(taken, e.thread);
        } else {
            es[place] = e;
            place += 1;
        }
    }
    place
}

// Sets the mark at `t`, if there is one; the nub's `put` for tables of its own is as short. By index: a proof is told nothing of what is written through the `get_mut` of a slice.
#[tactic(auto, using(std::proofs::lemmas::List::set_past))]
fn mark(taken: &mut [bool], t: usize)
    ensures { taken.new ≡ slice_set taken.old t true }
{
    if t < taken.len() {
        taken[t] = true;
    }
}
