//! What a set of waiting lines is, whatever its kind.
ghost use Rattle.std.specs.Prelude.{◌≡◌, ℕ, ◌≤◌, []};
ghost use Rattle.lines.specs.Lines.{add_answer, remove_answer, take_answer, empty_answer, after, Sound};
ghost use Rattle.lines.specs.Kinds.{Kind, Laws};

use crate::decline::Decline;

/// How many lines a set has. Mutex m has line m, semaphore s line 16 + s, condition c line 32 + c.
pub const LINES: usize = 48;

/// A set of the lines 0 to 47, in which threads wait.
///
/// Its meaning is a list of members for each line, in order of arrival. No thread stands twice in the set: neither
/// twice in one line nor in two lines.
///
/// Whom a take gives is the kind's own free choice, named `next`: none exactly where the line is empty, else one of
/// its members.
///
/// There are four refusals. Where several apply, the first of them is answered, and a refusal alters nothing:
///
/// - 21, `NoSuchLine`: any operation on a line that is not below 48;
/// - 22, `NotServed`: an add or a remove of a thread that the set does not serve;
/// - 23, `AlreadyInSet`: an add of a thread that stands in the set;
/// - 24, `NotInLine`: a remove of a thread that does not stand in that line.
pub trait LineSet: Sized {
    /// It serves the threads below this number.
    const SERVES: usize;

    /// What a new set is made from.
    type Maker;

    // The kind as a machine: its states, the members of each line, the choice, and the state after each operation.
    ghost kind: { Kind };

    // The machine's state that a set stands for.
    ghost state: { Self → kind.State };

    // The state of a new set.
    ghost fresh: { Self.Maker → kind.State };

    /// `SERVES`, as a number that contracts can speak of.
    fn limit() -> usize
        ensures { result ≡ kind.serves };

    /// A set whose lines are all empty.
    fn make(maker: Self::Maker) -> Self
        ensures { state result ≡ fresh maker };

    /// Lets a thread come to a line, as its latest member.
    fn add(&mut self, line: usize, thread: usize) -> Result<(), Decline>
        ensures answer { result ≡ add_answer kind.serves (kind.line (state self.old)) line thread }
        ensures after { state self.new ≡ after result (kind.added (state self.old) line thread) (state self.old) };

    /// Takes the member that the kind chooses out of a line; `None` where the line is empty.
    fn take(&mut self, line: usize) -> Result<Option<usize>, Decline>
        ensures answer { result ≡ take_answer (kind.next (state self.old)) line }
        ensures after { state self.new ≡ after result (kind.taken (state self.old) line) (state self.old) };

    /// Lets a thread leave a line in which it stands, whatever its place there.
    fn remove(&mut self, line: usize, thread: usize) -> Result<(), Decline>
        ensures answer { result ≡ remove_answer kind.serves (kind.line (state self.old)) line thread }
        ensures after { state self.new ≡ after result (kind.removed (state self.old) line thread) (state self.old) };

    /// Whether a line has no member.
    fn is_empty(&self, line: usize) -> Result<bool, Decline>
        ensures { result ≡ empty_answer (kind.line (state self.now)) line };

    // How the machine's operations change the lines, and that it chooses a member.
    ghost lawful: { Laws kind };

    // No thread stands twice, and only served threads stand, in lines that there are.
    ghost sound: { (s : Self) → Sound kind.serves (kind.line (state s)) };

    ghost serving: { (1 ≤ kind.serves) × (kind.serves ≤ 64) };

    // A new set has no member in any line.
    ghost new: { (m : Self.Maker) (l : ℕ) → kind.line (fresh m) l ≡ [] };
}
