//! The lines of an input, without their ends.
ghost use Rattle.std.specs.Prelude.{◌≡◌, ◌+◌, ◌<◌, length, MatchOption, ⊤};
ghost use Rattle.std.specs.Iterator.{at_most};
ghost use Rattle.text.specs.Script.{first_line, after_line};

use tokens::token::passing_len;

/// The lines of what is left of an input, each ended by a byte 10, the last perhaps without.
// Not the library's `split_inclusive`: a loop over it gets no proof in a function with type parameters.
#[derive(Drop)]
pub struct Lines<'a> {
    pub rest: &'a [u8],
}

impl<'a> Iterator for Lines<'a> {
    type Item = &'a [u8];

    ghost can_next = { λ s. ⊤ };

    ghost next_gives = { λ s r t. MatchOption r ((length s.rest.now ≡ 0) × (t ≡ s)) (λ l. (0 < length s.rest.now) × (l.now ≡ first_line s.rest.now) × (t.rest.now ≡ after_line s.rest.now)) };

    ghost remaining = { λ s. at_most (length s.rest.now) };

    fn next(&mut self) -> Option<&'a [u8]> {
        if self.rest.is_empty() {
            return None;
        }
        let n = passing_len(self.rest, |b| *b != b'\n');
        let (line, after) = self.rest.split_at(n);
        self.rest = after.get(1..).unwrap_or(after);
        Some(line)
    }
}
