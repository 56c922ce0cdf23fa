//! The tokens of a line: its letter, its note, its numbers.
ghost use Rattle.std.specs.Prelude.{◌≡◌, ℕ, Bool, ◌≤◌, length};
ghost use Rattle.std.specs.Fn.{FnReturnsAt};
ghost use Rattle.std.specs.List.{prefix_len};
ghost use Rattle.tokens.specs.Front.{is_in, front};
ghost use Rattle.tokens.specs.Number.{worth};
ghost use Rattle.tokens.specs.Word.{opened, opening, spelt, numeral, reach};

/// A class of bytes: the digits, or all but the end of a line.
#[derive(Clone, Copy, PartialEq, Eq, Debug)]
pub enum Class {
    Digit,
    Inner,
}

impl Class {
    // Whether b is of this class.
    fn holds(self, b: u8) -> bool
        ensures { result ≡ is_in self b }
    {
        match self {
            Class::Digit => b'0' <= b && b <= b'9',
            Class::Inner => b != b'\n',
        }
    }
}

/// How many bytes at the front of s are of the class.
pub fn front_len(s: &[u8], class: Class) -> usize
    ensures value { result ≡ front class s.now }
    ensures within { result ≤ length s.now }
{
    passing_len(s, |b| class.holds(*b))
}

/// How many bytes at the front of s pass the test.
// Apart from `front_len`, which asks nothing: whatever is passed a closure asks that it may be called.
pub fn passing_len<F: Fn(&u8) -> bool>(s: &[u8], test: F) -> usize
    requires { F.IsAlwaysCallable test }
    ensures value { (p : ℕ → Bool) → ((b : ℕ) (r : Bool) → FnReturnsAt F.Fn test b r → r ≡ p b) → result ≡ prefix_len p s.now }
    ensures within { result ≤ length s.now }
{
    s.iter().take_while(move |b| test(*b)).count()
}

// The most digits that a number may have.
const MOST_DIGITS: usize = 10;

/// What the digits are worth, if there are at most ten and it is at most 4,294,967,295.
#[tactic(auto, using(crate::proofs::Values::value_on_high, crate::proofs::Values::worth_high, crate::proofs::Values::worth_some))]
pub fn value(digits: &[u8]) -> Option<u32>
    ensures { result ≡ worth digits.now }
{
    if digits.len() > MOST_DIGITS {
        return None;
    }
    let mut n: u32 = 0;
    for d in digits {
        n = n
            .checked_mul(10)?
            .checked_add(u32::from(d.saturating_sub(b'0')))?;
    }
    Some(n)
}

/// A piece of a line. A note, without its mark, and the digits of a number are parts of the line itself.
#[derive(Clone, Copy, PartialEq, Eq, Debug)]
pub enum Token<'a> {
    FirstCome,
    Ranked,
    Submit,
    Turn,
    Note(&'a [u8]),
    Number(&'a [u8]),
}

/// What the line opens with, if its first byte is one that a line may open with.
pub fn first(line: &[u8]) -> Option<Token<'_>>
    ensures { opened result ≡ opening line.now }
{
    let (letter, text) = line.split_first()?;
    match char::from(*letter) {
        'N' => Some(Token::FirstCome),
        'K' => Some(Token::Ranked),
        'S' => Some(Token::Submit),
        'T' => Some(Token::Turn),
        '#' => Some(Token::Note(text)),
        _ => None,
    }
}

/// No number stands here: so many bytes on is the byte that is wrong, or there is none.
#[derive(Clone, Copy, PartialEq, Eq, Debug)]
pub struct Misplaced {
    pub on: usize,
}

/// The number that rest begins with, after exactly one space: a token, which borrows from the line as a note does.
pub fn number(rest: &[u8]) -> Result<Token<'_>, Misplaced>
    ensures value { spelt result ≡ numeral rest.now }
    ensures within { reach (spelt result) ≤ length rest.now }
{
    let Some((b' ', after)) = rest.split_first() else {
        return Err(Misplaced { on: 0 });
    };
    let n = front_len(after, Class::Digit);
    if n == 0 {
        return Err(Misplaced { on: 1 });
    }
    Ok(Token::Number(&after[..n]))
}
