//! What one line does to the nub, and what it is answered.
ghost use Rattle.std.specs.Prelude.{◌≡◌};
ghost use Rattle.tokens.specs.Word.{submit, turn};
ghost use Rattle.text.specs.Both.{both, held_at, builder_of};
ghost use Rattle.text.specs.Step.{by_word, replied, stepped};

use crate::answer::*;
use crate::held::{Held, Order};
use crate::machine::Machine;
use tokens::fault::Fault;
use tokens::numbers::numbers;
use tokens::token;
use tokens::token::Token;

// N and K: a new nub, where there is none. One that is refused leaves none.
fn build<'a, A: Machine + Drop, B: Machine + Drop>(
    nub: &mut Option<Held<A, B>>,
    order: Order,
    text: &[u8],
) -> Result<Answer<'a>, Refusal>
    ensures answer { replied result ≡ (by_word (both A.Machine.model B.Machine.model) (builder_of order) (held_at A.Machine.state B.Machine.state nub.old) text.now).answer }
    ensures after { held_at A.Machine.state B.Machine.state nub.new ≡ (by_word (both A.Machine.model B.Machine.model) (builder_of order) (held_at A.Machine.state B.Machine.state nub.old) text.now).state }
{
    let sizes = numbers::<5>(text)?;
    if nub.is_some() {
        return Err(Refusal::Script(Fault::OutOfOrder));
    }
    *nub = Some(Held::build(order, sizes).map_err(Refusal::Nub)?);
    Ok(Answer::Done)
}

// S: a submission to the nub.
fn submit<'a, A: Machine, B: Machine>(
    nub: &mut Option<Held<A, B>>,
    text: &[u8],
) -> Result<Answer<'a>, Refusal>
    ensures answer { replied result ≡ (by_word (both A.Machine.model B.Machine.model) submit (held_at A.Machine.state B.Machine.state nub.old) text.now).answer }
    ensures after { held_at A.Machine.state B.Machine.state nub.new ≡ (by_word (both A.Machine.model B.Machine.model) submit (held_at A.Machine.state B.Machine.state nub.old) text.now).state }
{
    let call = numbers::<4>(text)?;
    let nub = nub.as_mut().ok_or(Fault::OutOfOrder)?;
    nub.submit(call).map_err(Refusal::Nub)?;
    Ok(Answer::Done)
}

// T: a turn of the nub.
fn turn<'a, A: Machine, B: Machine>(
    nub: &mut Option<Held<A, B>>,
    text: &[u8],
) -> Result<Answer<'a>, Refusal>
    ensures answer { replied result ≡ (by_word (both A.Machine.model B.Machine.model) turn (held_at A.Machine.state B.Machine.state nub.old) text.now).answer }
    ensures after { held_at A.Machine.state B.Machine.state nub.new ≡ (by_word (both A.Machine.model B.Machine.model) turn (held_at A.Machine.state B.Machine.state nub.old) text.now).state }
{
    let [thread] = numbers::<1>(text)?;
    let nub = nub.as_mut().ok_or(Fault::OutOfOrder)?;
    let report = nub.turn(thread).map_err(Refusal::Nub)?;
    Ok(Answer::Turned(report))
}

/// What a line, without its end, does to the nub, and what it is answered. The letter is looked at first, then the
/// numbers, then whether there is a nub; so a line that is refused for its text never reaches the nub.
pub fn step<'a, A: Machine + Drop, B: Machine + Drop>(
    nub: &mut Option<Held<A, B>>,
    line: &'a [u8],
) -> Result<Answer<'a>, Refusal>
    ensures answer { replied result ≡ (stepped (both A.Machine.model B.Machine.model) (held_at A.Machine.state B.Machine.state nub.old) line.now).answer }
    ensures after { held_at A.Machine.state B.Machine.state nub.new ≡ (stepped (both A.Machine.model B.Machine.model) (held_at A.Machine.state B.Machine.state nub.old) line.now).state }
{
    let Some((_, text)) = line.split_first() else {
        return Err(Refusal::Script(Fault::NoLetter));
    };
    match token::first(line) {
        Some(Token::FirstCome) => build(nub, Order::Arrival, text),
        Some(Token::Ranked) => build(nub, Order::Rank, text),
        Some(Token::Submit) => submit(nub, text),
        Some(Token::Turn) => turn(nub, text),
        Some(Token::Note(text)) => Ok(Answer::Note(text)),
        // A number only follows a letter.
        Some(Token::Number(_)) | None => Err(Refusal::Script(Fault::NoLetter)),
    }
}
