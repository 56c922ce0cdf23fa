//! The whole script: cut into lines, which are answered one after the other.
ghost use Rattle.std.specs.Prelude.{◌≡◌, ◌++◌, is_ok, IfOk, if◌then◌else◌};
ghost use Rattle.text.specs.Both.{both, held_at};
ghost use Rattle.text.specs.Step.{stepped};
ghost use Rattle.text.specs.Written.{line_text};
ghost use Rattle.text.specs.Script.{script};

use crate::answer::*;
use crate::held::Held;
use crate::lines::Lines;
use crate::machine::Machine;
use crate::step::step;
use crate::write::*;
use std::alloc::{AllocError, Global};
use tokens::fault::Fault;

// The most bytes that an input may have.
const MOST_BYTES: usize = 65_536;

// One line: what it does to the nub, and what is written of it. Where memory fails, the nub has done its step, and out
// stays as it was.
fn answer_line<A: Machine + Drop, B: Machine + Drop>(
    nub: &mut Option<Held<A, B>>,
    out: &mut Vec<u8>,
    number: usize,
    line: &[u8],
) -> Result<(), AllocError>
    ensures after { held_at A.Machine.state B.Machine.state nub.new ≡ (stepped (both A.Machine.model B.Machine.model) (held_at A.Machine.state B.Machine.state nub.old) line.now).state }
    ensures text { out.new.items ≡ (if is_ok result then out.old.items ++ line_text number (stepped (both A.Machine.model B.Machine.model) (held_at A.Machine.state B.Machine.state nub.old) line.now).answer else out.old.items) }
{
    match step(nub, line) {
        Ok(answer) => write_answer(out, answer),
        Err(why) => write_refusal(out, number, why),
    }
}

/// What is written of an input, on a machine A by arrival or B by rank. Each byte is looked at a few times at most, so
/// the time is linear in the input, apart from the machine's own.
pub fn run<A: Machine + Drop, B: Machine + Drop>(
    heap: Global,
    input: &[u8],
) -> Result<Vec<u8>, AllocError>
    ensures { IfOk result (λ v. v.items ≡ script (both A.Machine.model B.Machine.model) input.now) }
{
    let mut out = Vec::new(heap);
    if input.len() > MOST_BYTES {
        write_refusal(&mut out, 0, Refusal::Script(Fault::TooLong))?;
        return Ok(out);
    }
    let mut nub: Option<Held<A, B>> = None;
    for (before, line) in (Lines { rest: input }).enumerate() {
        answer_line(&mut nub, &mut out, before + 1, line)?;
    }
    Ok(out)
}
