//! What is written of an answer and of a refusal.
ghost use Rattle.std.specs.Prelude.{◌≡◌, ◌++◌, is_ok, if◌then◌else◌, Some};
ghost use Rattle.text.specs.Written.{shown_report, shown_refusal, written, refusal};

use crate::answer::*;
use std::alloc::AllocError;
use std::fmt;

impl fmt::Display for Report {
    ghost output = { λ r. Some (shown_report r) };

    fn fmt<W: fmt::Write>(&self, f: &mut fmt::Formatter<W>) -> fmt::Result {
        write!(
            f,
            "T {} {} {} {}",
            self.status, self.value, self.action, self.mask
        )
    }
}

impl fmt::Display for Refusal {
    ghost output = { λ r. Some (shown_refusal r) };

    fn fmt<W: fmt::Write>(&self, f: &mut fmt::Formatter<W>) -> fmt::Result {
        match self {
            Refusal::Nub(number) => write!(f, "nub {number}"),
            Refusal::Script(fault) => {
                write!(f, "script {} column {}", u8::from(*fault), fault.column())
            }
        }
    }
}

/// Writes that a line is refused, after what out has. Where memory fails, out stays as it was.
pub fn write_refusal(out: &mut Vec<u8>, line: usize, why: Refusal) -> Result<(), AllocError>
    ensures { out.new.items ≡ (if is_ok result then out.old.items ++ refusal line why else out.old.items) }
{
    let text = format!(in *out.allocator(); "line {line} {why}\n")?;
    out.extend_from_slice(text.as_bytes())
}

/// Writes an answer, after what out has. Where memory fails, out stays as it was.
pub fn write_answer(out: &mut Vec<u8>, answer: Answer<'_>) -> Result<(), AllocError>
    ensures { out.new.items ≡ (if is_ok result then out.old.items ++ written answer.entry else out.old.items) }
{
    match answer {
        Answer::Done => out.extend_from_slice(b"ok\n"),
        Answer::Turned(report) => {
            let text = format!(in *out.allocator(); "{report}\n")?;
            out.extend_from_slice(text.as_bytes())
        }
        Answer::Note(text) => {
            // Made apart first, so that out never has a part of a line.
            let mut note = Vec::new(*out.allocator());
            note.push(b'#')?;
            note.extend_from_slice(text)?;
            note.push(b'\n')?;
            out.extend_from_slice(&note)
        }
    }
}
