//! Texts of a line, which lie in the value itself.
ghost use Rattle.std.specs.Prelude.{◌≡◌, ◌≤◌, ◌↔◌, length, IsOk, IfOk};

use crate::full::Full;
use arrayvec::ArrayString;
use stages::stage::Stage;
use std::fmt;
use std::fmt::Write;

/// A line of what is printed, or a part of it.
pub type Line = ArrayString<128>;

/// A text on a page.
pub type Label = ArrayString<40>;

/// A text for a page.
pub(crate) fn label(text: &str) -> Result<Label, Full>
    ensures ok { IfOk result (λ label. label.bytes ≡ text.now) }
    ensures room { IsOk result ↔ (length text.now ≤ 40) }
{
    Ok(Label::from(text)?)
}

/// Adds words, behind a comma where others stand before.
pub(crate) fn add_words(line: &mut Line, words: &str) -> fmt::Result {
    if !line.is_empty() && !words.is_empty() {
        line.write_str(", ")?;
    }
    line.write_str(words)
}

/// The name of a stage.
pub(crate) fn name_of(stage: Stage) -> Result<Line, fmt::Error> {
    let mut name = Line::new();
    write!(name, "{stage:?}")?;
    Ok(name)
}
