//! The numbers of a line, or what is wrong with them and at which column.
ghost use Rattle.std.specs.Prelude.{◌≡◌};
ghost use Rattle.tokens.specs.Numbers.{read, told};

use crate::fault::Fault;
use crate::token;
use crate::token::Token;

/// The N numbers that the text after a line's letter is, and nothing more; or the leftmost fault, with its column.
/// The letter is column 1, so the text begins at column 2.
pub fn numbers<const N: usize>(text: &[u8]) -> Result<[u32; N], Fault>
    ensures { result ≡ told (read N 2 text.now) }
{
    let mut found = [0; N];
    let mut rest = text;
    let mut column: usize = 2;
    for place in found.iter_mut() {
        let number = token::number(rest).map_err(|e| Fault::BadNumber(column + e.on))?;
        let Token::Number(digits) = number else {
            unreachable()
        };
        // A number over its limit is told at its first digit, one past the space.
        *place = token::value(digits).ok_or(Fault::BadNumber(column + 1))?;
        let used = digits.len() + 1;
        rest = &rest[used..];
        column += used;
    }
    if rest.is_empty() {
        Ok(found)
    } else {
        Err(Fault::BadNumber(column))
    }
}
