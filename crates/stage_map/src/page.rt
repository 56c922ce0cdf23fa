//! Texts placed on a page.
ghost use Rattle.std.specs.Prelude.{◌≡◌, ◌↔◌, ◌<◌, ◌++◌, [], ◌∷◌, length, IsOk, OnOk, OnErr};
ghost use Rattle.stage_map.specs.Pages.{others, place_of};

use crate::full::Full;
use crate::text::*;
use arrayvec::ArrayVec;
use std::fmt;
use std::fmt::Write;

// How far a cell of a picture is from the next.
const DOWN: usize = 7;

const ACROSS: usize = 30;

/// A cell of a picture, by row and column.
#[derive(Clone, Copy)]
pub struct Spot {
    pub row: u8,
    pub column: u8,
}

/// The texts of a page, no two at one place, each with the line and the column where it begins.
#[derive(Drop)]
pub struct Page(ArrayVec<((usize, usize), Label), 128>);

impl Page {
    pub(crate) fn new() -> Page
        ensures { result.0.items ≡ [] }
    {
        Page(ArrayVec::new())
    }

    // Takes away what begins at a place.
    #[tactic(auto, using(crate::proofs::Kept::kept))]
    fn clear_at(&mut self, line: usize, column: usize)
        ensures { self.new.0.items ≡ others (line, column) self.old.0.items }
    {
        self.0
            .retain(|((down, right), _)| !(*down == line && *right == column));
    }

    /// Places a text, as far down and right of the upper left corner of a cell, in place of one that begins there.
    pub(crate) fn put(&mut self, spot: Spot, down: u8, right: u8, text: Label) -> Result<(), Full>
        ensures ok { OnOk result (self.new.0.items ≡ others (place_of spot down right) self.old.0.items ++ (place_of spot down right, text) ∷ []) }
        ensures err { OnErr result (self.new.0.items ≡ others (place_of spot down right) self.old.0.items) }
        ensures room { IsOk result ↔ (length (others (place_of spot down right) self.old.0.items) < 128) }
    {
        let line = usize::from(spot.row) * DOWN + usize::from(down);
        let column = usize::from(spot.column) * ACROSS + usize::from(right);
        self.clear_at(line, column);
        self.0.try_push(((line, column), text))?;
        Ok(())
    }

    // The first text behind a place, line by line, or the first of all.
    fn next(&self, place: Option<(usize, usize)>) -> Option<((usize, usize), Label)> {
        self.0
            .iter()
            .filter(|(at, _)| Some(*at) > place)
            .min_by_key(|(at, _)| *at)
            .copied()
    }
}

/// The page's lines, up to the last with a text, each without the blanks at its end. An error where one has more than a `Line` can
/// hold.
impl fmt::Display for Page {
    fn fmt<W: fmt::Write>(&self, f: &mut fmt::Formatter<W>) -> fmt::Result {
        let mut line = Line::new();
        let mut place = None;
        let mut at = 0;
        for _ in &self.0 {
            let Some(((down, column), text)) = self.next(place) else {
                break;
            };
            for _ in at..down {
                writeln!(f, "{}", line.as_str().trim_end())?;
                line.clear();
            }
            let mut longer = Line::new();
            write!(longer, "{line:<column$}{}", text.as_str())?;
            line = longer;
            at = down;
            place = Some((down, column));
        }
        writeln!(f, "{}", line.as_str().trim_end())
    }
}
