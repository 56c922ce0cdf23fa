//! The arrows of a stage: what its turns come to, case by case, and who takes a thread away from it.
ghost use Rattle.std.specs.Prelude.{◌≡◌, IfSome};

use crate::calls::Calls;
use crate::edge::*;
use crate::full::Full;
use crate::names::*;
use crate::reach::*;
use crate::seen::*;
use crate::text::*;
use arrayvec::ArrayVec;
use stages::call::Call;
use stages::stage::Stage;
use std::fmt;
use std::fmt::Write;

/// A case of a turn and what it comes to, with the calls that it is for.
#[derive(Clone, Copy, Default, PartialEq, Eq)]
pub struct Row {
    pub case: Case,
    pub edge: Edge,
    pub calls: Calls,
}

/// Why a thread leaves its stage or stays at it: its own turn, in what its cases have in common; or another thread's turn that
/// takes it from a line.
#[derive(Clone, Copy, PartialEq, Eq)]
pub enum How {
    Turn(Case),
    Taken,
}

/// An arrow to a stage, and the calls that it is for.
#[derive(Clone, Copy, PartialEq, Eq)]
pub struct Arrow {
    pub next: Stage,
    pub how: How,
    pub calls: Calls,
}

/// What stands where a list has no arrow.
impl Default for Arrow {
    fn default() -> Arrow {
        Arrow {
            next: Stage::Idle,
            how: How::Taken,
            calls: Calls::none(),
        }
    }
}

/// The arrows of a stage, the rows that they stand for, and the calls that can be at it. Arrows and rows are in the order of their
/// coming.
#[derive(Drop)]
pub struct Arrows {
    pub stage: Stage,
    pub calls: Calls,
    pub list: ArrayVec<Arrow, 6>,
    pub rows: ArrayVec<Row, 12>,
}

// Calls with this one alone.
fn only(call: Call) -> Calls {
    let mut calls = Calls::none();
    calls.add(call);
    calls
}

impl Arrow {
    // Whether it has the turns that lead to a stage.
    fn is_turn_to(&self, next: Stage) -> bool {
        self.next == next && self.how != How::Taken
    }

    // Whether it is for who is taken to a stage.
    fn is_taken_to(&self, next: Stage) -> bool {
        self.next == next && self.how == How::Taken
    }

    // One more case of its turns, of one more call.
    fn add(&mut self, case: Case, call: Call) {
        self.calls.add(call);
        if let How::Turn(common) = &mut self.how {
            *common = common.common(case);
        }
    }
}

impl Arrows {
    // A stage with none yet.
    fn of(stage: Stage) -> Arrows {
        Arrows {
            stage,
            calls: Calls::none(),
            list: ArrayVec::new(),
            rows: ArrayVec::new(),
        }
    }

    // A row of one more call. Looked for in turn, here and for arrows: a stage has few, and they are printed in the order of their
    // coming, which no map keeps.
    fn add_row(&mut self, case: Case, edge: Edge, call: Call) -> Result<(), Full> {
        for row in self.rows.iter_mut() {
            if row.case == case && row.edge == edge {
                row.calls.add(call);
                return Ok(());
            }
        }
        let calls = only(call);
        self.rows.try_push(Row { case, edge, calls })?;
        Ok(())
    }

    fn add_turn(&mut self, case: Case, edge: Edge, call: Call) -> Result<(), Full> {
        self.add_row(case, edge, call)?;
        for arrow in self.list.iter_mut() {
            if arrow.is_turn_to(edge.next) {
                arrow.add(case, call);
                return Ok(());
            }
        }
        self.list.try_push(Arrow {
            next: edge.next,
            how: How::Turn(case),
            calls: only(call),
        })?;
        Ok(())
    }

    fn add_taken(&mut self, next: Stage, call: Call) -> Result<(), Full> {
        for arrow in self.list.iter_mut() {
            if arrow.is_taken_to(next) {
                arrow.calls.add(call);
                return Ok(());
            }
        }
        self.list.try_push(Arrow {
            next,
            how: How::Taken,
            calls: only(call),
        })?;
        Ok(())
    }

    // What the stage has in one call.
    fn add_call(&mut self, reached: &Reached, call: Call) -> Result<(), Full> {
        let stage = self.stage;
        let Some(thread) = reached.find(|place| place.stage == stage) else {
            return Ok(());
        };
        self.calls.add(call);
        for (case, edge) in &Edges::at(reached, stage)?.cases()? {
            self.add_turn(*case, *edge, call)?;
        }
        if let Some(after) = taken(thread) {
            self.add_taken(after.stage(), call)?;
        }
        Ok(())
    }

    // Whether an arrow is for every call that can be at the stage.
    fn for_all(&self, arrow: &Arrow) -> bool {
        arrow.calls.covers(self.calls)
    }

    // Whether some turn leads elsewhere than this arrow.
    fn has_other(&self, arrow: &Arrow) -> bool {
        self.list.iter().any(|other| other.how != How::Taken && other.next != arrow.next)
    }

    /// When an arrow is gone.
    pub(crate) fn when(&self, arrow: &Arrow) -> Result<Line, fmt::Error> {
        let mut line = Line::new();
        match arrow.how {
            How::Taken => line.write_str("taken")?,
            How::Turn(common) => {
                line = common.words()?;
                if line.is_empty() && self.for_all(arrow) && self.has_other(arrow) {
                    line.write_str("else")?;
                }
            }
        }
        Ok(line)
    }

    /// By which calls it is gone, where not by all.
    pub(crate) fn whose(&self, arrow: &Arrow) -> Result<Line, fmt::Error> {
        arrow.calls.names_among(self.calls)
    }

    /// Both on one line.
    pub(crate) fn line(&self, arrow: &Arrow) -> Result<Line, fmt::Error> {
        let mut line = self.when(arrow)?;
        let whose = self.whose(arrow)?;
        add_words(&mut line, whose.as_str())?;
        Ok(line)
    }

    /// An arrow as text.
    pub(crate) fn text(&self, arrow: &Arrow) -> Result<Line, fmt::Error> {
        let mut text = self.line(arrow)?;
        if !text.is_empty() {
            text.write_str(" ")?;
        }
        if arrow.next == self.stage {
            text.write_str("-> stays")?;
        } else {
            let next = arrow.next;
            write!(text, "-> {next:?}")?;
        }
        Ok(text)
    }
}

/// The arrows of all stages, in the order of the stages.
#[derive(Drop)]
pub struct Map([Arrows; 32]);

// `new` and `explore` are not taken into `main`, whose stack would then hold what is needed only there.
impl Map {
    /// All stages, with no arrow yet.
    #[inline(never)]
    pub(crate) fn new() -> Map {
        Map(STAGES.map(|stage| Arrows::of(stage)))
    }

    /// Explores every call.
    #[inline(never)]
    pub(crate) fn explore(&mut self) -> Result<(), Full> {
        for (call, _) in CALLS {
            let reached = Reached::by(call)?;
            for arrows in self.0.iter_mut() {
                arrows.add_call(&reached, call)?;
            }
        }
        Ok(())
    }

    // All in their order, and so a list; `at` looks through thirty-two of them.
    pub(crate) fn stages(&self) -> &[Arrows] {
        &self.0
    }

    /// The arrows of one stage.
    pub(crate) fn at(&self, stage: Stage) -> Option<&Arrows>
        ensures { IfSome result (λ arrows. arrows.now.stage ≡ stage) }
    {
        self.0.iter().find(|arrows| arrows.stage == stage)
    }
}
