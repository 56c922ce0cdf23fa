//! The table of the stages: number, name, marks, calls, and the rows.
use crate::arrows::*;
use crate::calls::Calls;
use crate::text::*;
use stages::marks::*;
use std::fmt;
use std::fmt::Write;

// Where a thread stands, in words.
fn stands(line: Stands) -> &'static str {
    match line {
        Stands::Nowhere => "-",
        Stands::AtGate => "its gate's line",
        Stands::AtCondition => "its condition's line",
    }
}

fn yes(b: bool) -> &'static str {
    if b { "yes" } else { "-" }
}

// A line of the table: what comes first, and calls at their column.
fn write_line<W: fmt::Write>(f: &mut fmt::Formatter<W>, first: Line, calls: Line) -> fmt::Result {
    let mut line = Line::new();
    write!(line, "{first:<60}{calls}")?;
    writeln!(f, "{}", line.as_str().trim_end())
}

fn write_row<W: fmt::Write>(f: &mut fmt::Formatter<W>, row: &Row, all: Calls) -> fmt::Result {
    let words = row.case.words()?;
    let case = if words.is_empty() {
        "always"
    } else {
        words.as_str()
    };
    let edge = row.edge;
    let mut first = Line::new();
    write!(first, "      {case} -> {edge}")?;
    write_line(f, first, row.calls.names_among(all)?)
}

fn write_stage<W: fmt::Write>(f: &mut fmt::Formatter<W>, arrows: &Arrows) -> fmt::Result {
    let stage = arrows.stage;
    let mark = mark_of(stage);
    let number = u8::from(stage);
    let name = name_of(stage)?;
    let spin = yes(mark.spin);
    let line = stands(mark.line);
    let way = yes(mark.way);
    let mut first = Line::new();
    write!(first, "{number:>2}  {name:<11}{spin:<10}{line:<22}{way}")?;
    write_line(f, first, arrows.calls.names()?)?;
    for arrow in &arrows.list {
        match arrow.how {
            How::Turn(_) => {
                for row in arrows.rows.iter().filter(|row| row.edge.next == arrow.next) {
                    write_row(f, row, arrows.calls)?;
                }
            }
            How::Taken => {
                let next = arrow.next;
                let mut first = Line::new();
                write!(first, "      taken -> {next:?}")?;
                write_line(f, first, arrows.whose(arrow)?)?;
            }
        }
    }
    Ok(())
}

/// The table of a map, and how many pairs of a stage and a call meet.
#[derive(Clone, Copy)]
pub struct Table<'a>(pub &'a Map);

impl<'a> fmt::Display for Table<'a> {
    fn fmt<W: fmt::Write>(&self, f: &mut fmt::Formatter<W>) -> fmt::Result {
        f.write_str(
            "THE STAGES: case -> next stage (action, status), and the calls where not all

No. Stage      Spin bit  Stands in             On its way   Calls
",
        )?;
        for arrows in self.0.stages() {
            write_stage(f, arrows)?;
        }
        // No `sum`: that it fits is not proved.
        let pairs = self
            .0
            .stages()
            .iter()
            .fold(0usize, |n, arrows| n.saturating_add(arrows.calls.len()));
        writeln!(f, "\npairs of a stage and a call that meet: {pairs}")
    }
}
