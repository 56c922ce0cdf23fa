//! The paths that the stages make, each a picture.
use crate::arrows::Map;
use crate::names::*;
use crate::picture::Cell::*;
use crate::picture::*;
use stages::stage::Stage;
use stages::stage::Stage::*;
use std::fmt;

const NONE: [Cell; 4] = [Blank, Blank, Blank, Blank];

const GATE: Grid = [
    [Home(Try), Home(LineSpin), Home(Add), Blank],
    [Home(UndoOut), Home(Undo), Home(Test), Blank],
    [Home(LeaveSpin), Home(Parked), Home(Park), Blank],
    [Home(Leave), Home(LeaveOut), Home(Peek), Blank],
];

const RELEASE: Grid = [
    [Home(Read), Home(Clear), Home(Look), Home(WakeSpin)],
    [Blank, Guest(BlockSpin), Home(WakeOut), Home(Wake)],
    NONE,
    NONE,
];

const WAIT: Grid = [
    [Home(BlockSpin), Home(Compare), Home(BlockPark), Blank],
    [Guest(Try), Home(BlockOut), Home(Waiting), Home(Choose)],
    [Blank, Home(Quit), Home(QuitSpin), Blank],
    NONE,
];

const SIGNAL: Grid = [
    [Home(SigSpin), Home(Sig), Home(SigOut), Blank],
    NONE,
    NONE,
    NONE,
];

const ALERTS: Grid = [[Home(Set), Home(Swap), Blank, Blank], NONE, NONE, NONE];

const PATHS: [(&str, &Grid); 5] = [
    (
        "THE GATE PATH: Acquire, P, AlertP, and a wait on its way back",
        &GATE,
    ),
    (
        "THE RELEASE PATH: Release, V, and a wait that gives up its mutex",
        &RELEASE,
    ),
    (
        "A WAIT'S TWO WAYS OUT: signalled by Choose or by another count at Compare, alerted by Quit",
        &WAIT,
    ),
    ("THE SIGNAL PATH: Signal and Broadcast", &SIGNAL),
    ("ALERT AND TESTALERT, one turn each", &ALERTS),
];

const LEGEND: &str =
    "In a box: the number and the name of the stage; spin: the thread holds the spin bit; gate, cond: it stands in its
gate's or its condition's line; way: it is on its way. The numbers in the lower edge are the actions that its turns do.
Below a box: arrows to stages that are not beside it. taken: another thread's turn takes it from its line, at Wake from a
gate's, at Sig from a condition's. A dotted box is drawn with its own arrows in another picture.
";

// Whether the pictures have a stage with all its arrows, and have it so only once.
fn is_drawn_once(stage: Stage) -> bool {
    let mut homes = PATHS
        .iter()
        .flat_map(|(_, grid)| grid.iter())
        .flat_map(|cells| cells.iter())
        .filter(|cell| cell.home() == Some(stage));
    homes.next().is_some() && homes.next().is_none()
}

/// All paths of a map, and how many of the stages and of the explored arrows they have.
#[derive(Clone, Copy)]
pub struct Paths<'a>(pub &'a Map);

impl<'a> fmt::Display for Paths<'a> {
    fn fmt<W: fmt::Write>(&self, f: &mut fmt::Formatter<W>) -> fmt::Result {
        writeln!(f, "THE PATHS\n\n{LEGEND}")?;
        let mut drawn: usize = 0;
        for (title, grid) in &PATHS {
            let picture = Picture::of(self.0, grid)?;
            let page = &picture.page;
            writeln!(f, "{title}\n\n{page}")?;
            // Counted here: the loop is left early where there is no room.
            drawn = drawn.saturating_add(picture.arrows);
        }
        let once = STAGES.iter().filter(|stage| is_drawn_once(**stage)).count();
        writeln!(f, "stages drawn once: {once} of 31 besides Idle")?;
        // No `sum`: that it fits is not proved.
        let all = self
            .0
            .stages()
            .iter()
            .fold(0usize, |n, arrows| n.saturating_add(arrows.list.len()));
        writeln!(f, "arrows drawn: {drawn} of {all} explored")
    }
}
