//! What the turns at a stage come to, and the cases that tell them apart.
use crate::full::Full;
use crate::reach::*;
use crate::seen::*;
use arrayvec::ArrayVec;
use stages::action::*;
use stages::stage::Stage;
use std::fmt;

/// What a turn comes to.
#[derive(Clone, Copy, PartialEq, Eq)]
pub struct Edge {
    pub next: Stage,
    pub action: Option<Action>,
    pub status: Status,
    pub value: u32,
}

/// What stands where a list has no edge.
impl Default for Edge {
    fn default() -> Edge {
        Edge {
            next: Stage::Idle,
            action: None,
            status: Status::On,
            value: 0,
        }
    }
}

impl fmt::Display for Edge {
    fn fmt<W: fmt::Write>(&self, f: &mut fmt::Formatter<W>) -> fmt::Result {
        let next = self.next;
        write!(f, "{next:?} (")?;
        match self.action {
            Some(action) => write!(f, "action {}", action as u8)?,
            None => write!(f, "no action")?,
        }
        // Small letters, which `{:?}` does not print.
        let status = match self.status {
            Status::On => "on",
            Status::Parked => "parked",
            Status::Spun => "spun",
            Status::Finished => "finished",
        };
        let value = if self.value == 1 { ", value 1" } else { "" };
        write!(f, ", {status}{value})")
    }
}

/// Edges, each with a case that comes to it: no more than there are ways of seeing things.
pub type EdgeList = ArrayVec<(Case, Edge), 64>;

/// Ways that come to another edge where one thing is on that they have off, each with that thing. Each of the six things is off
/// in half of the sixty-four ways.
type Turning = ArrayVec<(Thing, Case), 192>;

/// The edges of one stage in one call, each with the way of seeing things that leads to it.
#[derive(Drop)]
pub struct Edges(EdgeList);

fn edge_of(reached: &Reached, stage: Stage, seen: Case) -> Option<Edge> {
    let at = Place {
        stage,
        flag: seen.has(Thing::Flag),
        alerted: seen.has(Thing::Alerted),
    };
    let thread = reached.find(|place| place == at)?;
    let (after, step) = turned(thread, sight(thread, seen))?;
    Some(Edge {
        next: after.stage(),
        action: step.action,
        status: step.status,
        value: step.value,
    })
}

impl Edges {
    pub(crate) fn at(reached: &Reached, stage: Stage) -> Result<Edges, Full> {
        let mut edges = EdgeList::new();
        for way in reached.ways() {
            if let Some(edge) = edge_of(reached, stage, *way) {
                edges.try_push((*way, edge))?;
            }
        }
        Ok(Edges(edges))
    }

    // Whether all ways come to one edge.
    fn agree(&self) -> bool {
        self.0
            .first()
            .is_none_or(|(_, edge)| self.0.iter().all(|(_, to)| edge == to))
    }

    // The ways that come to another edge where one thing is on that they have off, each with that thing.
    fn turning(&self) -> Result<Turning, Full> {
        let mut turning = Turning::new();
        if self.agree() {
            return Ok(turning);
        }
        for (way, edge) in self.0.iter() {
            for (other, to) in self.0.iter() {
                if edge == to {
                    continue;
                }
                if let Some(thing) = way.turns_on(*other) {
                    turning.try_push((thing, *way))?;
                }
            }
        }
        Ok(turning)
    }

    /// The cases that tell the edges apart, each with its edge.
    pub(crate) fn cases(&self) -> Result<EdgeList, Full> {
        let mut cases = EdgeList::new();
        let turning = self.turning()?;
        // Whether two ways of a case that differ in this thing alone come to different edges.
        let tells = |case: Case, thing: Thing| {
            turning
                .iter()
                .any(|(at, way)| *at == thing && case.fits(*way))
        };
        for case in &Case::split(tells)? {
            if let Some((_, edge)) = self.0.iter().find(|(way, _)| case.fits(*way)) {
                cases.try_push((*case, *edge))?;
            }
        }
        Ok(cases)
    }
}
