//! The words of the nub: stages, calls, actions and statuses, the turn table over them, and the marks of the stages.
#![tactic(auto)]

pub mod action;
pub mod call;
pub mod marks;
pub mod stage;
pub mod step;
