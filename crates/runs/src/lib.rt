//! The run theorem: over every list of submissions and turns, every build and every kind of waiting line.
#![tactic(auto)]

pub mod laws;
pub mod replay;
