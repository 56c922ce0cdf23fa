//! Scripts on nubs: from the bytes read to the bytes written, over lines by arrival and lines by rank.
#![tactic(auto)]

pub mod machines;
pub mod run;
