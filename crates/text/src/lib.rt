//! The script language: from the bytes read to the bytes written, over any machine that takes submissions and turns.
#![tactic(auto)]

pub mod answer;
pub mod held;
pub mod laws;
mod lines;
pub mod machine;
pub mod run;
pub mod step;
pub mod write;
