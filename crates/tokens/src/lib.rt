//! The bytes and tokens of a line: its letter, its note, its numbers, and what may be wrong with them.
#![tactic(auto)]

pub mod fault;
pub mod laws;
pub mod numbers;
pub mod token;
