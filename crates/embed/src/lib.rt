//! The nub for programs in other languages: whole runs and whole scripts, over plain numbers and bytes.
#![tactic(auto)]

pub mod numbers;
pub mod play;
pub mod whole_script;
