//! One thread of the nub: its record, and the record's part of a turn.
#![tactic(auto)]

pub mod record;
