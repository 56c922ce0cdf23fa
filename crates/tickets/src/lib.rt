//! Tickets for calls under way and holds of acquired mutexes, above a nub over any kind of waiting lines.
#![tactic(auto)]

pub mod calls;
pub mod hold;
pub mod refusal;
pub mod ticket;
