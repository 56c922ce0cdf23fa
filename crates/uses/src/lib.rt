//! Clients of tickets and holds: one that passes them from hand to hand, and one that keeps them in slots.
#![tactic(auto)]

mod direct;
mod slots;
