//! Sets of waiting lines: the trait `LineSet`, and the two kinds `FirstCome` and `Ranked`.
#![tactic(auto)]

mod arrival;
pub mod choice;
pub mod decline;
pub mod first_come;
pub mod ranked;
pub mod set;
pub mod waiting;
