//! Cases of the script language, run on a machine that keeps one number.
#![tactic(auto)]

mod cases;
pub mod toy;
