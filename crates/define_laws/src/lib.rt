//! Laws of units: what the checker's definitions answer for one is a unit.
#![tactic(auto)]

pub mod laws;
