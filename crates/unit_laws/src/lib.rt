//! Laws of units: the numbers in each function that the checker's definitions answer are in range at the end of its unit.
#![tactic(auto)]

pub mod laws;
