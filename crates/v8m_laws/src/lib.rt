//! Laws of the machine that proofs of code stand on: code with branches ahead, conditions after comparisons, C's operators
//! as instructions, numbers in memory, and lists of registers.
#![tactic(auto)]

pub mod laws;
