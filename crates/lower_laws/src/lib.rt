//! Laws of the middle form of typed trees: it does the same, at a bounded cost.
#![tactic(auto)]

pub mod laws;
