//! Laws of the checker's definitions: the typed trees that they answer keep their numbers in range.
#![tactic(auto)]

pub mod laws;
