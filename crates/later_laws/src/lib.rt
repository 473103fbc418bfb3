//! Laws of what later declarations of a unit keep of those before them.
#![tactic(auto)]

pub mod laws;
