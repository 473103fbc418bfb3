//! Laws of rows and tables: what they answer keeps the numbers in typed trees in range, while declarations go on.
#![tactic(auto)]

pub mod laws;
