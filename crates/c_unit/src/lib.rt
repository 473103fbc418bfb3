//! The typed tree of a unit, or its first fault in the order of the text.
#![tactic(auto)]

mod whole;

pub use whole::check;
