//! The front end: sources as a program, or their first fault.
#![tactic(auto)]

pub mod laws;
mod program;
mod sources;
mod units;

pub use program::front;
pub use sources::{BuildFault, Source};
