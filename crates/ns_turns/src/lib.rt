//! Turns of Non-secure code, and whole runs of the machine.
#![tactic(auto)]

pub mod laws;
mod running;

pub use running::{play_turn, run};
