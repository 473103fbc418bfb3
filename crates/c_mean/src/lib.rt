//! What a program means.
#![tactic(auto)]

mod flow;
pub mod laws;

pub use flow::Flow;
