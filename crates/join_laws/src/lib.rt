//! What units join to, and laws of it: what joins is a program.
#![tactic(auto)]

mod fault;
pub mod laws;

pub use fault::JoinFault;
