//! Units joined to a program.
#![tactic(auto)]

mod bodies;
mod build;
mod disputed;
mod earliest;
mod names;
mod renumber;
mod seen;
mod steps;
mod uses;
mod whole;

pub use join_laws::JoinFault;
pub use whole::join;
