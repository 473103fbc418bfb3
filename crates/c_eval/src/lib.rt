//! Runs of C programs for the turns of a script, as their meaning says.
#![tactic(auto)]

mod boundary;
mod calls;
mod exprs;
mod stmts;

pub use boundary::{chain, phase};
