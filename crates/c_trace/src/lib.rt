//! Traces: what a C program does for the turns of a script.
#![tactic(auto)]

mod runs;

pub use runs::trace;
