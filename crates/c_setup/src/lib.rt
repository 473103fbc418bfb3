//! What a run of a C program needs to know of it, worked out once.
#![tactic(auto)]

mod plan;
mod setup;

pub use setup::prepare;
