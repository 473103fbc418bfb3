//! Code with labels: jumps become branches to the places of their labels.
#![tactic(auto)]

mod asm;
mod fixing;
pub mod laws;

pub use asm::Asm;
pub use fixing::fix;
