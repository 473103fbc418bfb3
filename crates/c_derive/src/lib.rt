//! The types of declarations: what words name, and what declarators derive from it.
#![tactic(auto)]

mod derivations;
mod specifiers;

pub use derivations::{Derivation, Param, declarator_derivations, derived};
pub use specifiers::{Base, Storage, Words};
