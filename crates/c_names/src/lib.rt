//! The names of a C source.
#![tactic(auto)]

mod ident;

pub use ident::Ident;
