//! The tokens of a C source.
#![tactic(auto)]

mod class;
mod comments;
mod fault;
pub mod laws;
pub mod lexer;
mod literals;
mod marks;
mod numbers;
mod pieces;
mod runs;
mod spot;
pub mod token;
mod words;

pub use lexer::{LexFault, MAX_SOURCE, lex};
