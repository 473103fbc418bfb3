//! The grammar over tokens, what the next tokens begin, and reading from left to right.
#![tactic(auto)]

pub mod begins;
pub mod either;
pub mod laws;
pub mod names;
pub mod operators;
pub mod tokens;
