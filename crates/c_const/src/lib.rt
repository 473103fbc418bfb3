//! Constants: the operators of C on words, and which expressions of a typed tree are constants.
#![tactic(auto)]

mod fold;
mod operators;
mod words;

pub use fold::{constant, is_null_constant};
pub use operators::{is_signed, narrowed, operate, operate_one};
