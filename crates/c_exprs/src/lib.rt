//! Expressions, types and declarators, read from the front of the tokens. There is one function for each nonterminal of the
//! grammar. They call each other, so they are one cycle. `left` is how many counted parts may still be entered.
#![tactic(auto)]

pub mod declarators;
pub mod exprs;
pub mod types;
