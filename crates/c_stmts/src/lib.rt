//! Declarations and statements, read from the front of the tokens. There is one function for each nonterminal of the
//! grammar. `left` is how many counted parts may still be entered.
#![tactic(auto)]

pub mod decls;
pub mod stmts;
