//! The syntax tree of a source's tokens. There is one function for each nonterminal of the grammar, and it reads what
//! that derives from the front of the tokens. `left` is how many counted parts may still be entered.
#![tactic(auto)]

mod names;
pub mod parser;
mod units;

pub use parser::{MAX_NESTING, SyntaxFault, parse};
