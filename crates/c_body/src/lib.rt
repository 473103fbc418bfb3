//! Statements, blocks and bodies of functions: their typed trees, or their first fault in the order of the text: the walk over
//! the syntax tree of statements, with the tables of the unit.
#![tactic(auto)]

mod arms;
mod simple;
mod stmts;
mod within;

pub use arms::{Arms, Cases};
pub use simple::Head;
pub use stmts::body;
pub use within::Within;
