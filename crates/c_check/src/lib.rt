//! The typed tree of an expression, and the types that declarations name, or their first fault in the order of the text: the
//! walk over the syntax tree, with the tables of the unit.
#![tactic(auto)]

mod around;
mod exprs;
mod formed;
mod operands;
mod specified;
mod types;

pub use around::Around;
pub use exprs::{expr, value};
pub use formed::{Formed, attributed};
pub use operands::{Operand, What};
pub use specified::{Head, Specified};
pub use types::{form, specifiers, type_name};
