//! The middle form of a program: functions over numbered variables, with loops, blocks and the operations of the
//! boundary. Its meaning goes behind the boundary of `ns_types` as that of the typed tree does.
#![tactic(auto)]

mod cost;
mod program;
mod stmt;

pub use cost::{function_cost, stmt_cost, stmt_count};
pub use program::{Mid, MidFn};
pub use stmt::{MidStmt, SetOp};
