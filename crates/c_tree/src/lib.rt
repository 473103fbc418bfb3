//! The typed tree of a program. Its nodes are shared, and its value holds no pointers.
#![tactic(auto)]

mod depth;
mod expr;
mod frame;
mod globals;
mod marks;
mod nodes;
mod program;
mod stmt;

pub use depth::function_depth;
pub use expr::{BinOp, Expr, ExprKind, UnOp};
pub use frame::{placed_bytes, slots};
pub use globals::globals_bytes;
pub use nodes::{function_nodes, program_nodes};
pub use program::{Extern, Program, TFunction, TGlobal, TLocal, TUnit};
pub use stmt::{Item, Part, Stmt};
