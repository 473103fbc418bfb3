//! What an operation makes of typed operands: the typed whole, or its fault. No syntax and no state.
#![tactic(auto)]

mod access;
mod arithmetic;
mod assign;
mod calls;
mod compare;
mod constants;
mod fault;
mod intrinsics;
mod logic;
mod nodes;
mod pointers;
mod values;

pub use access::{address, cast, member, size_of};
pub use arithmetic::{binary, negated, shifted, unary};
pub use assign::{assigned, assigned_by, stepped};
pub use calls::{Arg, called};
pub use compare::{equated, ordered};
pub use constants::{array_length, integer_constant};
pub use fault::{TypeFault, at};
pub use intrinsics::{Intrinsic, intrinsic_called};
pub use logic::{both_or_either, chosen, in_order, switch_value, test};
pub use nodes::{character, constant_node, node, null_node, number, size_node};
pub use pointers::{added, dereferenced, element, subtracted};
pub use values::{converted_to, fitted, valued};
