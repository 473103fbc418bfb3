//! Where objects of a C program stand: its globals in Secure data, and placed parameters and locals in blocks of the data
//! stack.
#![tactic(auto)]

mod block;
mod globals;
mod marks;

pub use block::{Block, block_of};
pub use globals::{bytes_of, contents, data_stack, homes};
