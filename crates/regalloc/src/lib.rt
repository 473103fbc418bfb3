//! A place for each variable of a function.
#![tactic(auto)]

mod frame;

pub use frame::allocate;
