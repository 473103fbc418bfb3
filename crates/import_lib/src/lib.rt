//! Import libraries: the symbols of the Secure gateway veneers, as Non-secure software links against them
//! (ECM0359818, Import library).
#![tactic(auto)]

pub mod laws;
mod names;
mod read;
mod write;

pub use read::{ImplibFault, read_implib};
pub use write::write_implib;
