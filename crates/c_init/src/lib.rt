//! Initialisers: the elements that they set of an object, and the bytes that a global begins with.
#![tactic(auto)]

mod blanks;
mod first_bytes;
mod initial;
mod parts;
mod strings;

pub use first_bytes::contents;
pub use initial::{Initialised, initialise};
pub use parts::{Parts, Slot};
