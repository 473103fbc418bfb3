//! The linker: objects are read and placed, the symbols that they define are found, relocations are resolved, and with the vector table
//! and the veneers the Secure ROM of a program is made (ELF for the Arm Architecture, Relocation; ECM0359818, Secure gateway veneers).
#![tactic(auto)]

mod define;
mod driver;
mod gates;
mod names;
mod parts;
mod place;
mod relocation;
mod text;

pub use driver::{Linked, link};
pub use relocation::resolve;
pub use text::linked_text;
