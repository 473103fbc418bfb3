//! Tests whether objects can be linked, for those who don't know it of them: what `linker::link` asks of the objects and the entries
//! that it is given (ELF for the Arm Architecture, Relocation; ECM0359818, Secure gateway veneers).
#![tactic(auto)]

mod checked;
mod entries;
mod files;
mod names;
mod objects;

pub use checked::{are_linkable, checked_link};
