//! The linker: where Secure gateway veneers stand, and with them the Secure ROM of a program's objects (ECM0359818, Secure
//! gateway veneers; ELF for the Arm Architecture, Relocation).
#![tactic(auto)]

mod fault;
mod lists;
mod placing;

pub use fault::LinkFault;
pub use placing::assign;
