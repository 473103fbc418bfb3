//! What linked objects make, and laws on it: the Secure ROM holds the objects, and each veneer leads to its entry's code (ECM0359818,
//! Secure gateway veneers; ELF for the Arm Architecture, Relocation).
#![tactic(auto)]

pub mod laws;
