//! A law of relocations: in a linked text each of them is resolved, and all else stays (ELF for the Arm Architecture, Relocation).
#![tactic(auto)]

pub mod laws;
