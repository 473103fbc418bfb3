//! Tests of the linker: words of a linked Secure ROM, and what old libraries are refused for.
#![tactic(auto)]

mod program;
mod roms;
