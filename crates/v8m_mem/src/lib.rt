//! Memory of the device: the bytes of all regions, reserved once, and accesses of 1, 2 or 4 bytes.
#![tactic(auto)]

mod access;
mod bytes;
mod memory;

pub use access::{can_read, can_write, is_in_ns_ram, is_in_rom, is_nonsecure, is_secure, target};
pub use memory::Memory;
