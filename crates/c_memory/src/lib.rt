//! The memory of a C program as bytes: its own reads and writes, and those of Non-secure code.
#![tactic(auto)]

mod access;
mod bytes;
mod flat;

pub use access::{align, is_in_ns_rom, is_nonsecure, is_secure};
pub use bytes::word_at;
pub use flat::Flat;
