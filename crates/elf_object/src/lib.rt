//! Objects: what a unit of a program is compiled to, and their files (System V ABI, Object Files; ELF for the Arm
//! Architecture, Relocation).
#![tactic(auto)]

mod elf;
mod fits;
mod layout;
mod object;
mod read;
mod write;

pub use elf::{
    R_ARM_ABS32, R_ARM_THM_CALL, R_ARM_THM_JUMP24, R_ARM_THM_MOVT_ABS, R_ARM_THM_MOVW_ABS_NC, Rel,
};
pub use fits::is_writable;
pub use layout::{Extent, Layout};
pub use object::{Home, Object, Reloc, Sited, Symbol};
pub use read::{ElfFault, read_object};
pub use write::write_object;
