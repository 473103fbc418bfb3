//! What object files have beyond symbols: the relocation entry and its kinds, and constants of their sections.
ghost use Rattle.std.specs.Prelude.{◌≡◌, ◌++◌, OnOk};
ghost use Rattle.elf_object.specs.Structures.{rel_bytes};

use cm_base::{Bytes, NoMemory};
use elf32::put32;

/// sh_type: bytes that the program defines.
pub const SHT_PROGBITS: u32 = 1;

/// sh_type: relocation entries without addends.
pub const SHT_REL: u32 = 9;

/// sh_flags: a section that takes memory when the program runs.
pub const SHF_ALLOC: u32 = 0x2;

/// sh_flags: a section that is executed.
pub const SHF_EXECINSTR: u32 = 0x4;

/// The type of a symbol that says nothing of what it stands for.
pub const STT_NOTYPE: u8 = 0;

/// The size of a relocation entry.
pub const REL_SIZE: u32 = 8;

/// The word is the symbol's place.
pub const R_ARM_ABS32: u8 = 2;

/// The BL goes to the symbol's place.
pub const R_ARM_THM_CALL: u8 = 10;

/// The B.W goes to the symbol's place.
pub const R_ARM_THM_JUMP24: u8 = 30;

/// The number of the MOVW is the lower half of the symbol's place.
pub const R_ARM_THM_MOVW_ABS_NC: u8 = 47;

/// The number of the MOVT is the upper half of the symbol's place.
pub const R_ARM_THM_MOVT_ABS: u8 = 48;

/// A relocation entry without an addend.
#[derive(Clone, Copy)]
pub struct Rel {
    pub r_offset: u32,
    pub r_info: u32,
}

/// Appends a relocation entry.
#[tactic(auto, unfolding(crate::specs::Structures::rel_bytes))]
pub fn put_rel(to: &mut Bytes, r: &Rel) -> Result<(), NoMemory>
    ensures { OnOk result (to.new ≡ to.old ++ rel_bytes r.now) }
{
    put32(to, r.r_offset)?;
    put32(to, r.r_info)
}
