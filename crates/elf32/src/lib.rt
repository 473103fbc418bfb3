//! ELF32 files for Arm: their fields, structures and tables (System V ABI, Object Files; ELF for the Arm Architecture).
#![tactic(auto)]

ghost use Rattle.std.specs.Prelude.{◌≡◌, ◌+◌, ◌≤◌, ◌++◌, ◌↔◌, length, IsSome, OnOk, OnErr};
ghost use Rattle.cm_base.specs.LittleEndian.{le16, le32};
ghost use Rattle.elf32.specs.Fields.{field16, field32};

mod constants;
mod structures;
mod tables;

use cm_base::{Bytes, NoMemory};
pub use constants::{
    EF_ARM_EABI_VER5, ELF_MAGIC, ELFCLASS32, ELFDATA2LSB, EM_ARM, ET_EXEC, ET_NONE, ET_REL,
    EV_CURRENT, HEADER_SIZE, PF_R, PF_X, PROGRAM_HEADER_SIZE, PT_LOAD, SECTION_HEADER_SIZE,
    SHN_ABS, SHN_UNDEF, SHT_NULL, SHT_STRTAB, SHT_SYMTAB, STB_GLOBAL, STT_FUNC, SYMBOL_SIZE,
};
pub use structures::{
    ARM_HEADER, FileHeader, NULL_SECTION, NULL_SYMBOL, ProgramHeader, SectionHeader, Symbol,
    absolute_function, put_header, put_program_header, put_section_header, put_symbol,
};
pub use tables::{
    SECTION_NAMES, SECTION_NAMES_SIZE, SymbolTable, Tables, aligned, padding, put_padded,
    put_section_headers, put_table_sections,
};

/// The 16-bit field at an offset. None comes exactly where it isn't whole in the bytes.
pub fn get16(bytes: &[u8], at: u32) -> Option<u16>
    ensures value { result ≡ field16 bytes.now at }
    ensures whole { IsSome result ↔ (at + 2 ≤ length bytes.now) }
{
    match bytes.get(at as usize..)? {
        [a, b, ..] => Some(u16::from_le_bytes([*a, *b])),
        _ => None,
    }
}

/// The 32-bit field at an offset. None comes exactly where it isn't whole in the bytes.
pub fn get32(bytes: &[u8], at: u32) -> Option<u32>
    ensures value { result ≡ field32 bytes.now at }
    ensures whole { IsSome result ↔ (at + 4 ≤ length bytes.now) }
{
    match bytes.get(at as usize..)? {
        [a, b, c, d, ..] => Some(u32::from_le_bytes([*a, *b, *c, *d])),
        _ => None,
    }
}

/// Appends a 16-bit field.
pub fn put16(to: &mut Bytes, value: u16) -> Result<(), NoMemory>
    ensures ok { OnOk result (to.new ≡ to.old ++ le16 value) }
    ensures err { OnErr result (to.new ≡ to.old) }
{
    let half = value.to_le_bytes();
    to.extend_from_slice(&half)
}

/// Appends a 32-bit field.
pub fn put32(to: &mut Bytes, value: u32) -> Result<(), NoMemory>
    ensures ok { OnOk result (to.new ≡ to.old ++ le32 value) }
    ensures err { OnErr result (to.new ≡ to.old) }
{
    let word = value.to_le_bytes();
    to.extend_from_slice(&word)
}
