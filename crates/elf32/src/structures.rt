//! The structures of an ELF32 file (System V ABI, Object Files). A field has its name there.
ghost use Rattle.std.specs.Prelude.{◌≡◌, ◌++◌, flat_map, OnOk};
ghost use Rattle.cm_base.specs.LittleEndian.{le16, le32};
ghost use Rattle.elf32.specs.Structures.{header_bytes, program_header_bytes, section_header_bytes, symbol_bytes, absolute_function};

use crate::constants::{
    EF_ARM_EABI_VER5, EM_ARM, ET_NONE, EV_CURRENT, HEADER_SIZE, SECTION_HEADER_SIZE, SHN_ABS,
    SHN_UNDEF, SHT_NULL, STB_GLOBAL, STT_FUNC,
};
use crate::{put16, put32};
use cm_base::{Bytes, NoMemory};

/// The ELF header.
#[derive(Clone, Copy)]
pub struct FileHeader {
    pub e_type: u16,
    pub e_machine: u16,
    pub e_version: u32,
    pub e_entry: u32,
    pub e_phoff: u32,
    pub e_shoff: u32,
    pub e_flags: u32,
    pub e_ehsize: u16,
    pub e_phentsize: u16,
    pub e_phnum: u16,
    pub e_shentsize: u16,
    pub e_shnum: u16,
    pub e_shstrndx: u16,
}

/// A program header.
#[derive(Clone, Copy)]
pub struct ProgramHeader {
    pub p_type: u32,
    pub p_offset: u32,
    pub p_vaddr: u32,
    pub p_paddr: u32,
    pub p_filesz: u32,
    pub p_memsz: u32,
    pub p_flags: u32,
    pub p_align: u32,
}

/// A section header.
#[derive(Clone, Copy)]
pub struct SectionHeader {
    pub sh_name: u32,
    pub sh_type: u32,
    pub sh_flags: u32,
    pub sh_addr: u32,
    pub sh_offset: u32,
    pub sh_size: u32,
    pub sh_link: u32,
    pub sh_info: u32,
    pub sh_addralign: u32,
    pub sh_entsize: u32,
}

/// A symbol.
#[derive(Clone, Copy)]
pub struct Symbol {
    pub st_name: u32,
    pub st_value: u32,
    pub st_size: u32,
    pub st_info: u8,
    pub st_other: u8,
    pub st_shndx: u16,
}

/// The header of a file for Arm that has no type, no entry and no table yet.
pub const ARM_HEADER: FileHeader = FileHeader {
    e_type: ET_NONE,
    e_machine: EM_ARM,
    e_version: EV_CURRENT,
    e_entry: 0,
    e_phoff: 0,
    e_shoff: 0,
    e_flags: EF_ARM_EABI_VER5,
    e_ehsize: HEADER_SIZE,
    e_phentsize: 0,
    e_phnum: 0,
    e_shentsize: SECTION_HEADER_SIZE,
    e_shnum: 0,
    e_shstrndx: 0,
};

/// The section header 0.
pub const NULL_SECTION: SectionHeader = SectionHeader {
    sh_name: 0,
    sh_type: SHT_NULL,
    sh_flags: 0,
    sh_addr: 0,
    sh_offset: 0,
    sh_size: 0,
    sh_link: 0,
    sh_info: 0,
    sh_addralign: 0,
    sh_entsize: 0,
};

/// The symbol 0.
pub const NULL_SYMBOL: Symbol = Symbol {
    st_name: 0,
    st_value: 0,
    st_size: 0,
    st_info: 0,
    st_other: 0,
    st_shndx: SHN_UNDEF,
};

/// e_ident: the magic, 32 bits, the byte of least worth first, and the version.
const IDENTIFICATION: &[u8] = b"\x7fELF\x01\x01\x01\0\0\0\0\0\0\0\0\0";

/// A global function at an absolute address, whose name isn't placed yet.
pub fn absolute_function(st_value: u32, st_size: u32) -> Symbol
    ensures { result ≡ absolute_function st_value st_size }
{
    Symbol {
        st_name: 0,
        st_value,
        st_size,
        st_info: 16 * STB_GLOBAL + STT_FUNC,
        st_other: 0,
        st_shndx: SHN_ABS,
    }
}

/// Appends 16-bit fields.
fn put_halves(to: &mut Bytes, fields: &[u16]) -> Result<(), NoMemory>
    ensures { OnOk result (to.new ≡ to.old ++ flat_map le16 fields.now) }
{
    for field in fields {
        put16(to, *field)?;
    }
    Ok(())
}

/// Appends 32-bit fields.
fn put_words(to: &mut Bytes, fields: &[u32]) -> Result<(), NoMemory>
    ensures { OnOk result (to.new ≡ to.old ++ flat_map le32 fields.now) }
{
    for field in fields {
        put32(to, *field)?;
    }
    Ok(())
}

/// Appends an ELF header.
#[tactic(auto, unfolding(crate::specs::Structures::header_bytes))]
pub fn put_header(to: &mut Bytes, h: &FileHeader) -> Result<(), NoMemory>
    ensures { OnOk result (to.new ≡ to.old ++ header_bytes h.now) }
{
    to.extend_from_slice(IDENTIFICATION)?;
    put_halves(to, &[h.e_type, h.e_machine])?;
    put_words(
        to,
        &[h.e_version, h.e_entry, h.e_phoff, h.e_shoff, h.e_flags],
    )?;
    put_halves(
        to,
        &[
            h.e_ehsize,
            h.e_phentsize,
            h.e_phnum,
            h.e_shentsize,
            h.e_shnum,
            h.e_shstrndx,
        ],
    )
}

/// Appends a program header.
#[tactic(auto, unfolding(crate::specs::Structures::program_header_bytes))]
pub fn put_program_header(to: &mut Bytes, p: &ProgramHeader) -> Result<(), NoMemory>
    ensures { OnOk result (to.new ≡ to.old ++ program_header_bytes p.now) }
{
    put_words(
        to,
        &[
            p.p_type, p.p_offset, p.p_vaddr, p.p_paddr, p.p_filesz, p.p_memsz, p.p_flags, p.p_align,
        ],
    )
}

/// Appends a section header.
#[tactic(auto, unfolding(crate::specs::Structures::section_header_bytes))]
pub fn put_section_header(to: &mut Bytes, s: &SectionHeader) -> Result<(), NoMemory>
    ensures { OnOk result (to.new ≡ to.old ++ section_header_bytes s.now) }
{
    put_words(
        to,
        &[s.sh_name, s.sh_type, s.sh_flags, s.sh_addr, s.sh_offset],
    )?;
    put_words(
        to,
        &[
            s.sh_size,
            s.sh_link,
            s.sh_info,
            s.sh_addralign,
            s.sh_entsize,
        ],
    )
}

/// Appends a symbol.
#[tactic(auto, unfolding(crate::specs::Structures::symbol_bytes))]
pub fn put_symbol(to: &mut Bytes, s: &Symbol) -> Result<(), NoMemory>
    ensures { OnOk result (to.new ≡ to.old ++ symbol_bytes s.now) }
{
    put_words(to, &[s.st_name, s.st_value, s.st_size])?;
    to.push(s.st_info)?;
    to.push(s.st_other)?;
    put16(to, s.st_shndx)
}
