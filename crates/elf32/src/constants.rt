//! The constants of ELF (System V ABI, Object Files) and of ELF for the Arm Architecture, by their names.

/// The first four bytes of e_ident, as the word at 0.
pub const ELF_MAGIC: u32 = 0x464c_457f;

/// e_ident: the class of 32 bits.
pub const ELFCLASS32: u8 = 1;

/// e_ident: the byte of least worth first.
pub const ELFDATA2LSB: u8 = 1;

/// e_type: no type.
pub const ET_NONE: u16 = 0;

/// e_type: an object file.
pub const ET_REL: u16 = 1;

/// e_type: an executable file.
pub const ET_EXEC: u16 = 2;

pub const EM_ARM: u16 = 40;

pub const EV_CURRENT: u32 = 1;

/// e_flags: the fifth version of the Arm ABI.
pub const EF_ARM_EABI_VER5: u32 = 0x0500_0000;

/// The size of the ELF header.
pub const HEADER_SIZE: u16 = 52;

pub const PROGRAM_HEADER_SIZE: u16 = 32;

pub const SECTION_HEADER_SIZE: u16 = 40;

pub const SYMBOL_SIZE: u32 = 16;

/// p_type: a segment that is loaded.
pub const PT_LOAD: u32 = 1;

/// p_flags: a segment that is executed.
pub const PF_X: u32 = 0x1;

/// p_flags: a segment that is read.
pub const PF_R: u32 = 0x4;

pub const SHT_NULL: u32 = 0;

pub const SHT_SYMTAB: u32 = 2;

pub const SHT_STRTAB: u32 = 3;

/// The binding of a symbol that other files see.
pub const STB_GLOBAL: u8 = 1;

/// The type of a symbol that is a function.
pub const STT_FUNC: u8 = 2;

/// st_shndx: no section.
pub const SHN_UNDEF: u16 = 0;

/// st_shndx: a value that isn't moved.
pub const SHN_ABS: u16 = 0xfff1;
