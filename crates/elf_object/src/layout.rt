//! Where the parts of an object's file stand.
ghost use Rattle.std.specs.Prelude.{◌≡◌, ◌+◌, ◌<◌, ◌^◌, ◌++◌, OnOk};
ghost use Rattle.elf32.specs.Tables.{aligned};
ghost use Rattle.elf_object.specs.Layout.{behind, layout_of, object_header, section, sections_bytes};

use crate::elf::{REL_SIZE, SHF_ALLOC, SHF_EXECINSTR, SHT_PROGBITS, SHT_REL};
use cm_base::{Bytes, NoMemory};
use elf32::{
    ARM_HEADER, ET_REL, FileHeader, HEADER_SIZE, NULL_SECTION, SHT_STRTAB, SHT_SYMTAB, SYMBOL_SIZE,
    SectionHeader, aligned, put_section_headers,
};

/// A part of a file: where it begins, and its size.
#[derive(Clone, Copy)]
pub struct Extent {
    pub at: u32,
    pub size: u32,
}

/// The parts of an object's file, and where the section headers begin.
#[derive(Clone, Copy)]
pub struct Layout {
    pub text: Extent,
    pub init: Extent,
    pub relocs: Extent,
    pub symbols: Extent,
    pub strings: Extent,
    pub names: Extent,
    pub sections_at: u32,
}

/// The names of the sections of an object's file.
pub const SECTION_NAMES: &[u8] = b"\0.text\0.init\0.rel.text\0.symtab\0.strtab\0.shstrtab\0";

/// The size of these names.
const SECTION_NAMES_SIZE: u32 = 49;

/// The part of this size that begins at the first multiple of 4 behind another part.
#[tactic(auto, using(elf32::proofs::TableLaws::aligned_least))]
fn behind(before: &Extent, size: u32) -> Extent
    requires { aligned (before.now.at + before.now.size) < 2 ^ 32 }
    ensures { result ≡ behind before.now size }
{
    Extent {
        at: aligned(before.at + before.size),
        size,
    }
}

/// Where parts of these sizes stand.
#[tactic(auto, unfolding(crate::specs::Layout::layout_of), using(elf32::proofs::TableLaws::aligned_least))]
pub fn layout_of(text: u32, init: u32, relocs: u32, symbols: u32, strings: u32) -> Layout
    requires { (layout_of text init relocs symbols strings).sections_at < 2 ^ 32 }
    ensures { result ≡ layout_of text init relocs symbols strings }
{
    let text = Extent {
        at: HEADER_SIZE as u32,
        size: text,
    };
    let init = behind(&text, init);
    let relocs = behind(&init, relocs);
    let symbols = behind(&relocs, symbols);
    let strings = behind(&symbols, strings);
    let names = behind(&strings, SECTION_NAMES_SIZE);
    Layout {
        text,
        init,
        relocs,
        symbols,
        strings,
        names,
        sections_at: aligned(names.at + names.size),
    }
}

/// The header of an object's file whose section headers begin at this offset.
pub fn object_header(sections_at: u32) -> FileHeader
    ensures { result ≡ object_header sections_at }
{
    FileHeader {
        e_type: ET_REL,
        e_shoff: sections_at,
        e_shnum: 7,
        e_shstrndx: 6,
        ..ARM_HEADER
    }
}

/// Appends the section headers of an object's file.
#[tactic(auto, unfolding(crate::specs::Layout::sections_bytes))]
pub fn put_sections(to: &mut Bytes, l: &Layout) -> Result<(), NoMemory>
    ensures { OnOk result (to.new ≡ to.old ++ sections_bytes l.now) }
{
    let text = SectionHeader {
        sh_flags: SHF_ALLOC + SHF_EXECINSTR,
        ..section(1, SHT_PROGBITS, &l.text, 4)
    };
    let init = SectionHeader {
        sh_flags: SHF_ALLOC,
        ..section(7, SHT_PROGBITS, &l.init, 4)
    };
    let relocs = SectionHeader {
        sh_link: 4,
        sh_info: 1,
        sh_entsize: REL_SIZE,
        ..section(13, SHT_REL, &l.relocs, 4)
    };
    let symbols = SectionHeader {
        sh_link: 5,
        sh_info: 1,
        sh_entsize: SYMBOL_SIZE,
        ..section(23, SHT_SYMTAB, &l.symbols, 4)
    };
    let strings = section(31, SHT_STRTAB, &l.strings, 1);
    let names = section(39, SHT_STRTAB, &l.names, 1);
    put_section_headers(
        to,
        &[NULL_SECTION, text, init, relocs, symbols, strings, names],
    )
}

/// The header of a section: where its name begins, its type, its part of the file, and its alignment.
fn section(sh_name: u32, sh_type: u32, part: &Extent, sh_addralign: u32) -> SectionHeader
    ensures { result ≡ section sh_name sh_type part.now sh_addralign }
{
    SectionHeader {
        sh_name,
        sh_type,
        sh_offset: part.at,
        sh_size: part.size,
        sh_addralign,
        ..NULL_SECTION
    }
}
