//! Symbol tables with their string tables, the section headers of a file that has symbols alone, and the padding of parts.
ghost use Rattle.std.specs.Prelude.{◌≡◌, ◌+◌, ◌%◌, ◌^◌, ◌<◌, ◌≤◌, [], ◌∷◌, ◌++◌, length, replicate, flat_map, IfOk, OnOk};
ghost use Rattle.elf32.specs.Structures.{symbol_bytes, section_header_bytes, null_symbol};
ghost use Rattle.elf32.specs.Tables.{with_name_at, table_sections_bytes, padding, aligned, padded};

use crate::constants::{SHT_STRTAB, SHT_SYMTAB, SYMBOL_SIZE};
use crate::structures::{
    NULL_SECTION, NULL_SYMBOL, SectionHeader, Symbol, put_section_header, put_symbol,
};
use cm_base::{Bytes, NoMemory};
use std::alloc::Global;

/// A symbol table, and the string table of its names.
#[derive(Drop)]
pub struct SymbolTable {
    pub symbols: Bytes,
    pub strings: Bytes,
}

impl SymbolTable {
    /// The null symbol and the empty name.
    pub fn new(alloc: Global) -> Result<SymbolTable, NoMemory>
        ensures symbols { IfOk result (λ table. table.symbols ≡ symbol_bytes null_symbol) }
        ensures strings { IfOk result (λ table. table.strings ≡ 0 ∷ []) }
    {
        let mut symbols = Bytes::new(alloc);
        put_symbol(&mut symbols, &NULL_SYMBOL)?;
        let mut strings = Bytes::new(alloc);
        strings.push(0)?;
        Ok(SymbolTable { symbols, strings })
    }

    /// Adds a symbol of a name, whatever its st_name is.
    pub fn push(&mut self, name: &[u8], symbol: &Symbol) -> Result<(), NoMemory>
        requires { length self.old.strings < 2 ^ 32 }
        ensures symbols { OnOk result (self.new.symbols
            ≡ self.old.symbols ++ symbol_bytes (with_name_at (length self.old.strings) symbol.now)) }
        ensures strings { OnOk result (self.new.strings ≡ self.old.strings ++ (name.now ++ 0 ∷ [])) }
    {
        let placed = Symbol {
            st_name: self.strings.len() as u32,
            ..*symbol
        };
        put_symbol(&mut self.symbols, &placed)?;
        self.strings.extend_from_slice(name)?;
        self.strings.push(0)
    }
}

/// Where the tables of a file stand, and the sizes of those that differ.
#[derive(Clone, Copy)]
pub struct Tables {
    pub symbols_at: u32,
    pub symbols_size: u32,
    pub strings_at: u32,
    pub strings_size: u32,
    /// Where the names of the sections stand.
    pub names_at: u32,
}

/// The names of the sections of a file that has symbols alone.
pub const SECTION_NAMES: &[u8] = b"\0.symtab\0.strtab\0.shstrtab\0";

/// The size of these names.
pub const SECTION_NAMES_SIZE: u32 = 27;

/// Appends section headers.
pub fn put_section_headers(to: &mut Bytes, headers: &[SectionHeader]) -> Result<(), NoMemory>
    ensures { OnOk result (to.new ≡ to.old ++ flat_map section_header_bytes headers.now) }
{
    for header in headers {
        put_section_header(to, header)?;
    }
    Ok(())
}

/// Appends the section headers of a file that has symbols alone: null, .symtab, .strtab and .shstrtab.
#[tactic(auto, unfolding(crate::specs::Tables::table_sections_bytes))]
pub fn put_table_sections(to: &mut Bytes, tables: &Tables) -> Result<(), NoMemory>
    ensures { OnOk result (to.new ≡ to.old ++ table_sections_bytes tables.now) }
{
    let symbols = SectionHeader {
        sh_name: 1,
        sh_type: SHT_SYMTAB,
        sh_offset: tables.symbols_at,
        sh_size: tables.symbols_size,
        sh_link: 2,
        sh_info: 1,
        sh_addralign: 4,
        sh_entsize: SYMBOL_SIZE,
        ..NULL_SECTION
    };
    let strings = SectionHeader {
        sh_name: 9,
        sh_type: SHT_STRTAB,
        sh_offset: tables.strings_at,
        sh_size: tables.strings_size,
        sh_addralign: 1,
        ..NULL_SECTION
    };
    let names = SectionHeader {
        sh_name: 17,
        sh_type: SHT_STRTAB,
        sh_offset: tables.names_at,
        sh_size: SECTION_NAMES_SIZE,
        sh_addralign: 1,
        ..NULL_SECTION
    };
    put_section_headers(to, &[NULL_SECTION, symbols, strings, names])
}

/// How many zero bytes lead from an offset to the next multiple of 4.
#[tactic(auto, unfolding(crate::specs::Tables::padding))]
pub fn padding(at: u32) -> u32
    ensures value { result ≡ padding at }
    ensures less { result < 4 }
    ensures multiple { (at + result) % 4 ≡ 0 }
{
    (4 - at % 4) % 4
}

/// The first multiple of 4 that isn't below an offset.
#[tactic(auto, unfolding(crate::specs::Tables::aligned))]
pub fn aligned(at: u32) -> u32
    requires { aligned at < 2 ^ 32 }
    ensures value { result ≡ aligned at }
    ensures multiple { result % 4 ≡ 0 }
    ensures least { (at ≤ result) × (result < at + 4) }
{
    at + padding(at)
}

/// Appends n zero bytes.
fn put_zeros(to: &mut Bytes, n: u32) -> Result<(), NoMemory>
    ensures { OnOk result (to.new ≡ to.old ++ replicate n 0) }
{
    for _i in 0..n {
        to.push(0)?;
    }
    Ok(())
}

/// Appends a part of a file that stands at an offset, and zero bytes up to the next multiple of 4.
#[tactic(auto, unfolding(crate::specs::Tables::padded))]
pub fn put_padded(to: &mut Bytes, at: u32, part: &[u8]) -> Result<(), NoMemory>
    requires { at + length part.now < 2 ^ 32 }
    ensures { OnOk result (to.new ≡ to.old ++ padded at part.now) }
{
    let end = at + part.len() as u32;
    to.extend_from_slice(part)?;
    put_zeros(to, padding(end))
}
