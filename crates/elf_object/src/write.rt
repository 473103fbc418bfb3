//! Writing an object's file.
ghost use Rattle.std.specs.Prelude.{◌≡◌, ◌+◌, ◌<◌, ◌^◌, ◌++◌, length, All, IfOk, OnOk};
ghost use Rattle.elf32.specs.Tables.{names_of, symbol_table, string_table, padded};
ghost use Rattle.elf_object.specs.Structures.{rel_of, relocs_bytes, symbol_of, symbols_of};
ghost use Rattle.elf_object.specs.Layout.{section_names};
ghost use Rattle.elf_object.specs.File.{object_file, CanWrite};

use crate::elf::{Rel, STT_NOTYPE, put_rel};
use crate::layout::{Layout, SECTION_NAMES, layout_of, object_header, put_sections};
use crate::object::{Home, Object, Reloc, Symbol};
use cm_base::{Bytes, NoMemory};
use elf32::{SHN_ABS, SHN_UNDEF, STB_GLOBAL, STT_FUNC, SymbolTable, put_header, put_padded};
use std::alloc::Global;

/// The entry of a relocation.
fn rel_of(reloc: &Reloc) -> Rel
    requires { reloc.now.symbol < 16777215 }
    ensures { result ≡ rel_of reloc.now }
{
    Rel {
        r_offset: reloc.at,
        r_info: 256 * (reloc.symbol + 1) + u32::from(reloc.kind),
    }
}

/// The relocation entries.
fn relocs_of(alloc: Global, relocs: &[Reloc]) -> Result<Bytes, NoMemory>
    requires { All (λ r. r.symbol < 16777215) relocs.now }
    ensures { IfOk result (λ bytes. bytes ≡ relocs_bytes relocs.now) }
{
    let mut bytes = Bytes::new(alloc);
    for reloc in relocs {
        put_rel(&mut bytes, &rel_of(reloc))?;
    }
    Ok(bytes)
}

/// The ELF symbol of a symbol, whose name isn't placed yet.
fn symbol_of(symbol: &Symbol) -> elf32::Symbol
    ensures { result ≡ (symbol_of symbol.now).1 }
{
    let (kind, st_shndx) = match symbol.home {
        Home::Undefined => (STT_NOTYPE, SHN_UNDEF),
        Home::Text => (STT_FUNC, 1),
        Home::Init => (STT_NOTYPE, 2),
        Home::Absolute => (STT_NOTYPE, SHN_ABS),
    };
    elf32::Symbol {
        st_name: 0,
        st_value: symbol.value,
        st_size: 0,
        st_info: 16 * STB_GLOBAL + kind,
        st_other: 0,
        st_shndx,
    }
}

/// The symbols and their names.
#[tactic(auto, unfolding(elf32::specs::Tables::symbol_table))]
fn table_of(alloc: Global, symbols: &[Symbol]) -> Result<SymbolTable, NoMemory>
    requires { length (string_table (names_of (symbols_of symbols.now))) < 2 ^ 32 }
    ensures symbols { IfOk result (λ table. table.symbols ≡ symbol_table (symbols_of symbols.now)) }
    ensures strings { IfOk result (λ table. table.strings ≡ string_table (names_of (symbols_of symbols.now))) }
{
    let mut table = SymbolTable::new(alloc)?;
    for symbol in symbols {
        let placed = symbol_of(symbol);
        table.push(symbol.name.as_slice(), &placed)?;
    }
    Ok(table)
}

/// Appends the contents of the sections.
fn put_contents(
    to: &mut Bytes,
    object: &Object,
    relocs: &Bytes,
    table: &SymbolTable,
    layout: &Layout,
) -> Result<(), NoMemory>
    requires text { layout.now.text.at + length object.now.text < 2 ^ 32 }
    requires init { layout.now.init.at + length object.now.init < 2 ^ 32 }
    requires relocs { layout.now.relocs.at + length relocs.now < 2 ^ 32 }
    requires symbols { layout.now.symbols.at + length table.now.symbols < 2 ^ 32 }
    requires strings { layout.now.strings.at + length table.now.strings < 2 ^ 32 }
    requires names { layout.now.names.at + length section_names < 2 ^ 32 }
    ensures { OnOk result (to.new ≡ to.old ++ (padded layout.now.text.at object.now.text
        ++ (padded layout.now.init.at object.now.init
        ++ (padded layout.now.relocs.at relocs.now
        ++ (padded layout.now.symbols.at table.now.symbols
        ++ (padded layout.now.strings.at table.now.strings
        ++ padded layout.now.names.at section_names)))))) }
{
    put_padded(to, layout.text.at, object.text.as_slice())?;
    put_padded(to, layout.init.at, object.init.as_slice())?;
    put_padded(to, layout.relocs.at, relocs.as_slice())?;
    put_padded(to, layout.symbols.at, table.symbols.as_slice())?;
    put_padded(to, layout.strings.at, table.strings.as_slice())?;
    put_padded(to, layout.names.at, SECTION_NAMES)
}

/// The file of an object. It has fewer than 2^32 bytes; there are at most 16,777,215 symbols; each relocation has one of the
/// five kinds, a symbol of the object, and four bytes of the text at its place; names have no zero byte.
#[tactic(auto, using(crate::proofs::LayoutLaws::parts_end))]
pub fn write_object(alloc: Global, object: &Object) -> Result<Bytes, NoMemory>
    requires { CanWrite object.now }
    ensures { IfOk result (λ file. file ≡ object_file object.now) }
{
    let relocs = relocs_of(alloc, object.relocs.as_slice())?;
    let table = table_of(alloc, object.symbols.as_slice())?;
    let text_size = object.text.len() as u32;
    let init_size = object.init.len() as u32;
    let relocs_size = relocs.len() as u32;
    let symbols_size = table.symbols.len() as u32;
    let strings_size = table.strings.len() as u32;
    let layout = layout_of(
        text_size,
        init_size,
        relocs_size,
        symbols_size,
        strings_size,
    );
    let mut file = Bytes::new(alloc);
    put_header(&mut file, &object_header(layout.sections_at))?;
    put_contents(&mut file, object, &relocs, &table, &layout)?;
    put_sections(&mut file, &layout)?;
    Ok(file)
}
