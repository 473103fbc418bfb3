//! Writing an import library.
ghost use Rattle.std.specs.Prelude.{◌≡◌, ◌+◌, ◌%◌, ◌<◌, ◌^◌, ◌++◌, length, All, IfOk};
ghost use Rattle.elf32.specs.Structures.{header_bytes};
ghost use Rattle.elf32.specs.Tables.{names_of, symbol_table, string_table, section_names, table_sections_bytes, padded};
ghost use Rattle.import_lib.specs.Library.{symbols_of, library_of, CanWrite};

use cm_base::{Bytes, NoMemory};
use elf32::{
    ARM_HEADER, ET_REL, FileHeader, HEADER_SIZE, SECTION_NAMES, SECTION_NAMES_SIZE, SymbolTable,
    Tables, absolute_function, aligned, put_header, put_padded, put_table_sections,
};
use ns_types::{Veneer, Veneers};
use std::alloc::Global;

/// The size of a veneer: an SG and a B.W.
const VENEER_SIZE: u32 = 8;

/// Where the symbol table stands: behind the header.
const SYMBOLS_AT: u32 = HEADER_SIZE as u32;

/// The symbols of the veneers and their names.
#[tactic(auto, unfolding(elf32::specs::Tables::symbol_table))]
fn table_of(alloc: Global, veneers: &[Veneer]) -> Result<SymbolTable, NoMemory>
    requires even { All (λ v. v.address % 2 ≡ 0) veneers.now }
    requires fits { length (string_table (names_of (symbols_of veneers.now))) < 2 ^ 32 }
    ensures symbols { IfOk result (λ table. table.symbols ≡ symbol_table (symbols_of veneers.now)) }
    ensures strings { IfOk result (λ table. table.strings ≡ string_table (names_of (symbols_of veneers.now))) }
{
    let mut table = SymbolTable::new(alloc)?;
    for veneer in veneers {
        let symbol = absolute_function(veneer.address + 1, VENEER_SIZE);
        table.push(veneer.name.as_slice(), &symbol)?;
    }
    Ok(table)
}

/// A file of its parts in their order.
fn joined(
    alloc: Global,
    header: &FileHeader,
    table: &SymbolTable,
    tables: &Tables,
) -> Result<Bytes, NoMemory>
    requires { tables.now.names_at + length section_names < 2 ^ 32 }
    ensures { IfOk result (λ file. file ≡ header_bytes header.now
        ++ (table.now.symbols ++ (table.now.strings
        ++ (padded tables.now.names_at section_names ++ table_sections_bytes tables.now)))) }
{
    let mut file = Bytes::new(alloc);
    put_header(&mut file, header)?;
    file.extend_from_slice(table.symbols.as_slice())?;
    file.extend_from_slice(table.strings.as_slice())?;
    put_padded(&mut file, tables.names_at, SECTION_NAMES)?;
    put_table_sections(&mut file, tables)?;
    Ok(file)
}

/// The import library of these veneers.
#[tactic(auto, using(elf32::proofs::TableLaws::aligned_least))]
pub fn write_implib(alloc: Global, veneers: &Veneers) -> Result<Bytes, NoMemory>
    requires { CanWrite veneers.now.list }
    ensures { IfOk result (λ file. file ≡ library_of veneers.now.list) }
{
    let table = table_of(alloc, veneers.list.as_slice())?;
    let symbols_size = table.symbols.len() as u32;
    let strings_at = SYMBOLS_AT + symbols_size;
    let strings_size = table.strings.len() as u32;
    let names_at = strings_at + strings_size;
    let tables = Tables {
        symbols_at: SYMBOLS_AT,
        symbols_size,
        strings_at,
        strings_size,
        names_at,
    };
    let header = FileHeader {
        e_type: ET_REL,
        e_shoff: aligned(names_at + SECTION_NAMES_SIZE),
        e_shnum: 4,
        e_shstrndx: 3,
        ..ARM_HEADER
    };
    joined(alloc, &header, &table, &tables)
}
