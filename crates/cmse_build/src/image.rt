//! The image of the Secure ROM: an executable ELF file for Arm.
ghost use Rattle.std.specs.Prelude.{◌≡◌, ◌+◌, ◌-◌, ◌<◌, ◌≤◌, ◌^◌, ◌++◌, true, Ok, length, codes, All, IfOk, OnOk};
ghost use Rattle.cm_base.specs.declared.regions.TheConstants.{SECURE_ROM, NSC};
ghost use Rattle.elf32.specs.Structures.{header_bytes, program_header_bytes};
ghost use Rattle.elf32.specs.Tables.{names_of, symbol_table, string_table, section_names, padded};
ghost use Rattle.cmse_build.specs.Image.{symbols_of, segment, rom_at, layout_of, image_header, image_of, CanWrite, StandApart};
ghost use Rattle.cmse_build.specs.Reading.{is_entry, word, zeros, rom_used_most, gateways_size, rom_of_image};

use cm_base::{Bytes, NSC, NoMemory, SECURE_ROM, Text};
use elf32::{
    ARM_HEADER, ET_EXEC, FileHeader, HEADER_SIZE, PF_R, PF_X, PROGRAM_HEADER_SIZE, PT_LOAD,
    ProgramHeader, SECTION_NAMES, SECTION_NAMES_SIZE, SymbolTable, Tables, absolute_function,
    aligned, put_header, put_padded, put_program_header, put_table_sections,
};
use std::alloc::Global;

/// An entry: the address of its veneer and the place of its code.
#[derive(Drop)]
pub struct Gate {
    pub name: Text,
    pub address: u32,
    pub code: u32,
}

/// Where the parts of the file behind the first segment stand.
#[derive(Clone, Copy)]
struct Layout {
    gateways_at: u32,
    symbols_at: u32,
    strings_at: u32,
    names_at: u32,
    sections_at: u32,
}

/// What the name of an entry's code begins with.
const TWIN: &[u8] = b"__acle_se_";

/// Where the bytes of the first segment stand: behind the headers.
const ROM_AT: u32 = HEADER_SIZE as u32 + 2 * PROGRAM_HEADER_SIZE as u32;

/// The name of an entry's code.
fn twin_of(alloc: Global, name: &Text) -> Result<Text, NoMemory>
    ensures { IfOk result (λ twin. twin ≡ codes "__acle_se_" ++ name.now) }
{
    let mut twin = Text::from_slice(alloc, TWIN)?;
    twin.extend_from_slice(name.as_slice())?;
    Ok(twin)
}

/// The symbols of the entries and their names.
#[tactic(auto, unfolding(elf32::specs::Tables::symbol_table))]
fn table_of(alloc: Global, gates: &[Gate]) -> Result<SymbolTable, NoMemory>
    requires addresses { All (λ g. g.address + 1 < 2 ^ 32) gates.now }
    requires codes { All (λ g. g.code + 1 < 2 ^ 32) gates.now }
    requires fits { length (string_table (names_of (symbols_of gates.now))) < 2 ^ 32 }
    ensures symbols { IfOk result (λ table. table.symbols ≡ symbol_table (symbols_of gates.now)) }
    ensures strings { IfOk result (λ table. table.strings ≡ string_table (names_of (symbols_of gates.now))) }
{
    let mut table = SymbolTable::new(alloc)?;
    for gate in gates {
        let veneer = absolute_function(gate.address + 1, 0);
        table.push(gate.name.as_slice(), &veneer)?;
        let twin = twin_of(alloc, &gate.name)?;
        let code = absolute_function(gate.code + 1, 0);
        table.push(twin.as_slice(), &code)?;
    }
    Ok(table)
}

/// Where the parts of these sizes stand.
#[tactic(auto, unfolding(crate::specs::Image::layout_of), using(elf32::proofs::TableLaws::aligned_below))]
fn layout_of(rom: u32, gateways: u32, symbols: u32, strings: u32) -> Layout
    requires { rom + gateways + symbols + strings + 500 < 2 ^ 32 }
    ensures value { result ≡ layout_of rom gateways symbols strings }
    ensures apart { StandApart result rom gateways symbols strings }
{
    let gateways_at = aligned(ROM_AT + rom);
    let symbols_at = aligned(gateways_at + gateways);
    let strings_at = aligned(symbols_at + symbols);
    let names_at = aligned(strings_at + strings);
    Layout {
        gateways_at,
        symbols_at,
        strings_at,
        names_at,
        sections_at: aligned(names_at + SECTION_NAMES_SIZE),
    }
}

/// The program header of bytes that are loaded to an address.
fn segment(p_offset: u32, address: u32, size: u32) -> ProgramHeader
    ensures { result ≡ segment p_offset address size }
{
    ProgramHeader {
        p_type: PT_LOAD,
        p_offset,
        p_vaddr: address,
        p_paddr: address,
        p_filesz: size,
        p_memsz: size,
        p_flags: PF_R + PF_X,
        p_align: 4,
    }
}

/// The headers of the file and of both segments.
fn put_headers(
    to: &mut Bytes,
    entry: u32,
    rom_size: u32,
    gateways_size: u32,
    layout: &Layout,
) -> Result<(), NoMemory>
    ensures { OnOk result (to.new ≡ to.old ++ (header_bytes (image_header entry layout.now)
        ++ (program_header_bytes (segment rom_at SECURE_ROM.from rom_size)
        ++ program_header_bytes (segment layout.now.gateways_at NSC.from gateways_size)))) }
{
    let header = FileHeader {
        e_type: ET_EXEC,
        e_entry: entry,
        e_phoff: HEADER_SIZE as u32,
        e_shoff: layout.sections_at,
        e_phentsize: PROGRAM_HEADER_SIZE,
        e_phnum: 2,
        e_shnum: 4,
        e_shstrndx: 3,
        ..ARM_HEADER
    };
    put_header(to, &header)?;
    put_program_header(to, &segment(ROM_AT, SECURE_ROM.from, rom_size))?;
    put_program_header(to, &segment(layout.gateways_at, NSC.from, gateways_size))
}

/// The parts of the file behind the headers, but for the section headers.
fn put_parts(
    to: &mut Bytes,
    rom_used: &[u8],
    gateways: &[u8],
    table: &SymbolTable,
    layout: &Layout,
) -> Result<(), NoMemory>
    requires { StandApart layout.now (length rom_used.now) (length gateways.now) (length table.now.symbols) (length table.now.strings) }
    ensures { OnOk result (to.new ≡ to.old ++ (padded rom_at rom_used.now
        ++ (padded layout.now.gateways_at gateways.now
        ++ (padded layout.now.symbols_at table.now.symbols
        ++ (padded layout.now.strings_at table.now.strings
        ++ padded layout.now.names_at section_names))))) }
{
    put_padded(to, ROM_AT, rom_used)?;
    put_padded(to, layout.gateways_at, gateways)?;
    put_padded(to, layout.symbols_at, table.symbols.as_slice())?;
    put_padded(to, layout.strings_at, table.strings.as_slice())?;
    put_padded(to, layout.names_at, SECTION_NAMES)
}

/// The image of a Secure ROM: its bytes up to the last that is used, all of the Non-secure callable region, and the
/// entries in ascending order of address. `entry` is the reset address with bit 0 set.
pub fn write_image(
    alloc: Global,
    entry: u32,
    rom_used: &[u8],
    gateways: &[u8],
    gates: &[Gate],
) -> Result<Bytes, NoMemory>
    requires { CanWrite rom_used.now gateways.now gates.now }
    ensures value { IfOk result (λ file. file ≡ image_of entry rom_used.now gateways.now gates.now) }
    ensures reads_back { IfOk result (λ file. 4 < length rom_used.now → length rom_used.now ≤ rom_used_most
        → length gateways.now ≡ gateways_size → is_entry entry (word rom_used.now 4) ≡ true
        → rom_of_image file ≡ Ok ((rom_used.now ++ zeros (rom_used_most - length rom_used.now)) ++ gateways.now)) }
{
    let table = table_of(alloc, gates)?;
    let rom_size = rom_used.len() as u32;
    let gateways_size = gateways.len() as u32;
    let symbols_size = table.symbols.len() as u32;
    let strings_size = table.strings.len() as u32;
    let layout = layout_of(rom_size, gateways_size, symbols_size, strings_size);
    let tables = Tables {
        symbols_at: layout.symbols_at,
        symbols_size,
        strings_at: layout.strings_at,
        strings_size,
        names_at: layout.names_at,
    };
    let mut file = Bytes::new(alloc);
    put_headers(&mut file, entry, rom_size, gateways_size, &layout)?;
    put_parts(&mut file, rom_used, gateways, &table, &layout)?;
    put_table_sections(&mut file, &tables)?;
    Ok(file)
}
