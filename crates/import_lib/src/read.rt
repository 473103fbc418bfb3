//! Reading an import library.
ghost use Rattle.std.specs.Prelude.{◌≡◌, ◌+◌, ◌-◌, ◌/◌, ◌<◌, ◌≤◌, ◌^◌, [], length, drop, nat_le, if◌then◌else◌, ◌==◌, position, option_copied, IfSome, OnOk, IfOk, None, Some};
ghost use Rattle.std.specs.List.{fold};
ghost use Rattle.elf32.specs.Constants.{SECTION_HEADER_SIZE, SYMBOL_SIZE};
ghost use Rattle.import_lib.specs.Reading.{Gives, GivesOrNoMemory, Leaves, HasSections, test, byte, half, word, field_at, identification_of, header_of, shoff, shnum, sections_of, section_in, section_place, section_of, first_table, is_plain, lies_in, section_test, is_strings, table_test, table_of, strings_of, part_of, symbol_in, is_listed, name_in, names_in, with_veneer, with_symbol, with_symbols, veneers_of};

use crate::names::Names;
use cm_base::{List, NoMemory, Text};
use elf32::{
    ELF_MAGIC, ELFCLASS32, ELFDATA2LSB, EM_ARM, ET_REL, EV_CURRENT, HEADER_SIZE,
    SECTION_HEADER_SIZE, SHN_ABS, SHT_STRTAB, SHT_SYMTAB, STB_GLOBAL, STT_FUNC, SYMBOL_SIZE,
    SectionHeader, Symbol, get16, get32,
};
use ns_types::{Veneer, Veneers};
use std::alloc::Global;
use thiserror::Error;

/// Why an import library wasn't read.
#[derive(Clone, Copy, Debug, PartialEq, Eq, Error)]
pub enum ImplibFault {
    /// The offset of the first field that is unfit or cut.
    #[error("the import library is bad at {0}")]
    Malformed(u32),
    #[error("no memory")]
    NoMemory,
}

impl From<NoMemory> for ImplibFault {
    ghost use Rattle.std.specs.Prelude.{◌≡◌};
    ghost use Rattle.import_lib.specs.declared.read.ImplibFault.TheVariants as fault;

    ghost from_gives = { λ _ e. e ≡ fault.NoMemory };

    fn from(_e: NoMemory) -> ImplibFault {
        ImplibFault::NoMemory
    }
}

/// sh_flags: the bytes of the section are compressed.
const SHF_COMPRESSED: u32 = 0x800;

/// How far one section header stands behind another.
const ONE_HEADER: u32 = SECTION_HEADER_SIZE as u32;

/// Where the fields of the file header begin.
const HEADER_FIELDS: [u32; 18] = [
    0, 4, 5, 6, 7, 16, 18, 20, 24, 28, 32, 36, 40, 42, 44, 46, 48, 50,
];

/// The last of these starts that isn't above n, or 0.
fn last_start(starts: &[u32], n: u64) -> u32
    ensures { result ≡ fold (λ best at. if nat_le at n then at else best) 0 starts.now }
{
    let mut best = 0;
    for at in starts {
        if u64::from(*at) <= n {
            best = *at;
        }
    }
    best
}

/// Where the field of the file header that byte n stands in begins.
#[tactic(auto, unfolding(crate::specs::Reading::field_at))]
fn field_at(n: u64) -> u32
    ensures { result ≡ field_at n }
{
    last_start(&HEADER_FIELDS, n)
}

fn test(ok: bool, at: u32) -> Result<(), u32>
    ensures { Gives result (test ok at) }
{
    if ok { Ok(()) } else { Err(at) }
}

fn byte(bytes: &[u8], at: u32) -> u8
    ensures { result ≡ byte bytes.now at }
{
    bytes.get(at as usize).copied().unwrap_or(0)
}

fn half(bytes: &[u8], at: u32) -> u16
    ensures { result ≡ half bytes.now at }
{
    get16(bytes, at).unwrap_or(0)
}

fn word(bytes: &[u8], at: u32) -> u32
    ensures { result ≡ word bytes.now at }
{
    get32(bytes, at).unwrap_or(0)
}

/// The bytes from a place on.
fn behind(bytes: &[u8], at: u32) -> &[u8]
    ensures { result.now ≡ drop at bytes.now }
{
    bytes.get(at as usize..).unwrap_or(&[])
}

#[tactic(auto, unfolding(crate::specs::Reading::identification_of))]
fn test_identification(bytes: &[u8]) -> Result<(), u32>
    ensures { Gives result (identification_of bytes.now) }
{
    test(
        HEADER_SIZE as usize <= bytes.len(),
        field_at(bytes.len() as u64),
    )?;
    test(word(bytes, 0) == ELF_MAGIC, 0)?;
    test(byte(bytes, 4) == ELFCLASS32, 4)?;
    test(byte(bytes, 5) == ELFDATA2LSB, 5)?;
    test(byte(bytes, 6) == EV_CURRENT as u8, 6)
}

#[tactic(auto, unfolding(crate::specs::Reading::header_of))]
fn test_header(bytes: &[u8]) -> Result<(), u32>
    ensures { Gives result (header_of bytes.now) }
{
    test(half(bytes, 16) == ET_REL, 16)?;
    test(half(bytes, 18) == EM_ARM, 18)?;
    test(word(bytes, 20) == EV_CURRENT, 20)?;
    test(half(bytes, 46) == SECTION_HEADER_SIZE, 46)?;
    test(1 <= shnum(bytes), 48)
}

/// e_shoff.
fn shoff(bytes: &[u8]) -> u32
    ensures { result ≡ shoff bytes.now }
{
    word(bytes, 32)
}

/// e_shnum.
fn shnum(bytes: &[u8]) -> u32
    ensures { result ≡ shnum bytes.now }
{
    u32::from(half(bytes, 48))
}

#[tactic(auto, unfolding(crate::specs::Reading::sections_of))]
fn test_sections(bytes: &[u8]) -> Result<(), u32>
    requires { length bytes.now < 2 ^ 32 }
    ensures value { Gives result (sections_of bytes.now) }
    ensures sections { OnOk result (HasSections bytes.now) }
{
    let size = bytes.len() as u32;
    let at = shoff(bytes);
    let cut = at + 4 * (size.saturating_sub(at) / 4);
    let end = u64::from(at) + u64::from(ONE_HEADER) * u64::from(shnum(bytes));
    test(end <= u64::from(size), cut)
}

fn section_place(bytes: &[u8], k: u32) -> u32
    requires sections { HasSections bytes.now }
    requires within { k < shnum bytes.now }
    ensures value { result ≡ section_place bytes.now k }
    ensures whole { result + SECTION_HEADER_SIZE < 2 ^ 32 }
{
    shoff(bytes) + ONE_HEADER * k
}

/// The section header that bytes begin with.
#[tactic(auto, unfolding(crate::specs::Reading::section_in))]
fn section_in(bytes: &[u8]) -> SectionHeader
    ensures { result ≡ section_in bytes.now }
{
    SectionHeader {
        sh_name: word(bytes, 0),
        sh_type: word(bytes, 4),
        sh_flags: word(bytes, 8),
        sh_addr: word(bytes, 12),
        sh_offset: word(bytes, 16),
        sh_size: word(bytes, 20),
        sh_link: word(bytes, 24),
        sh_info: word(bytes, 28),
        sh_addralign: word(bytes, 32),
        sh_entsize: word(bytes, 36),
    }
}

/// The section header of this number.
#[tactic(auto, unfolding(crate::specs::Reading::section_of))]
fn section_of(bytes: &[u8], k: u32) -> SectionHeader
    requires sections { HasSections bytes.now }
    requires within { k < shnum bytes.now }
    ensures { result ≡ section_of bytes.now k }
{
    section_in(behind(bytes, section_place(bytes, k)))
}

/// The number of the first symbol table.
#[tactic(auto, using(crate::proofs::Tables::table_next))]
fn first_table(bytes: &[u8]) -> Option<u32>
    requires { HasSections bytes.now }
    ensures value { result ≡ first_table bytes.now (shnum bytes.now) 0 }
    ensures within { IfSome result (λ k. k < shnum bytes.now) }
{
    for k in 0..shnum(bytes) {
        if section_of(bytes, k).sh_type == SHT_SYMTAB {
            return Some(k);
        }
    }
    None
}

fn is_plain(s: &SectionHeader) -> bool
    ensures { result ≡ is_plain s.now }
{
    s.sh_flags / SHF_COMPRESSED % 2 == 0
}

fn lies_in(size: usize, s: &SectionHeader) -> bool
    ensures { result ≡ lies_in size s.now }
{
    u64::from(s.sh_offset) + u64::from(s.sh_size) <= size as u64
}

#[tactic(auto, unfolding(crate::specs::Reading::section_test))]
fn test_section(bytes: &[u8], s: &SectionHeader, at: u32) -> Result<(), u32>
    requires { at + SECTION_HEADER_SIZE < 2 ^ 32 }
    ensures value { Gives result (section_test bytes.now s.now at) }
    ensures inside { OnOk result (s.now.sh_offset + s.now.sh_size ≤ length bytes.now) }
{
    test(is_plain(s), at + 8)?;
    test(lies_in(bytes.len(), s), at + 20)
}

fn is_strings(bytes: &[u8], k: u32) -> bool
    requires { HasSections bytes.now }
    ensures { result ≡ is_strings bytes.now k }
{
    k < shnum(bytes) && section_of(bytes, k).sh_type == SHT_STRTAB
}

#[tactic(auto, unfolding(crate::specs::Reading::table_test))]
fn test_table(bytes: &[u8], s: &SectionHeader, at: u32) -> Result<(), u32>
    requires sections { HasSections bytes.now }
    requires place { at + SECTION_HEADER_SIZE < 2 ^ 32 }
    ensures value { Gives result (table_test bytes.now s.now at) }
    ensures inside { OnOk result (s.now.sh_offset + s.now.sh_size ≤ length bytes.now) }
    ensures strings { OnOk result (s.now.sh_link < shnum bytes.now) }
{
    test_section(bytes, s, at)?;
    test(s.sh_size % SYMBOL_SIZE == 0, at + 20)?;
    test(is_strings(bytes, s.sh_link), at + 24)
}

/// The first symbol table.
#[tactic(auto, unfolding(crate::specs::Reading::table_of))]
fn table_of(bytes: &[u8]) -> Result<SectionHeader, u32>
    requires { HasSections bytes.now }
    ensures value { Gives result (table_of bytes.now) }
    ensures inside { IfOk result (λ s. s.sh_offset + s.sh_size ≤ length bytes.now) }
    ensures strings { IfOk result (λ s. s.sh_link < shnum bytes.now) }
{
    match first_table(bytes) {
        None => Err(48),
        Some(k) => {
            let s = section_of(bytes, k);
            test_table(bytes, &s, section_place(bytes, k))?;
            Ok(s)
        }
    }
}

/// The string table of this number.
#[tactic(auto, unfolding(crate::specs::Reading::strings_of))]
fn strings_of(bytes: &[u8], table: &SectionHeader) -> Result<SectionHeader, u32>
    requires sections { HasSections bytes.now }
    requires within { table.now.sh_link < shnum bytes.now }
    ensures value { Gives result (strings_of bytes.now table.now) }
    ensures inside { IfOk result (λ s. s.sh_offset + s.sh_size ≤ length bytes.now) }
{
    let s = section_of(bytes, table.sh_link);
    test_section(bytes, &s, section_place(bytes, table.sh_link))?;
    Ok(s)
}

fn part_of<'a>(bytes: &'a [u8], s: &SectionHeader) -> &'a [u8]
    requires { s.now.sh_offset + s.now.sh_size ≤ length bytes.now }
    ensures { result.now ≡ part_of bytes.now s.now }
{
    let (_, from) = bytes.split_at(s.sh_offset as usize);
    let (part, _) = from.split_at(s.sh_size as usize);
    part
}

/// The symbol that bytes begin with.
#[tactic(auto, unfolding(crate::specs::Reading::symbol_in))]
fn symbol_in(bytes: &[u8]) -> Symbol
    ensures { result ≡ symbol_in bytes.now }
{
    Symbol {
        st_name: word(bytes, 0),
        st_value: word(bytes, 4),
        st_size: word(bytes, 8),
        st_info: byte(bytes, 12),
        st_other: byte(bytes, 13),
        st_shndx: half(bytes, 14),
    }
}

fn is_listed(s: &Symbol) -> bool
    ensures { result ≡ is_listed s.now }
{
    s.st_info == 16 * STB_GLOBAL + STT_FUNC && s.st_shndx == SHN_ABS
}

fn zero_place(bytes: &[u8]) -> Option<usize>
    ensures { result ≡ position (λ b. b == 0) bytes.now }
{
    bytes.iter().position(|b| *b == 0)
}

/// The name that begins at an offset of a string table, up to its zero byte.
#[tactic(auto, unfolding(crate::specs::Reading::name_in), using(crate::proofs::NameLaws::zero_within))]
fn name_in(strings: &[u8], at: u32) -> Option<&[u8]>
    ensures { option_copied result ≡ name_in strings.now at }
{
    let from = behind(strings, at);
    match zero_place(from) {
        None => None,
        Some(n) => {
            if n == 0 {
                return None;
            }
            let (name, _) = from.split_at(n);
            Some(name)
        }
    }
}

/// Adds the veneer of a listed symbol, which stands at this offset.
#[tactic(auto, unfolding(crate::specs::Reading::with_veneer))]
fn add_veneer<'a>(
    alloc: Global,
    strings: &'a [u8],
    s: &Symbol,
    at: u32,
    names: &mut Names<'a>,
    veneers: &mut List<Veneer>,
) -> Result<(), ImplibFault>
    requires { names.old ≡ names_in veneers.old }
    ensures value { Leaves result veneers.new (with_veneer strings.now s.now at veneers.old) }
    ensures names { OnOk result (names.new ≡ names_in veneers.new) }
{
    let Some(name) = name_in(strings, s.st_name) else {
        return Err(ImplibFault::Malformed(at));
    };
    let new = names.add(name)?;
    test(new, at).map_err(ImplibFault::Malformed)?;
    let name = Text::from_slice(alloc, name)?;
    let address = s.st_value - s.st_value % 2;
    veneers.push(Veneer { name, address })?;
    Ok(())
}

/// Adds the veneer of the symbol of this number, if it is listed.
#[tactic(auto, unfolding(crate::specs::Reading::with_symbol))]
fn add_symbol<'a>(
    alloc: Global,
    bytes: &[u8],
    table: &SectionHeader,
    strings: &'a [u8],
    k: u32,
    names: &mut Names<'a>,
    veneers: &mut List<Veneer>,
) -> Result<(), ImplibFault>
    requires small { length bytes.now < 2 ^ 32 }
    requires inside { table.now.sh_offset + table.now.sh_size ≤ length bytes.now }
    requires within { k < table.now.sh_size / SYMBOL_SIZE }
    requires names { names.old ≡ names_in veneers.old }
    ensures value { Leaves result veneers.new (with_symbol bytes.now table.now strings.now k veneers.old) }
    ensures names { OnOk result (names.new ≡ names_in veneers.new) }
{
    let at = table.sh_offset + SYMBOL_SIZE * k;
    let s = symbol_in(behind(bytes, at));
    if is_listed(&s) {
        return add_veneer(alloc, strings, &s, at, names, veneers);
    }
    Ok(())
}

/// The veneers that the symbols of a table list.
fn listed(
    alloc: Global,
    bytes: &[u8],
    table: &SectionHeader,
    strings: &[u8],
) -> Result<List<Veneer>, ImplibFault>
    requires small { length bytes.now < 2 ^ 32 }
    requires inside { table.now.sh_offset + table.now.sh_size ≤ length bytes.now }
    ensures { GivesOrNoMemory (λ x. x) result
        (with_symbols bytes.now table.now strings.now (table.now.sh_size / SYMBOL_SIZE - 1) 1 []) }
{
    let mut names = Names::new(alloc);
    let mut veneers = List::new(alloc);
    for k in 1..table.sh_size / SYMBOL_SIZE {
        add_symbol(alloc, bytes, table, strings, k, &mut names, &mut veneers)?;
    }
    Ok(veneers)
}

/// The veneers that an import library lists, in the order of its symbol table: its global functions at absolute addresses, each
/// with its address without bit 0. Malformed has the offset of the first field that is unfit or cut.
#[tactic(auto, unfolding(crate::specs::Reading::veneers_of))]
pub fn read_implib(alloc: Global, bytes: &[u8]) -> Result<Veneers, ImplibFault>
    requires { length bytes.now < 2 ^ 32 }
    ensures { GivesOrNoMemory (λ veneers. veneers.list) result (veneers_of bytes.now) }
{
    test_identification(bytes).map_err(ImplibFault::Malformed)?;
    test_header(bytes).map_err(ImplibFault::Malformed)?;
    test_sections(bytes).map_err(ImplibFault::Malformed)?;
    let table = table_of(bytes).map_err(ImplibFault::Malformed)?;
    let strings = strings_of(bytes, &table).map_err(ImplibFault::Malformed)?;
    let list = listed(alloc, bytes, &table, part_of(bytes, &strings))?;
    Ok(Veneers { list })
}
