//! Reading an object's file.
ghost use Rattle.std.specs.Prelude.{◌≡◌, ◌+◌, ◌-◌, ◌/◌, ◌<◌, ◌≤◌, ◌^◌, ◌↔◌, length, drop, nat_le, nat_eq, if◌then◌else◌, IfOk, IsTrue};
ghost use Rattle.std.specs.List.{fold, common_prefix_len};
ghost use Rattle.elf_object.specs.Reading.{IsFileOf, word, half, extent_in, part_of, reloc_of, relocs_in, name_size, home_of, symbol_in, symbols_in, object_in, field_at, fault_at, Reads};

use crate::fits::is_writable;
use crate::layout::{Extent, object_header};
use crate::object::{Home, Object, Reloc, Symbol};
use crate::write::write_object;
use cm_base::{Bytes, List, NoMemory, Text};
use elf32::{HEADER_SIZE, SECTION_HEADER_SIZE, get16, get32, put_header};
use std::alloc::Global;
use thiserror::Error;

/// Why an object wasn't read.
#[derive(Clone, Copy, Debug, PartialEq, Eq, Error)]
pub enum ElfFault {
    /// The offset of the first field of the header that is cut or has another value than is written, or the end of the
    /// header.
    #[error("the object is bad at {0}")]
    BadElf(u32),
    #[error("no memory")]
    NoMemory,
}

impl From<NoMemory> for ElfFault {
    ghost use Rattle.std.specs.Prelude.{◌≡◌};
    ghost use Rattle.elf_object.specs.declared.read.ElfFault.TheVariants as fault;

    ghost from_gives = { λ _ e. e ≡ fault.NoMemory };

    fn from(_e: NoMemory) -> ElfFault {
        ElfFault::NoMemory
    }
}

fn word(bytes: &[u8], at: u32) -> u32
    ensures { result ≡ word bytes.now at }
{
    get32(bytes, at).unwrap_or(0)
}

fn half(bytes: &[u8], at: u32) -> u16
    ensures { result ≡ half bytes.now at }
{
    get16(bytes, at).unwrap_or(0)
}

/// The bytes from a place on.
fn behind(bytes: &[u8], at: usize) -> &[u8]
    ensures { result.now ≡ drop at bytes.now }
{
    bytes.get(at..).unwrap_or(&[])
}

/// What the header of the section of this number says of its part of the file.
#[tactic(auto, unfolding(crate::specs::Reading::extent_in))]
fn extent_in(bytes: &[u8], k: u32) -> Extent
    requires { k < 7 }
    ensures { result ≡ extent_in bytes.now k }
{
    let headers = behind(bytes, word(bytes, 32) as usize);
    let at = SECTION_HEADER_SIZE as u32 * k;
    Extent {
        at: word(headers, at + 16),
        size: word(headers, at + 20),
    }
}

/// Those bytes of a part that lie in the file.
fn part_of<'a>(bytes: &'a [u8], part: &Extent) -> &'a [u8]
    ensures { result.now ≡ part_of bytes.now part.now }
{
    let from = behind(bytes, part.at as usize);
    let size = from.len().min(part.size as usize);
    &from[..size]
}

fn reloc_of(bytes: &[u8]) -> Reloc
    ensures { result ≡ reloc_of bytes.now }
{
    let info = word(bytes, 4);
    Reloc {
        at: word(bytes, 0),
        kind: (info % 256) as u8,
        symbol: (info / 256).saturating_sub(1),
    }
}

/// The relocations of the first n entries.
fn relocs_in(alloc: Global, n: usize, entries: &[u8]) -> Result<List<Reloc>, NoMemory>
    ensures { IfOk result (λ relocs. relocs ≡ relocs_in n entries.now) }
{
    let mut relocs = List::new(alloc);
    let mut rest = entries;
    for _i in 0..n {
        relocs.push(reloc_of(rest))?;
        rest = behind(rest, 8);
    }
    Ok(relocs)
}

/// How many bytes stand before the first zero byte.
fn name_len(names: &[u8]) -> usize
    ensures value { result ≡ name_size names.now }
    ensures within { result ≤ length names.now }
{
    for (i, b) in names.iter().enumerate() {
        if *b == 0 {
            return i;
        }
    }
    names.len()
}

fn home_of(section: u16) -> Home
    ensures { result ≡ home_of section }
{
    match section {
        0 => Home::Undefined,
        1 => Home::Text,
        2 => Home::Init,
        _ => Home::Absolute,
    }
}

/// The symbol of an entry, with its name.
fn symbol_in(alloc: Global, entry: &[u8], name: &[u8]) -> Result<Symbol, NoMemory>
    ensures { IfOk result (λ s. s ≡ record { name = name.now; home = home_of (half entry.now 14); value = word entry.now 4 }) }
{
    Ok(Symbol {
        name: Text::from_slice(alloc, name)?,
        home: home_of(half(entry, 14)),
        value: word(entry, 4),
    })
}

/// The symbols of the first n entries, whose names stand one behind the other.
fn symbols_in(
    alloc: Global,
    n: usize,
    entries: &[u8],
    strings: &[u8],
) -> Result<List<Symbol>, NoMemory>
    ensures { IfOk result (λ symbols. symbols ≡ symbols_in n entries.now strings.now) }
{
    let mut symbols = List::new(alloc);
    let mut rest = entries;
    let mut names = strings;
    for _i in 0..n {
        let (name, more) = names.split_at(name_len(names));
        symbols.push(symbol_in(alloc, rest, name)?)?;
        rest = behind(rest, 16);
        names = behind(more, 1);
    }
    Ok(symbols)
}

/// The object that the parts of a file say.
#[tactic(auto, unfolding(crate::specs::Reading::object_in))]
fn object_in(alloc: Global, bytes: &[u8]) -> Result<Object, NoMemory>
    ensures { IfOk result (λ o. o ≡ object_in bytes.now) }
{
    let text = part_of(bytes, &extent_in(bytes, 1));
    let init = part_of(bytes, &extent_in(bytes, 2));
    let relocs = part_of(bytes, &extent_in(bytes, 3));
    let symbols = part_of(bytes, &extent_in(bytes, 4));
    let strings = part_of(bytes, &extent_in(bytes, 5));
    let count = (symbols.len() / 16).saturating_sub(1);
    Ok(Object {
        text: Bytes::from_slice(alloc, text)?,
        init: Bytes::from_slice(alloc, init)?,
        symbols: symbols_in(alloc, count, behind(symbols, 16), behind(strings, 1))?,
        relocs: relocs_in(alloc, relocs.len() / 8, relocs)?,
    })
}

/// Whether bytes are the file of an object.
fn is_file_of(alloc: Global, bytes: &[u8], object: &Object) -> Result<bool, NoMemory>
    ensures { IfOk result (λ same. IsTrue same ↔ IsFileOf bytes.now object.now) }
{
    if !is_writable(object) {
        return Ok(false);
    }
    let file = write_object(alloc, object)?;
    Ok(file.as_slice() == bytes)
}

/// Where the fields of the file header begin, and where what stands behind it does.
const FIELD_STARTS: [u32; 19] = [
    0, 4, 5, 6, 7, 16, 18, 20, 24, 28, 32, 36, 40, 42, 44, 46, 48, 50, 52,
];

/// The last of these starts that isn't above n, or 0.
fn last_start(starts: &[u32], n: u64) -> u32
    ensures { result ≡ fold (λ best at. if nat_le at n then at else best) 0 starts.now }
{
    let mut best = 0;
    for at in starts {
        if u64::from(*at) <= n {
            best = *at;
        }
    }
    best
}

/// Where the field that byte n stands in begins.
#[tactic(auto, unfolding(crate::specs::Reading::field_at))]
fn field_at(n: usize) -> u32
    ensures { result ≡ field_at n }
{
    last_start(&FIELD_STARTS, n as u64)
}

/// How many bytes two begin with in common.
fn common_len(a: &[u8], b: &[u8]) -> usize
    ensures { result ≡ common_prefix_len nat_eq a.now b.now }
{
    let most = a.len().min(b.len());
    for i in 0..most {
        if a[i] != b[i] {
            return i;
        }
    }
    most
}

/// The offset of the fault of a file that isn't an object's.
#[tactic(auto, unfolding(crate::specs::Reading::fault_at))]
fn fault_at(alloc: Global, bytes: &[u8]) -> Result<u32, NoMemory>
    ensures { IfOk result (λ at. at ≡ fault_at bytes.now) }
{
    if bytes.len() < HEADER_SIZE as usize {
        return Ok(field_at(bytes.len()));
    }
    let mut header = Bytes::new(alloc);
    put_header(&mut header, &object_header(word(bytes, 32)))?;
    Ok(field_at(common_len(bytes, header.as_slice())))
}

/// The object of a file: exactly what `write_object` writes is read. BadElf has the offset of the first field of the header that
/// isn't whole; else of the first one whose value isn't what is written, where e_shoff may have any; and else 52.
pub fn read_object(alloc: Global, bytes: &[u8]) -> Result<Object, ElfFault>
    requires { length bytes.now < 2 ^ 32 }
    ensures reads { Reads bytes.now result }
    ensures object { IfOk result (λ o. o ≡ object_in bytes.now) }
{
    let object = object_in(alloc, bytes)?;
    let same = is_file_of(alloc, bytes, &object)?;
    if same {
        return Ok(object);
    }
    Err(ElfFault::BadElf(fault_at(alloc, bytes)?))
}
