//! Expected values from the ELF formats (System V ABI, Object Files; ELF for the Arm Architecture, Relocation).

use cm_base::{Bytes, List, NoMemory, Text};
use elf_object::{ElfFault, Home, Object, Reloc, Symbol, is_writable, read_object, write_object};
use elf32::get32;
use std::alloc::Global;
use std::test::Fail;

/// A BL to another object's symbol, and BXNS LR.
const TEXT: &[u8] = &[0x00, 0xF0, 0x00, 0xF8, 0x74, 0x47];

const INIT: &[u8] = &[7, 8, 9];

/// The one relocation: R_ARM_THM_CALL of symbol 1.
const CALL: Reloc = Reloc {
    at: 0,
    kind: 10,
    symbol: 1,
};

fn symbol(alloc: Global, name: &[u8], home: Home, value: u32) -> Result<Symbol, NoMemory> {
    Ok(Symbol {
        name: Text::from_slice(alloc, name)?,
        home,
        value,
    })
}

/// Two symbols: a function, and one that another object defines.
fn symbols(alloc: Global) -> Result<List<Symbol>, NoMemory> {
    let mut list = List::new(alloc);
    list.push(symbol(alloc, b"go", Home::Text, 4)?)?;
    list.push(symbol(alloc, b"g", Home::Undefined, 0)?)?;
    Ok(list)
}

fn sample(alloc: Global) -> Result<Object, NoMemory> {
    Ok(Object {
        text: Bytes::from_slice(alloc, TEXT)?,
        init: Bytes::from_slice(alloc, INIT)?,
        symbols: symbols(alloc)?,
        relocs: List::from_slice(alloc, &[CALL])?,
    })
}

/// The file of the sample.
fn file(alloc: Global) -> Result<Bytes, NoMemory> {
    let object = sample(alloc)?;
    if is_writable(&object) {
        write_object(alloc, &object)
    } else {
        Err(NoMemory)
    }
}

/// Whether these words stand in a file from an offset on.
fn has_words(file: &[u8], from: u32, words: &[u32]) -> bool {
    let mut at = from;
    for word in words {
        if get32(file, at) != Some(*word) {
            return false;
        }
        at = at.saturating_add(4);
    }
    true
}

/// The header: the section headers stand at 180.
const HEADER: &[u32] = &[
    0x464C_457F,
    0x0001_0101,
    0,
    0,
    0x0028_0001,
    1,
    0,
    0,
    180,
    0x0500_0000,
    52,
    0x0028_0000,
    0x0006_0007,
];

/// The text, the initial contents, and the relocation: 100 times the symbol's number plus one, plus 0A.
const CONTENTS: &[u32] = &[0xF800_F000, 0x0000_4774, 0x0009_0807, 0, 0x0000_020A];

/// The null symbol, the function at 4 in section 1, and the undefined one.
const SYMBOLS: &[u32] = &[0, 0, 0, 0, 1, 4, 0, 0x0001_0012, 4, 0, 0, 0x0000_0010];

/// The names of the symbols, and those of the sections.
const NAMES: &[u32] = &[
    0x006F_6700,
    0x0000_0067,
    0x6574_2E00,
    0x2E00_7478,
    0x7469_6E69,
    0x6572_2E00,
    0x6574_2E6C,
    0x2E00_7478,
    0x746D_7973,
    0x2E00_6261,
    0x7472_7473,
    0x2E00_6261,
    0x7473_6873,
    0x6261_7472,
    0,
];

const TEXT_SECTION: &[u32] = &[1, 1, 6, 0, 52, 6, 0, 0, 4, 0];

const INIT_SECTION: &[u32] = &[7, 1, 2, 0, 60, 3, 0, 0, 4, 0];

const RELOCS_SECTION: &[u32] = &[13, 9, 0, 0, 64, 8, 4, 1, 4, 8];

const SYMBOLS_SECTION: &[u32] = &[23, 2, 0, 0, 72, 48, 5, 1, 4, 16];

const STRINGS_SECTION: &[u32] = &[31, 3, 0, 0, 120, 6, 0, 0, 1, 0];

const NAMES_SECTION: &[u32] = &[39, 3, 0, 0, 128, 49, 0, 0, 1, 0];

fn has_contents(file: &[u8]) -> bool {
    has_words(file, 0, HEADER)
        && has_words(file, 52, CONTENTS)
        && has_words(file, 72, SYMBOLS)
        && has_words(file, 120, NAMES)
}

fn has_sections(file: &[u8]) -> bool {
    has_words(file, 180, &[0, 0, 0, 0, 0, 0, 0, 0, 0, 0])
        && has_words(file, 220, TEXT_SECTION)
        && has_words(file, 260, INIT_SECTION)
        && has_words(file, 300, RELOCS_SECTION)
        && has_words(file, 340, SYMBOLS_SECTION)
        && has_words(file, 380, STRINGS_SECTION)
        && has_words(file, 420, NAMES_SECTION)
}

fn is_written(alloc: Global) -> bool {
    match file(alloc) {
        Ok(bytes) => {
            let file = bytes.as_slice();
            file.len() == 460 && has_contents(file) && has_sections(file)
        }
        Err(_memory) => false,
    }
}

#[test]
fn object_is_written(rt: HostRuntime) -> Result<(), Fail> {
    assert!(rt; is_written(rt.alloc()));
    Ok(())
}

/// Reads a file that is small enough to be an object's.
fn read(alloc: Global, file: &[u8]) -> Result<Object, ElfFault> {
    if file.len() > 10_000 {
        return Err(ElfFault::BadElf(u32::MAX));
    }
    read_object(alloc, file)
}

fn is_symbol(symbols: &[Symbol], k: usize, name: &[u8], home: Home, value: u32) -> bool {
    match symbols.get(k) {
        Some(s) => s.name.as_slice() == name && s.home == home && s.value == value,
        None => false,
    }
}

fn are_symbols(symbols: &[Symbol]) -> bool {
    symbols.len() == 2
        && is_symbol(symbols, 0, b"go", Home::Text, 4)
        && is_symbol(symbols, 1, b"g", Home::Undefined, 0)
}

/// Whether an object is the sample.
fn is_sample(object: &Object) -> bool {
    object.text.as_slice() == TEXT
        && object.init.as_slice() == INIT
        && object.relocs.len() == 1
        && object.relocs.get(0).copied() == Some(CALL)
        && are_symbols(object.symbols.as_slice())
}

fn is_read_as_sample(alloc: Global, file: &[u8]) -> bool {
    match read(alloc, file) {
        Ok(object) => is_sample(&object),
        Err(_fault) => false,
    }
}

fn reads_back(alloc: Global) -> bool {
    match file(alloc) {
        Ok(bytes) => is_read_as_sample(alloc, bytes.as_slice()),
        Err(_memory) => false,
    }
}

#[test]
fn object_reads_back(rt: HostRuntime) -> Result<(), Fail> {
    assert!(rt; reads_back(rt.alloc()));
    Ok(())
}

/// Why a file isn't read, or None where it is.
fn fault_of(alloc: Global, file: &[u8]) -> Option<ElfFault> {
    match read(alloc, file) {
        Ok(_object) => None,
        Err(fault) => Some(fault),
    }
}

/// Whether the file with this byte at an offset is bad at this one.
fn is_bad(alloc: Global, at: usize, byte: u8, fault: u32) -> bool {
    let Ok(mut file) = file(alloc) else {
        return false;
    };
    if at < file.len() {
        file.set(at, byte);
    }
    fault_of(alloc, file.as_slice()) == Some(ElfFault::BadElf(fault))
}

/// Whether the first `len` bytes of the file are bad at this offset.
fn is_cut(alloc: Global, len: usize, fault: u32) -> bool {
    let Ok(mut file) = file(alloc) else {
        return false;
    };
    file.truncate(len);
    fault_of(alloc, file.as_slice()) == Some(ElfFault::BadElf(fault))
}

/// The first field of the header that isn't whole, and what is cut behind it.
#[test]
fn cut_object(rt: HostRuntime) -> Result<(), Fail> {
    let alloc = rt.alloc();
    assert!(rt; is_cut(alloc, 0, 0));
    assert!(rt; is_cut(alloc, 8, 7));
    assert!(rt; is_cut(alloc, 30, 28));
    assert!(rt; is_cut(alloc, 51, 50));
    assert!(rt; is_cut(alloc, 52, 52));
    assert!(rt; is_cut(alloc, 459, 52));
    Ok(())
}

/// Another value in a field of the header: the magic, the class, the bytes from 7 to 15, e_type, e_flags and e_shnum. Then e_shoff, a
/// byte between two parts, the kind and the symbol of the relocation, and the section of a symbol.
#[test]
fn changed_object(rt: HostRuntime) -> Result<(), Fail> {
    let alloc = rt.alloc();
    assert!(rt; is_bad(alloc, 2, 0x4D, 0));
    assert!(rt; is_bad(alloc, 4, 2, 4));
    assert!(rt; is_bad(alloc, 9, 1, 7));
    assert!(rt; is_bad(alloc, 17, 1, 16));
    assert!(rt; is_bad(alloc, 39, 4, 36));
    assert!(rt; is_bad(alloc, 48, 6, 48));
    assert!(rt; is_bad(alloc, 32, 184, 52));
    assert!(rt; is_bad(alloc, 58, 1, 52));
    assert!(rt; is_bad(alloc, 68, 3, 52));
    assert!(rt; is_bad(alloc, 69, 3, 52));
    assert!(rt; is_bad(alloc, 102, 2, 52));
    Ok(())
}
