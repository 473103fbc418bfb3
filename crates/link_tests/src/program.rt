//! A small program of two objects: an entry, and start code with a relocation of each kind.

use cm_base::{Bytes, List, NoMemory, Text};
use elf_object::{Home, Object, Reloc, Symbol, is_writable, write_object};
use ns_types::{Veneer, Veneers};
use std::alloc::Global;

/// 96 NOPs, so that the code behind them stands at 10000100.
const NOPS: usize = 96;

/// MOVW r0, 42 and BXNS LR.
const ENTRY: &[u8] = &[0x40, 0xF2, 0x2A, 0x00, 0x74, 0x47];

/// MOVW r1, MOVT r1, BL, B.W and a word, which are resolved, with the offset -4 in the branches as assemblers leave it; UDF 0.
const START: &[u8] = &[
    0x40, 0xF2, 0x00, 0x01, 0xC0, 0xF2, 0x00, 0x01, 0xFF, 0xF7, 0xFE, 0xFF, 0xFF, 0xF7, 0xFE, 0xBF,
    0, 0, 0, 0, 0x00, 0xDE,
];

/// The two halves of the address of `.init`; the entry's code; `.stop`; the entry's veneer.
const RELOCS: &[Reloc] = &[
    Reloc {
        at: 0,
        kind: 47,
        symbol: 2,
    },
    Reloc {
        at: 4,
        kind: 48,
        symbol: 2,
    },
    Reloc {
        at: 8,
        kind: 10,
        symbol: 3,
    },
    Reloc {
        at: 12,
        kind: 30,
        symbol: 1,
    },
    Reloc {
        at: 16,
        kind: 2,
        symbol: 4,
    },
];

fn symbol(alloc: Global, name: &[u8], home: Home, value: u32) -> Result<Symbol, NoMemory> {
    Ok(Symbol {
        name: Text::from_slice(alloc, name)?,
        home,
        value,
    })
}

fn entry_text(alloc: Global) -> Result<Bytes, NoMemory> {
    let mut text = Bytes::new(alloc);
    for _i in 0..NOPS {
        text.extend_from_slice(&[0x00, 0xBF])?;
    }
    text.extend_from_slice(ENTRY)?;
    Ok(text)
}

fn entry_symbols(alloc: Global) -> Result<List<Symbol>, NoMemory> {
    let mut list = List::new(alloc);
    list.push(symbol(alloc, b"answer", Home::Text, 192)?)?;
    list.push(symbol(alloc, b"__acle_se_answer", Home::Text, 192)?)?;
    Ok(list)
}

fn start_symbols(alloc: Global) -> Result<List<Symbol>, NoMemory> {
    let mut list = List::new(alloc);
    list.push(symbol(alloc, b".start", Home::Text, 0)?)?;
    list.push(symbol(alloc, b".stop", Home::Text, 20)?)?;
    list.push(symbol(alloc, b".init", Home::Init, 0)?)?;
    list.push(symbol(alloc, b"__acle_se_answer", Home::Undefined, 0)?)?;
    list.push(symbol(alloc, b"answer", Home::Undefined, 0)?)?;
    Ok(list)
}

fn file_of(alloc: Global, object: &Object) -> Result<Bytes, NoMemory> {
    if is_writable(object) {
        write_object(alloc, object)
    } else {
        Err(NoMemory)
    }
}

fn entry_file(alloc: Global) -> Result<Bytes, NoMemory> {
    let object = Object {
        text: entry_text(alloc)?,
        init: Bytes::new(alloc),
        symbols: entry_symbols(alloc)?,
        relocs: List::new(alloc),
    };
    file_of(alloc, &object)
}

fn start_file(alloc: Global) -> Result<Bytes, NoMemory> {
    let object = Object {
        text: Bytes::from_slice(alloc, START)?,
        init: Bytes::from_slice(alloc, b"initial")?,
        symbols: start_symbols(alloc)?,
        relocs: List::from_slice(alloc, RELOCS)?,
    };
    file_of(alloc, &object)
}

/// The files of the program's objects.
pub fn files(alloc: Global) -> Result<List<Bytes>, NoMemory> {
    let mut list = List::new(alloc);
    list.push(entry_file(alloc)?)?;
    list.push(start_file(alloc)?)?;
    Ok(list)
}

/// The names of the program's entries.
pub fn entries(alloc: Global) -> Result<List<Text>, NoMemory> {
    let mut list = List::new(alloc);
    list.push(Text::from_slice(alloc, b"answer")?)?;
    Ok(list)
}

/// A library with one veneer.
pub fn library(alloc: Global, name: &[u8], address: u32) -> Result<Veneers, NoMemory> {
    let mut list = List::new(alloc);
    list.push(Veneer {
        name: Text::from_slice(alloc, name)?,
        address,
    })?;
    Ok(Veneers { list })
}
