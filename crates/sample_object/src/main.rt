//! Prints the bytes of an object with a relocation of each kind and a symbol of each home. `bin/check-objects` lets other tools
//! read it.
#![tactic(auto)]

use cm_base::{Bytes, List, NoMemory, Text};
use elf_object::{
    Home, Object, R_ARM_ABS32, R_ARM_THM_CALL, R_ARM_THM_JUMP24, R_ARM_THM_MOVT_ABS,
    R_ARM_THM_MOVW_ABS_NC, Reloc, Symbol, is_writable, write_object,
};
use std::alloc::Global;
use std::io;

// BL and B.W as assemblers leave them, with the offset -4; MOVW r0, MOVT r0, a word, BXNS LR
const TEXT: [u8; 22] = [
    0xFF, 0xF7, 0xFE, 0xFF, 0xFF, 0xF7, 0xFE, 0xBF, 0x40, 0xF2, 0x00, 0x00, 0xC0, 0xF2, 0x00, 0x00,
    0, 0, 0, 0, 0x74, 0x47,
];

fn symbol(alloc: Global, name: &[u8], home: Home, value: u32) -> Result<Symbol, NoMemory> {
    Ok(Symbol {
        name: Text::from_slice(alloc, name)?,
        home,
        value,
    })
}

fn symbols(alloc: Global) -> Result<List<Symbol>, NoMemory> {
    let mut list = List::new(alloc);
    list.push(symbol(alloc, b"go", Home::Text, 20)?)?;
    list.push(symbol(alloc, b"helper", Home::Undefined, 0)?)?;
    list.push(symbol(alloc, b".init", Home::Init, 0)?)?;
    list.push(symbol(alloc, b"fixed", Home::Absolute, 0x3000_0004)?)?;
    Ok(list)
}

fn relocs(alloc: Global) -> Result<List<Reloc>, NoMemory> {
    let all = [
        (0, R_ARM_THM_CALL, 1),
        (4, R_ARM_THM_JUMP24, 1),
        (8, R_ARM_THM_MOVW_ABS_NC, 2),
        (12, R_ARM_THM_MOVT_ABS, 2),
        (16, R_ARM_ABS32, 3),
    ];
    let mut list = List::new(alloc);
    for (at, kind, symbol) in all {
        list.push(Reloc { at, kind, symbol })?;
    }
    Ok(list)
}

fn file(alloc: Global) -> Result<Bytes, NoMemory> {
    let object = Object {
        text: Bytes::from_slice(alloc, &TEXT)?,
        init: Bytes::from_slice(alloc, b"initial")?,
        symbols: symbols(alloc)?,
        relocs: relocs(alloc)?,
    };
    if is_writable(&object) {
        write_object(alloc, &object)
    } else {
        Err(NoMemory)
    }
}

fn main(rt: HostRuntime) -> io::Result<()> {
    match file(rt.alloc()) {
        Ok(file) => {
            for byte in file.as_slice() {
                println!(rt; "{byte:02x}")?;
            }
        }
        Err(NoMemory) => println!(rt; "no memory")?,
    }
    Ok(())
}
