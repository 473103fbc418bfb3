//! Import libraries that are read, and faults of others (System V ABI, Object Files; ECM0359818, Import library).

use crate::images::library;
use cm_base::{Bytes, NoMemory};
use import_lib::{ImplibFault, read_implib};
use ns_types::{Veneer, Veneers};
use std::alloc::Global;
use std::test::Fail;

/// Puts these bytes at their offsets.
fn put_all(file: &mut Bytes, changes: &[(usize, u8)]) {
    for (at, byte) in changes {
        if *at < file.len() {
            file.set(*at, *byte);
        }
    }
}

/// The library of one entry `answer`, with these bytes at these offsets.
fn changed(alloc: Global, changes: &[(usize, u8)]) -> Result<Bytes, NoMemory> {
    let mut file = library(alloc)?;
    put_all(&mut file, changes);
    Ok(file)
}

/// Reads a file that is small enough to be this library.
fn read(alloc: Global, file: &[u8]) -> Result<Veneers, ImplibFault> {
    if file.len() > 10_000 {
        return Err(ImplibFault::Malformed(u32::MAX));
    }
    read_implib(alloc, file)
}

/// Whether there are so many veneers, and this is the last.
fn are(veneers: &[Veneer], count: usize, name: &[u8], address: u32) -> bool {
    match veneers {
        [] => count == 0,
        [.., last] => {
            veneers.len() == count && last.name.as_slice() == name && last.address == address
        }
    }
}

/// Whether a file lists so many veneers, the last of which is this.
fn lists(alloc: Global, file: &[u8], count: usize, name: &[u8], address: u32) -> bool {
    match read(alloc, file) {
        Ok(veneers) => are(veneers.list.as_slice(), count, name, address),
        Err(_fault) => false,
    }
}

/// Whether the library with these bytes does.
fn is_read(alloc: Global, changes: &[(usize, u8)], count: usize, name: &[u8]) -> bool {
    match changed(alloc, changes) {
        Ok(file) => lists(alloc, file.as_slice(), count, name, 0x103F_F000),
        Err(_memory) => false,
    }
}

/// Whether a file is bad at this offset.
fn is_fault(alloc: Global, file: &[u8], at: u32) -> bool {
    match read(alloc, file) {
        Ok(_veneers) => false,
        Err(fault) => fault == ImplibFault::Malformed(at),
    }
}

/// Whether the library with these bytes is.
fn is_bad(alloc: Global, changes: &[(usize, u8)], at: u32) -> bool {
    match changed(alloc, changes) {
        Ok(file) => is_fault(alloc, file.as_slice(), at),
        Err(_memory) => false,
    }
}

/// A symbol table from offset 36 on, where the header's end is the null symbol: the symbol behind it gets st_info and
/// st_shndx of one that is listed.
const TWO: [(usize, u8); 6] = [
    (176, 36),
    (180, 48),
    (56, 1),
    (64, 0x12),
    (66, 0xF1),
    (67, 0xFF),
];

/// Whether two symbols are read, the first of which has a name from this offset on, or the second one is bad.
fn are_two(alloc: Global, first: u8, well: bool) -> bool {
    let [a, b, c, d, e, f] = TWO;
    let changes = [a, b, c, d, e, f, (52, first)];
    if well {
        is_read(alloc, &changes, 2, b"answer")
    } else {
        is_bad(alloc, &changes, 68)
    }
}

/// The value without bit 0, a local symbol, one of a section, a table without symbols, and two symbols.
#[test]
fn libraries(rt: HostRuntime) -> Result<(), Fail> {
    let alloc = rt.alloc();
    assert!(rt;
        is_read(alloc, &[], 1, b"answer")
            && is_read(alloc, &[(72, 0)], 1, b"answer")
            && is_read(alloc, &[(68, 3)], 1, b"swer")
            && is_read(alloc, &[(80, 0x02)], 0, b"")
            && is_read(alloc, &[(82, 3), (83, 0)], 0, b"")
            && is_read(alloc, &[(180, 0)], 0, b"")
            && is_read(alloc, &[(180, 16)], 0, b"")
            && are_two(alloc, 2, true)
            && are_two(alloc, 1, false)
    );
    Ok(())
}

/// The fields of the header; a section header that is cut, and no symbol table; the symbol table; its string table; the name.
#[test]
fn faults_of_libraries(rt: HostRuntime) -> Result<(), Fail> {
    let alloc = rt.alloc();
    assert!(rt;
        is_bad(alloc, &[(3, 0x47), (4, 2)], 0)
            && is_bad(alloc, &[(4, 2)], 4)
            && is_bad(alloc, &[(5, 2)], 5)
            && is_bad(alloc, &[(6, 0)], 6)
            && is_bad(alloc, &[(16, 2)], 16)
            && is_bad(alloc, &[(18, 41)], 18)
            && is_bad(alloc, &[(20, 2)], 20)
            && is_bad(alloc, &[(46, 41)], 46)
            && is_bad(alloc, &[(48, 0)], 48)
            && is_bad(alloc, &[(48, 5)], 280)
            && is_bad(alloc, &[(32, 128)], 280)
            && is_bad(alloc, &[(33, 2)], 632)
            && is_bad(alloc, &[(164, 3)], 48)
            && is_bad(alloc, &[(169, 8)], 168)
            && is_bad(alloc, &[(181, 1)], 180)
            && is_bad(alloc, &[(180, 33)], 180)
            && is_bad(alloc, &[(184, 4)], 184)
            && is_bad(alloc, &[(184, 0)], 184)
            && is_bad(alloc, &[(209, 8)], 208)
            && is_bad(alloc, &[(221, 1)], 220)
            && is_bad(alloc, &[(68, 0)], 68)
            && is_bad(alloc, &[(68, 8)], 68)
            && is_bad(alloc, &[(220, 7)], 68)
    );
    Ok(())
}
