//! Fields of ELF files: what is put is read back.

use cm_base::{Bytes, NoMemory};
use elf32::{get16, get32, put16, put32};
use std::alloc::Global;
use std::test::Fail;

const FIELDS: &[u8] = &[0x34, 0x12, 0xef, 0xcd, 0xab, 0x89];

/// A half and a word that were put.
fn fields(alloc: Global) -> Result<Bytes, NoMemory> {
    let mut bytes = Bytes::new(alloc);
    put16(&mut bytes, 0x1234)?;
    put32(&mut bytes, 0x89ab_cdef)?;
    Ok(bytes)
}

fn are_put(alloc: Global) -> bool {
    match fields(alloc) {
        Ok(bytes) => bytes.as_slice() == FIELDS,
        Err(_memory) => false,
    }
}

#[test]
fn low_byte_first(rt: HostRuntime) -> Result<(), Fail> {
    assert!(rt; are_put(rt.alloc()));
    assert_eq!(rt; get16(FIELDS, 0), Some(0x1234));
    assert_eq!(rt; get32(FIELDS, 2), Some(0x89ab_cdef));
    assert_eq!(rt; get16(FIELDS, 4), Some(0x89ab));
    assert_eq!(rt; get16(FIELDS, 5), None);
    assert_eq!(rt; get32(FIELDS, 3), None);
    assert_eq!(rt; get32(FIELDS, u32::MAX), None);
    Ok(())
}
