//! Expected values from ELF for the Arm Architecture (Relocation), DDI0553 (encodings of BL, B, MOVW and MOVT; vector table) and
//! ECM0359818 (Secure gateway veneers).

use crate::program::{entries, files, library};
use elf32::get32;
use link_check::checked_link;
use linker::Linked;
use ns_types::Veneers;
use std::alloc::Global;
use std::test::Fail;
use veneer_link::LinkFault;

/// Whether these words stand in a ROM from an offset on.
fn has_words(rom: &[u8], from: u32, words: &[u32]) -> bool {
    let mut at = from;
    for word in words {
        if get32(rom, at) != Some(*word) {
            return false;
        }
        at = at.saturating_add(4);
    }
    true
}

/// Whether all bytes from an offset on are 0.
fn is_zero(rom: &[u8], from: usize) -> bool {
    for byte in rom.get(from..).unwrap_or(&[1]) {
        if *byte != 0 {
            return false;
        }
    }
    true
}

/// The main stack pointer, the start code at 10000108, and UDF 0 at 1000011C.
const VECTORS: &[u32] = &[0x3001_7FF8, 0x1000_0109, 0x1000_011D, 0x1000_011D];

/// The entry at 10000100, and the start code: the halves of 10000120 in r1, a BL to 10000100 from 10000110, a B.W to 1000011C from
/// 10000114, the address of the veneer, UDF 0, and the initial contents at 10000120.
const CODE: &[u32] = &[
    0x002A_F240,
    0x0000_4774,
    0x1120_F240,
    0x0100_F2C1,
    0xFFF6_F7FF,
    0xB802_F000,
    0x103F_F000,
    0x0000_DE00,
    0x7469_6E69,
    0x006C_6169,
    0,
];

/// SG, and a B.W from 103FF004 to 10000100.
const FIRST_VENEER: &[u32] = &[0xE97F_E97F, 0xB87C_F401, 0, 0];

/// The same from 103FF00C, behind a place where no veneer stands.
const SECOND_VENEER: &[u32] = &[0, 0, 0xE97F_E97F, 0xB878_F401];

/// Where the Non-secure callable region begins in a ROM.
const GATES: u32 = 0x3F_F000;

fn is_symbol(linked: &Linked, k: usize, name: &[u8], value: u32) -> bool {
    match linked.symbols.get(k) {
        Some(s) => s.name.as_slice() == name && s.value == value,
        None => false,
    }
}

/// Whether a ROM has its vector table, and in the Non-secure callable region these four words alone.
fn is_rom(rom: &[u8], gates: &[u32]) -> bool {
    rom.len() == 0x40_0000
        && has_words(rom, 0, VECTORS)
        && has_words(rom, 60, &[0x1000_011D])
        && has_words(rom, GATES, gates)
        && is_zero(rom, GATES as usize + 16)
}

/// Whether the program is linked with its veneer at the first place.
fn is_linked(linked: &Linked) -> bool {
    is_rom(linked.rom.as_slice(), FIRST_VENEER)
        && has_words(linked.rom.as_slice(), 0x100, CODE)
        && linked.used == 0x127
        && linked.symbols.len() == 2
        && is_symbol(linked, 0, b"answer", 0x103F_F000)
        && is_symbol(linked, 1, b"__acle_se_answer", 0x1000_0100)
}

/// Links the program after an old library.
fn link_after(alloc: Global, old: Option<&Veneers>) -> Result<Option<Linked>, LinkFault> {
    let files = files(alloc)?;
    let entries = entries(alloc)?;
    checked_link(alloc, files.as_slice(), entries.as_slice(), old)
}

fn links(alloc: Global) -> bool {
    match link_after(alloc, None) {
        Ok(Some(linked)) => is_linked(&linked),
        Ok(None) => false,
        Err(_fault) => false,
    }
}

#[test]
fn program_is_linked(rt: HostRuntime) -> Result<(), Fail> {
    assert!(rt; links(rt.alloc()));
    Ok(())
}

/// What an old library does: 0 the program is linked with its veneer at 103FF008, 1 the entry `b` is gone, 2 `answer` is misplaced at
/// 103FF004, 3 anything else.
fn answer_to(answer: Result<Option<Linked>, LinkFault>) -> u32 {
    match answer {
        Ok(Some(linked)) => {
            if is_rom(linked.rom.as_slice(), SECOND_VENEER) {
                0
            } else {
                3
            }
        }
        Ok(None) => 3,
        Err(fault) => fault_number(&fault),
    }
}

fn fault_number(fault: &LinkFault) -> u32 {
    match fault {
        LinkFault::Gone(name) => {
            if name.as_slice() == b"b".as_slice() {
                1
            } else {
                3
            }
        }
        LinkFault::BadAddress { name, address } => {
            if name.as_slice() == b"answer".as_slice() && *address == 0x103F_F004 {
                2
            } else {
                3
            }
        }
        LinkFault::NoMemory => 3,
    }
}

fn after(alloc: Global, name: &[u8], address: u32) -> u32 {
    match library(alloc, name, address) {
        Ok(old) => answer_to(link_after(alloc, Some(&old))),
        Err(_memory) => 3,
    }
}

#[test]
fn old_libraries(rt: HostRuntime) -> Result<(), Fail> {
    let alloc = rt.alloc();
    let kept = after(alloc, b"answer", 0x103F_F008) == 0;
    let gone = after(alloc, b"b", 0x103F_F000) == 1;
    let misplaced = after(alloc, b"answer", 0x103F_F004) == 2;
    assert!(rt; kept && gone && misplaced);
    Ok(())
}
