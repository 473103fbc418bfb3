//! Expected values from the table of regions: the ends of each region, accesses across an end, byte order.

ghost use Rattle.std.specs.Prelude.{◌≡◌, IfOk, length};

use cm_base::{Bytes, NoMemory, PLATFORM};
use ns_types::Start;
use std::alloc::Global;
use std::test::Fail;
use v8m_mem::{Memory, can_read, can_write, is_in_ns_ram, is_in_rom, is_nonsecure, is_secure};

fn filled(alloc: Global, n: usize, byte: u8) -> Result<Bytes, NoMemory>
    ensures { IfOk result (λ b. length b ≡ n) }
{
    Ok(Bytes::from_vec(vec![in alloc; byte; n]?))
}

/// A device whose regions hold 11 (Secure ROM), 22 (Non-secure ROM), 33 (Non-secure RAM), 44 (Secure RAM).
fn device(alloc: Global) -> Result<Memory, NoMemory> {
    let rom = filled(alloc, 0x40_0000, 11)?;
    let start = Start {
        secure_ram: filled(alloc, 0x1_A000, 44)?,
        ns_ram: filled(alloc, 0x2_0000, 33)?,
        ns_rom: filled(alloc, 0x4_0000, 22)?,
    };
    Memory::new(alloc, PLATFORM, rom.as_slice(), &start)
}

/// Whether an address lies in region `k`, by each of the tests.
fn is_in(m: &Memory, at: u32, k: u8) -> bool {
    m.region_of(at) == Some(k)
        && is_nonsecure(at) == (k <= 1)
        && is_in_ns_ram(at) == (k == 1)
        && is_secure(at) == (k >= 2)
        && is_in_rom(at) == (k == 2 || k == 3)
}

/// Whether an address lies in region `k`, whose bytes are all `byte`, and up to `most` bytes are read there at once.
fn holds(m: &Memory, at: u32, k: u8, byte: u8, most: u8) -> bool {
    let half = if most < 2 {
        None
    } else {
        Some(u32::from(byte) * 0x101)
    };
    let word = if most < 4 {
        None
    } else {
        Some(u32::from(byte) * 0x101_0101)
    };
    is_in(m, at, k)
        && can_read(at, 4) == word.is_some()
        && m.read(at, 1) == Some(u32::from(byte))
        && m.read(at, 2) == half
        && m.read(at, 4) == word
}

/// Whether an address lies in no region, by each of the tests, and nothing is read there.
fn is_nowhere(m: &Memory, at: u32) -> bool {
    m.region_of(at).is_none()
        && !is_nonsecure(at)
        && !is_in_ns_ram(at)
        && !is_secure(at)
        && !is_in_rom(at)
        && !can_read(at, 4)
        && m.read(at, 1).is_none()
        && m.read(at, 2).is_none()
        && m.read(at, 4).is_none()
}

fn write(m: &mut Memory, at: u32, size: u8, value: u32) -> bool {
    match size {
        1 => m.write(at, 1, value),
        2 => m.write(at, 2, value),
        _ => m.write(at, 4, value),
    }
}

/// The ends of the Non-secure regions.
fn nonsecure_reads(m: &Memory) -> bool {
    holds(m, 0, 0, 0x16, 4)
        && holds(m, 0x0003_FFFC, 0, 0x16, 4)
        && holds(m, 0x0003_FFFD, 0, 0x16, 2)
        && holds(m, 0x0003_FFFF, 0, 0x16, 1)
        && holds(m, 0x2000_0000, 1, 0x21, 4)
        && holds(m, 0x2001_FFFE, 1, 0x21, 2)
}

/// The ends of Secure ROM.
fn rom_reads(m: &Memory) -> bool {
    holds(m, 0x1000_0000, 2, 0x0B, 4)
        && holds(m, 0x103F_EFFE, 2, 0x0B, 2)
        && holds(m, 0x103F_EFFF, 2, 0x0B, 1)
        && holds(m, 0x103F_F000, 3, 0x0B, 4)
        && holds(m, 0x103F_FFFF, 3, 0x0B, 1)
}

/// The ends of Secure RAM.
fn secure_ram_reads(m: &Memory) -> bool {
    holds(m, 0x3000_0000, 4, 0x2C, 4)
        && holds(m, 0x3000_FFFF, 4, 0x2C, 1)
        && holds(m, 0x3001_0000, 5, 0x2C, 4)
        && holds(m, 0x3001_9FFF, 5, 0x2C, 1)
}

/// Addresses beside the regions.
fn no_reads(m: &Memory) -> bool {
    is_nowhere(m, 0x0004_0000)
        && is_nowhere(m, 0x0FFF_FFFF)
        && is_nowhere(m, 0x1040_0000)
        && is_nowhere(m, 0x2002_0000)
        && is_nowhere(m, 0x3001_A000)
        && is_nowhere(m, 0xFFFF_FFFF)
}

#[test]
fn regions_and_reads(rt: HostRuntime) -> Result<(), Fail> {
    let m = device(rt.alloc())?;
    assert!(rt; nonsecure_reads(&m));
    assert!(rt; rom_reads(&m));
    assert!(rt; secure_ram_reads(&m));
    assert!(rt; no_reads(&m));
    Ok(())
}

/// Whether a write at an address is done or not, and the word read there then is this.
fn writes(m: &mut Memory, at: u32, size: u8, done: bool, word: Option<u32>) -> bool {
    write(m, at, size, 0x0403_0201) == done && m.read(at, 4) == word
}

/// Writes at the ends of the regions.
fn write_all(m: &mut Memory) -> bool {
    writes(m, 0, 4, false, Some(0x1616_1616))
        && writes(m, 0x1000_0000, 4, false, Some(0x0B0B_0B0B))
        && writes(m, 0x103F_F000, 1, false, Some(0x0B0B_0B0B))
        && writes(m, 0x2000_0000, 4, true, Some(0x0403_0201))
        && writes(m, 0x2000_0101, 4, true, Some(0x0403_0201))
        && writes(m, 0x2000_0204, 2, true, Some(0x2121_0201))
        && writes(m, 0x2000_0308, 1, true, Some(0x2121_2101))
        && writes(m, 0x2001_FFFD, 4, false, None)
        && writes(m, 0x2001_FFFE, 2, true, None)
        && writes(m, 0x3000_FFFC, 4, true, Some(0x0403_0201))
        && writes(m, 0x3000_FFFE, 4, false, None)
        && writes(m, 0x3001_0000, 2, true, Some(0x2C2C_0201))
        && writes(m, 0x3001_9FFF, 1, true, None)
        && writes(m, 0x3001_A000, 1, false, None)
}

/// What the writes left in Non-secure RAM.
fn is_written(m: &Memory) -> bool {
    let ram = m.ns_ram();
    m.read(0x2001_FFFE, 2) == Some(0x0201)
        && ram.len() == 0x2_0000
        && (ram[0], ram[3], ram[4], ram[0x101]) == (1, 4, 0x21, 1)
}

/// Whether a byte put into Non-secure RAM is read there, and the halfwords of Secure ROM.
fn is_put(m: &mut Memory) -> bool {
    m.put_ns(0x2001_FFFF, 9);
    m.read(0x2001_FFFF, 1) == Some(9)
        && m.half(0x1000_0000) == 0x0B0B
        && m.half(0x103F_FFFF) == 0x000B
        && !can_write(0x1000_0000, 4)
}

#[test]
fn writes_and_puts(rt: HostRuntime) -> Result<(), Fail> {
    let mut m = device(rt.alloc())?;
    assert!(rt; write_all(&mut m));
    assert!(rt; is_written(&m));
    assert!(rt; is_put(&mut m));
    Ok(())
}

/// The answers of TT.
fn answers(m: &Memory) -> bool {
    m.tt(0x0003_FFFF) == 0x0094_0000
        && m.tt(0x2000_0000) == 0x01BC_0000
        && m.tt(0x103F_EFFF) == 0x02C4_0000
        && m.tt(0x103F_F000) == 0x03C4_0000
        && m.tt(0x3000_FFFF) == 0x04CC_0000
        && m.tt(0x3001_0000) == 0x05CC_0000
        && m.tt(0x3001_A000) == 0
}

#[test]
fn target_answers(rt: HostRuntime) -> Result<(), Fail> {
    let m = device(rt.alloc())?;
    assert!(rt; answers(&m));
    Ok(())
}
