//! Which accesses one region holds.

ghost use Rattle.std.specs.Prelude.{◌≡◌, ◌≤◌, IsTrue};
ghost use Rattle.ns_types.specs.Platform.{in_row, is_in_rom, is_nonsecure, is_readable, is_secure, is_writable, region_of};
ghost use Rattle.v8m_mem.specs.Rows.{is_size};
ghost use Rattle.v8m_mem.specs.Target.{flag, target_of};

use cm_base::{NS_RAM, NS_ROM, NSC, SECURE_CONTROL, SECURE_DATA, SECURE_ROM};

/// Whether one region holds all `size` bytes at an address, so that Secure code may read them.
#[tactic(auto, unfolding(ns_types::specs::Platform::is_readable))]
pub fn can_read(at: u32, size: u8) -> bool
    requires { IsTrue (is_size size) }
    ensures { result ≡ is_readable at size }
{
    let end = at as u64 + size as u64;
    if at >= SECURE_CONTROL.from {
        end <= SECURE_CONTROL.to as u64
    } else if at >= SECURE_DATA.from {
        end <= SECURE_DATA.to as u64
    } else if at >= NS_RAM.from {
        end <= NS_RAM.to as u64
    } else if at >= NSC.from {
        end <= NSC.to as u64
    } else if at >= SECURE_ROM.from {
        end <= SECURE_ROM.to as u64
    } else {
        end <= NS_ROM.to as u64
    }
}

/// Whether one region that Secure code may write holds all `size` bytes at an address.
#[tactic(auto, unfolding(ns_types::specs::Platform::is_writable))]
pub fn can_write(at: u32, size: u8) -> bool
    requires { IsTrue (is_size size) }
    ensures { result ≡ is_writable at size }
{
    let end = at as u64 + size as u64;
    if at >= SECURE_CONTROL.from {
        end <= SECURE_CONTROL.to as u64
    } else if at >= SECURE_DATA.from {
        end <= SECURE_DATA.to as u64
    } else {
        at >= NS_RAM.from && end <= NS_RAM.to as u64
    }
}

/// The number of the region that holds an address.
#[tactic(auto, unfolding(ns_types::specs::Platform::region_of))]
pub fn region_at(at: u32) -> Option<u8>
    ensures { result ≡ region_of at }
{
    if at < NS_ROM.to {
        Some(0)
    } else if is_in_ns_ram(at) {
        Some(1)
    } else if SECURE_ROM.from <= at && at < SECURE_ROM.to {
        Some(2)
    } else if NSC.from <= at && at < NSC.to {
        Some(3)
    } else if SECURE_DATA.from <= at && at < SECURE_DATA.to {
        Some(4)
    } else if SECURE_CONTROL.from <= at && at < SECURE_CONTROL.to {
        Some(5)
    } else {
        None
    }
}

/// Whether Secure code may stand at an address: Secure ROM and the Non-secure callable region.
pub fn is_in_rom(at: u32) -> bool
    ensures { result ≡ is_in_rom at }
{
    SECURE_ROM.from <= at && at < NSC.to
}

/// Whether an address lies in Secure memory.
pub fn is_secure(at: u32) -> bool
    ensures { result ≡ is_secure at }
{
    is_in_rom(at) || (SECURE_DATA.from <= at && at < SECURE_CONTROL.to)
}

/// Whether an address lies in Non-secure RAM.
pub fn is_in_ns_ram(at: u32) -> bool
    ensures { result ≡ in_row 1 at }
{
    NS_RAM.from <= at && at < NS_RAM.to
}

/// Whether an address lies in Non-secure memory.
pub fn is_nonsecure(at: u32) -> bool
    ensures { result ≡ is_nonsecure at }
{
    at < NS_ROM.to || is_in_ns_ram(at)
}

/// A field of one bit, by its weight.
fn flag(is_set: bool, weight: u32) -> u32
    ensures { result ≡ flag is_set weight }
{
    if is_set { weight } else { 0 }
}

/// What TT answers for an address.
#[tactic(auto, unfolding(crate::specs::Target::target_of, ns_types::specs::Platform::region_of))]
pub fn target(at: u32) -> u32
    ensures { result ≡ target_of at }
{
    let secure = is_secure(at);
    let readable = can_read(at, 1);
    let writable = can_write(at, 1);
    match region_at(at) {
        Some(region) => {
            0x100_0000 * region as u32
                + 0x80_0000
                + flag(secure, 0x40_0000)
                + flag(writable && !secure, 0x20_0000)
                + flag(readable && !secure, 0x10_0000)
                + flag(writable, 0x8_0000)
                + flag(readable, 0x4_0000)
        }
        None => 0,
    }
}
