//! Which accesses the C program and Non-secure code may make.

ghost use Rattle.std.specs.Prelude.{◌≡◌, ◌<◌, IsTrue};
ghost use Rattle.ns_types.specs.Access.{may_read, may_write};
ghost use Rattle.ns_types.specs.Boundary.{item_stop};
ghost use Rattle.ns_types.specs.Platform.{aligned, in_row, is_nonsecure, is_secure};
ghost use Rattle.c_memory.specs.Writes.{is_size};

use cm_base::{NS_RAM, NS_ROM, NSC, SECURE_CONTROL, SECURE_DATA, SECURE_ROM, Stop};
use ns_types::Item;

/// Whether the program may write all `size` bytes at an address.
pub fn may_write(at: u32, size: u8) -> bool
    requires { IsTrue (is_size size) }
    ensures { result ≡ may_write at size }
{
    let end = at as u64 + size as u64;
    (SECURE_DATA.from <= at && end <= SECURE_DATA.to as u64)
        || (NS_RAM.from <= at && end <= NS_RAM.to as u64)
}

/// Whether the program may read all `size` bytes at an address.
pub fn may_read(at: u32, size: u8) -> bool
    requires { IsTrue (is_size size) }
    ensures { result ≡ may_read at size }
{
    may_write(at, size) || at as u64 + size as u64 <= NS_ROM.to as u64
}

/// Whether an address lies in Non-secure ROM.
pub fn is_in_ns_rom(at: u32) -> bool
    ensures { result ≡ in_row 0 at }
{
    at < NS_ROM.to
}

/// Whether an address lies in Non-secure RAM.
pub fn is_in_ns_ram(at: u32) -> bool
    ensures { result ≡ in_row 1 at }
{
    NS_RAM.from <= at && at < NS_RAM.to
}

/// Whether an address lies in Secure memory.
pub fn is_secure(at: u32) -> bool
    ensures { result ≡ is_secure at }
{
    (SECURE_ROM.from <= at && at < NSC.to) || (SECURE_DATA.from <= at && at < SECURE_CONTROL.to)
}

/// Whether an address lies in Non-secure memory.
pub fn is_nonsecure(at: u32) -> bool
    ensures { result ≡ is_nonsecure at }
{
    is_in_ns_rom(at) || is_in_ns_ram(at)
}

/// The greatest multiple of n that isn't above a number.
pub fn align(n: u32, at: u32) -> u32
    requires { 0 < n }
    ensures { result ≡ aligned n at }
{
    at - at % n
}

/// Why an item of a turn stops, if it does.
pub fn item_stop(item: &Item) -> Option<Stop>
    ensures { result ≡ item_stop item.now }
{
    let (at, may) = match *item {
        Item::Write { at, byte: _ } => (at, is_in_ns_ram(at)),
        Item::Read { at } => (at, is_nonsecure(at)),
    };
    if is_secure(at) {
        Some(Stop::Access)
    } else if may {
        None
    } else {
        Some(Stop::Astray)
    }
}
