//! Globals.

ghost use Rattle.std.specs.Prelude.{◌≡◌, ◌+◌, ◌*◌, ◌^◌, ◌<◌, ◌≤◌, ◌++◌, false, IfOk, IsTrue, OnOk, length, replicate};
ghost use Rattle.c_mean.specs.Homes as spec;
ghost use Rattle.c_tree.specs.Globals as globals;
ghost use Rattle.c_tree.specs.Globals.{all_fit, globals_bytes};
ghost use Rattle.c_tree.specs.Slots as slots;
ghost use Rattle.c_types.specs.Sizes.{fits};
ghost use Rattle.std.specs.List.{filter, fold};

use c_tree::{TGlobal, globals_bytes};
use c_types::{CType, type_align, type_size};
use cm_base::{Bytes, List, NoMemory, SECURE_DATA};
use std::alloc::Global;

/// The least multiple of n that isn't below a number.
pub fn round_up(at: u64, n: u64) -> u64
    requires positive { 0 < n }
    requires small { (at < 2 ^ 50) × (n < 2 ^ 32) }
    ensures value { result ≡ globals.round_up at n }
    ensures near { (at ≤ result) × (result < at + n) }
{
    at + (n - at % n) % n
}

/// The bytes of an object of this type.
pub fn bytes_of(t: &CType) -> u64
    requires { IsTrue (fits t.now) }
    ensures value { result ≡ slots.bytes_of t.now }
    ensures near { result < 2 ^ 32 }
{
    match type_size(t) {
        Some(size) => size as u64,
        None => 0,
    }
}

/// Where an object of a type begins that stands behind so many bytes.
pub fn begins(at: u64, t: &CType) -> u64
    requires { at < 2 ^ 50 }
    ensures value { result ≡ spec.begins at t.now }
    ensures near { (at ≤ result) × (result < at + 2 ^ 32) }
{
    let align = match type_align(t) {
        Some(align) => align as u64,
        None => 1,
    };
    round_up(at, align.max(1))
}

/// Where a global ends that stands behind so many bytes.
fn end_after(g: &TGlobal, at: u64) -> u64
    requires fits { IsTrue (fits g.now.ctype) }
    requires small { at < 2 ^ 50 }
    ensures value { result ≡ globals.end_after at g.now }
    ensures near { result ≤ at + 2 ^ 33 }
{
    begins(at, &g.ctype) + bytes_of(&g.ctype)
}

/// Where the last global ends that isn't left as it is at the start.
fn end_of(list: &[TGlobal]) -> u64
    requires few { length list.now ≤ 16000 }
    requires types { IsTrue (all_fit list.now) }
    ensures value { result ≡ fold globals.end_after 0 (filter (globals.stands false) list.now) }
    ensures near { result ≤ 16000 * 2 ^ 33 }
{
    let mut at: u64 = 0;
    for g in list {
        if !g.noinit {
            at = end_after(g, at);
        }
    }
    at
}

/// Where a global stands behind so many bytes of Secure data.
fn home(at: u64, g: &TGlobal) -> Result<u32, NoMemory>
    requires { at < 2 ^ 50 }
    ensures { IfOk result (λ a. a ≡ spec.home at g.now) }
{
    match u32::try_from(SECURE_DATA.from as u64 + begins(at, &g.ctype)) {
        Ok(a) => Ok(a),
        Err(_) => Err(NoMemory),
    }
}

/// The homes of a program's globals, in their order. Those that are left as they are at the start follow all others.
pub fn homes(alloc: Global, globals: &[TGlobal]) -> Result<List<u32>, NoMemory>
    requires few { length globals.now ≤ 16000 }
    requires types { IsTrue (all_fit globals.now) }
    ensures { IfOk result (λ list. list ≡ spec.homes globals.now) }
{
    let mut list = List::new(alloc);
    let mut at: u64 = 0;
    let mut left = end_of(globals);
    for g in globals {
        if g.noinit {
            list.push(home(left, g)?)?;
            left = end_after(g, left);
        } else {
            list.push(home(at, g)?)?;
            at = end_after(g, at);
        }
    }
    Ok(list)
}

/// Adds n zeros.
fn pad(bytes: &mut Bytes, n: u64) -> Result<(), NoMemory>
    ensures { OnOk result (bytes.new ≡ bytes.old ++ replicate n 0) }
{
    for _i in 0..n {
        bytes.push(0)?;
    }
    Ok(())
}

/// Adds the bytes of a global, and zeros before them where there is a gap.
fn add_contents(bytes: &mut Bytes, g: &TGlobal) -> Result<(), NoMemory>
    ensures { OnOk result (bytes.new ≡ spec.with_contents bytes.old g.now) }
{
    let len = bytes.len() as u64;
    if len > 0x100_0000 {
        return Err(NoMemory);
    }
    pad(bytes, begins(len, &g.ctype) - len)?;
    bytes.extend_from_slice(g.init.as_slice())
}

/// What a program's globals hold at first, as bytes from the beginning of Secure data on.
pub fn contents(alloc: Global, globals: &[TGlobal]) -> Result<Bytes, NoMemory>
    ensures { IfOk result (λ bytes. bytes ≡ spec.contents globals.now) }
{
    let mut bytes = List::new(alloc);
    for g in globals {
        if !g.noinit {
            add_contents(&mut bytes, g)?;
        }
    }
    Ok(bytes)
}

/// The address where the data stack begins, behind a program's globals.
pub fn data_stack(globals: &[TGlobal]) -> u32
    requires few { length globals.now ≤ 16000 }
    requires types { IsTrue (all_fit globals.now) }
    requires bytes { globals_bytes globals.now ≤ 49152 }
    ensures { result ≡ spec.data_stack globals.now }
{
    SECURE_DATA.from + round_up(globals_bytes(globals), 8) as u32
}
