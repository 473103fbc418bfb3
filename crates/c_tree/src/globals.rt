//! The bytes of a program's globals.
ghost use Rattle.std.specs.Prelude.{◌≡◌, ◌≤◌, ◌<◌, ◌+◌, ◌*◌, ◌^◌, IsTrue, length};
ghost use Rattle.std.specs.List.{filter, fold};
ghost use Rattle.c_tree.specs.Globals as spec;
ghost use Rattle.c_types.specs.Sizes.{fits};

use crate::frame::bytes_of;
use crate::program::TGlobal;
use c_types::type_align;

fn round_up(at: u64, n: u64) -> u64
    requires positive { 0 < n }
    requires small { (at < 2 ^ 50) × (n < 2 ^ 32) }
    ensures value { result ≡ spec.round_up at n }
    ensures near { result < at + n }
{
    at + (n - at % n) % n
}

/// Where a global ends that stands behind so many bytes.
fn end_after(g: &TGlobal, at: u64) -> u64
    requires fits { IsTrue (fits g.now.ctype) }
    requires small { at < 2 ^ 50 }
    ensures value { result ≡ spec.end_after at g.now }
    ensures near { result ≤ at + 2 ^ 33 }
{
    let align = match type_align(&g.ctype) {
        Some(align) => u64::from(align).max(1),
        None => 1,
    };
    round_up(at, align) + bytes_of(&g.ctype)
}

/// Where the last of those globals ends that are, or aren't, left as they are at the start.
fn end_of(globals: &[TGlobal], noinit: bool, from: u64) -> u64
    requires few { length globals.now ≤ 16000 }
    requires fits { IsTrue (spec.all_fit globals.now) }
    requires small { from < 2 ^ 48 }
    ensures value { result ≡ fold spec.end_after from (filter (spec.stands noinit) globals.now) }
    ensures near { result ≤ from + 16000 * 2 ^ 33 }
{
    let mut at = from;
    for g in globals {
        if g.noinit == noinit {
            at = end_after(g, at);
        }
    }
    at
}

/// The bytes from the beginning of Secure data to the end of the last global, gaps included, and 0 where there is none.
/// The globals of a program within its limit on nodes are so few.
pub fn globals_bytes(globals: &[TGlobal]) -> u64
    requires few { length globals.now ≤ 16000 }
    requires types { IsTrue (spec.all_fit globals.now) }
    ensures { result ≡ spec.globals_bytes globals.now }
{
    end_of(globals, true, end_of(globals, false, 0))
}
