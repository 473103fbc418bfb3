//! The check of an address range.

ghost use Rattle.std.specs.Prelude.{◌≡◌, ◌<◌, ◌+◌, ◌&&◌, leb};
ghost use Rattle.ns_types.specs.Platform.{lies_in};
ghost use Rattle.ns_types.specs.Range as spec;

use cm_base::{NS_RAM, NS_ROM, NSC, Row, SECURE_CONTROL, SECURE_DATA, SECURE_ROM};

/// Whether a region holds all n bytes from an address.
fn holds(row: Row, p: u32, n: u32) -> bool
    ensures { result ≡ (leb row.from p && leb (p + n) row.to) }
{
    row.from <= p && p as u64 + n as u64 <= row.to as u64
}

/// The number of the region that holds all n bytes from an address.
#[tactic(auto, using(crate::proofs::RangeLaws::all_is_ends), unfolding(ns_types::specs::Range::row_of_all))]
fn row_of_all(p: u32, n: u32) -> Option<u32>
    requires { 0 < n }
    ensures { result ≡ spec.row_of_all p n }
{
    if holds(NS_ROM, p, n) {
        Some(0)
    } else if holds(NS_RAM, p, n) {
        Some(1)
    } else if holds(SECURE_ROM, p, n) {
        Some(2)
    } else if holds(NSC, p, n) {
        Some(3)
    } else if holds(SECURE_DATA, p, n) {
        Some(4)
    } else if holds(SECURE_CONTROL, p, n) {
        Some(5)
    } else {
        None
    }
}

/// Whether Secure code may write a region.
fn can_write_row(k: u32) -> bool
    ensures { result ≡ spec.can_write_row k }
{
    k == 1 || k == 4 || k == 5
}

/// Whether flags ask for what has this weight.
fn asks(weight: u32, flags: u32) -> bool
    requires { 0 < weight }
    ensures { result ≡ spec.asks weight flags }
{
    flags / weight % 2 == 1
}

/// Whether a region has what the flags ask.
fn has_asked(flags: u32, k: u32) -> bool
    ensures { result ≡ spec.has_asked flags k }
{
    (!asks(1, flags) || can_write_row(k)) && (!asks(2, flags) || k <= 1)
}

/// The check of n bytes from p under the flags of `cmse_check_address_range` (ECM0359818): p, or 0 where it fails.
#[tactic(auto, unfolding(ns_types::specs::Range::checked_range))]
pub fn checked_range(p: u32, n: u32, flags: u32) -> u32
    ensures { result ≡ spec.checked_range p n flags }
{
    let n = n.max(1);
    if flags > 31 || p as u64 + n as u64 - 1 > 0xFFFF_FFFF {
        return 0;
    }
    match row_of_all(p, n) {
        Some(k) => { if has_asked(flags, k) { p } else { 0 } }
        None => 0,
    }
}
