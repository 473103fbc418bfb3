//! Names and veneers in lists.
ghost use Rattle.std.specs.Prelude.{◌≡◌, ◌+◌, ◌*◌, ◌≤◌, ◌<◌, ◌^◌, [], ◌∷◌, ◌++◌, not, filter, IfOk, OnOk};
ghost use Rattle.veneer_link.specs.Assign.{is_among, has_name, is_taken, place_count, places_from, free, newcomers, placed};

use cm_base::{List, NSC, NoMemory, Text};
use ns_types::Veneer;
use std::alloc::Global;

/// How many places of veneers the Non-secure callable region has.
const PLACE_COUNT: u32 = 512;

/// Whether a name is one of these.
pub fn is_among(names: &[Text], name: &Text) -> bool
    ensures { result ≡ is_among names.now name.now }
{
    for n in names {
        if n.as_slice() == name.as_slice() {
            return true;
        }
    }
    false
}

/// Whether one of these veneers has a name.
fn has_name(veneers: &[Veneer], name: &Text) -> bool
    ensures { result ≡ has_name veneers.now name.now }
{
    for v in veneers {
        if v.name.as_slice() == name.as_slice() {
            return true;
        }
    }
    false
}

/// Whether one of these veneers stands at an address.
pub fn is_taken(veneers: &[Veneer], address: u32) -> bool
    ensures { result ≡ is_taken veneers.now address }
{
    for v in veneers {
        if v.address == address {
            return true;
        }
    }
    false
}

/// A copy of veneers.
pub fn copies(alloc: Global, veneers: &[Veneer]) -> Result<List<Veneer>, NoMemory>
    ensures { IfOk result (λ list. list ≡ veneers.now) }
{
    let mut list = List::new(alloc);
    for v in veneers {
        list.push(Veneer {
            name: v.name.try_clone(alloc)?,
            address: v.address,
        })?;
    }
    Ok(list)
}

/// The entries that no old veneer has the name of.
pub fn newcomers(alloc: Global, entries: &[Text], old: &[Veneer]) -> Result<List<Text>, NoMemory>
    ensures { IfOk result (λ names. names ≡ newcomers entries.now old.now) }
{
    let mut names = List::new(alloc);
    for name in entries {
        if !has_name(old, name) {
            names.push(name.try_clone(alloc)?)?;
        }
    }
    Ok(names)
}

#[tactic(auto, unfolding(crate::specs::Assign::place_count))]
fn place_count() -> u32
    ensures value { result ≡ place_count }
    ensures few { result ≤ 512 }
{
    PLACE_COUNT
}

/// Adds a place, if no old veneer stands there.
fn add_free(free: &mut List<u32>, old: &[Veneer], at: u32) -> Result<(), NoMemory>
    ensures { OnOk result (free.new ≡ free.old ++ filter (λ a. not (is_taken old.now a)) (at ∷ [])) }
{
    if is_taken(old, at) {
        return Ok(());
    }
    free.push(at)
}

/// Those of n places from an address on that no old veneer stands at.
fn free_from(alloc: Global, n: u32, from: u32, old: &[Veneer]) -> Result<List<u32>, NoMemory>
    requires { from + 8 * n < 2 ^ 32 }
    ensures { IfOk result (λ free. free ≡ filter (λ a. not (is_taken old.now a)) (places_from n from)) }
{
    let mut free = List::new(alloc);
    let mut at = from;
    for _i in 0..n {
        add_free(&mut free, old, at)?;
        at += 8;
    }
    Ok(free)
}

/// The places that no old veneer stands at, the lowest first.
pub fn free(alloc: Global, old: &[Veneer]) -> Result<List<u32>, NoMemory>
    ensures { IfOk result (λ list. list ≡ free old.now) }
{
    free_from(alloc, place_count(), NSC.from, old)
}

/// Adds a veneer for each name, at the places in their order.
pub fn place(
    alloc: Global,
    to: &mut List<Veneer>,
    names: &[Text],
    places: &[u32],
) -> Result<(), NoMemory>
    ensures { OnOk result (to.new ≡ to.old ++ placed names.now places.now) }
{
    for (i, address) in places.iter().enumerate() {
        match names.get(i) {
            None => return Ok(()),
            Some(name) => to.push(Veneer {
                name: name.try_clone(alloc)?,
                address: *address,
            })?,
        }
    }
    Ok(())
}
