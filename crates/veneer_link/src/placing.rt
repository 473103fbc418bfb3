//! Where the veneers stand.
ghost use Rattle.std.specs.Prelude.{◌≡◌, ◌≢◌, ◌≤◌, length, All, AllPairs, Contains, OnOk, IfOk};
ghost use Rattle.std.specs.Option.{option_copied};
ghost use Rattle.std.specs.List.Sorted.{IsPermutation, IsNonDecreasingBy};
ghost use Rattle.veneer_link.specs.Assign.{old_list, is_place, first_gone, misplaced_after, first_misplaced, IsAssigned, Assigns};

use crate::fault::LinkFault;
use crate::lists::{copies, free, is_among, is_taken, newcomers, place};
use cm_base::{List, NSC, NoMemory, Text};
use ns_types::{Veneer, Veneers};
use std::alloc::Global;

/// The veneers of an old library, or none.
fn old_list<'a>(old: Option<&'a Veneers>) -> &'a [Veneer]
    ensures { result.now ≡ old_list (option_copied old.entry) }
{
    match old {
        None => &[],
        Some(veneers) => veneers.list.as_slice(),
    }
}

/// Whether an address is a multiple of 8 in the Non-secure callable region.
fn is_place(address: u32) -> bool
    ensures { result ≡ is_place address }
{
    NSC.from <= address && (address < NSC.to && address % 8 == 0)
}

/// The first old veneer whose name isn't an entry.
fn first_gone<'a>(entries: &[Text], old: &'a [Veneer]) -> Option<&'a Veneer>
    ensures { option_copied result ≡ first_gone entries.now old.now }
{
    for v in old {
        if !is_among(entries, &v.name) {
            return Some(v);
        }
    }
    None
}

/// The first old veneer that doesn't stand at a place of veneers, or stands where an earlier one does.
fn first_misplaced(old: &[Veneer]) -> Option<&Veneer>
    ensures { option_copied result ≡ first_misplaced old.now }
{
    for (i, v) in old.iter().enumerate() {
        if !is_place(v.address) || is_taken(&old[..i], v.address) {
            return Some(v);
        }
    }
    None
}

/// Veneers by their addresses.
fn by_address(list: List<Veneer>) -> Result<List<Veneer>, NoMemory>
    ensures same { IfOk result (λ sorted. IsPermutation list sorted) }
    ensures ascending { IfOk result (λ sorted. IsNonDecreasingBy (λ v. v.address) sorted) }
{
    let mut items = list.into_vec();
    items.sort_by_key(|v| v.address)?;
    Ok(List::from_vec(items))
}

/// The old veneers with those of the other entries.
fn assigned(alloc: Global, entries: &[Text], old: &[Veneer]) -> Result<Veneers, NoMemory>
    ensures { IfOk result (λ new. IsAssigned entries.now old.now new.list) }
{
    let names = newcomers(alloc, entries, old)?;
    let places = free(alloc, old)?;
    let mut list = copies(alloc, old)?;
    place(alloc, &mut list, names.as_slice(), places.as_slice())?;
    let list = by_address(list)?;
    Ok(Veneers { list })
}

/// The veneers of these entries, or the first old one that is gone or misplaced.
fn assign_to(alloc: Global, entries: &[Text], old: &[Veneer]) -> Result<Veneers, LinkFault>
    ensures value { Assigns entries.now old.now result }
    ensures kept { IfOk result (λ new. All (Contains new.list) old.now) }
{
    if let Some(v) = first_gone(entries, old) {
        return Err(LinkFault::Gone(v.name.try_clone(alloc)?));
    }
    if let Some(v) = first_misplaced(old) {
        return Err(LinkFault::BadAddress {
            name: v.name.try_clone(alloc)?,
            address: v.address,
        });
    }
    let veneers = assigned(alloc, entries, old)?;
    Ok(veneers)
}

/// Where the veneers of these entries stand: the old names keep their addresses, and the others, in their order, take the lowest
/// free places. Gone comes exactly where an old name isn't an entry, with the first such name; BadAddress exactly where all are, and
/// an old address isn't a multiple of 8 in the Non-secure callable region or stands already at an earlier name, with the first such
/// veneer.
pub fn assign(alloc: Global, entries: &[Text], old: Option<&Veneers>) -> Result<Veneers, LinkFault>
    requires few { length entries.now ≤ 512 }
    requires entries_differ { AllPairs (λ a b. a ≢ b) entries.now }
    requires old_differ { AllPairs (λ v w. v.name ≢ w.name) (old_list (option_copied old)) }
    ensures value { Assigns entries.now (old_list (option_copied old.entry)) result }
    ensures kept { IfOk result (λ new. All (Contains new.list) (old_list (option_copied old.entry))) }
{
    assign_to(alloc, entries, old_list(old))
}
