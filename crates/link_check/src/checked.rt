//! Linking what is only known when it is there.
ghost use Rattle.std.specs.Prelude.{◌≡◌, true, bytes_eq, map, IfOk, IfSome};
ghost use Rattle.std.specs.List.{list_any};
ghost use Rattle.std.specs.Option.{option_copied};
ghost use Rattle.elf_object.specs.Placed.{Placed};
ghost use Rattle.elf_object.specs.Reading.{object_in};
ghost use Rattle.veneer_link.specs.Assign.{old_list};
ghost use Rattle.link_check.specs.Checks as spec;

use crate::entries::can_link;
use crate::files::{are_small, objects_of};
use cm_base::{Bytes, NoMemory, Text};
use linker::{Linked, link};
use ns_types::{Veneer, Veneers};
use std::alloc::Global;
use veneer_link::LinkFault;

/// Whether a name is that of one of these.
fn is_among(names: &[Text], name: &Text) -> bool
    ensures { result ≡ list_any (λ n. bytes_eq n name.now) names.now }
{
    for n in names {
        if n.as_slice() == name.as_slice() {
            return true;
        }
    }
    false
}

/// Whether these names differ.
fn names_differ(names: &[Text]) -> bool
    ensures { result ≡ spec.names_differ names.now }
{
    for (i, name) in names.iter().enumerate() {
        if is_among(&names[i + 1..], name) {
            return false;
        }
    }
    true
}

/// Whether one of these veneers has a name.
fn has_name(veneers: &[Veneer], name: &Text) -> bool
    ensures { result ≡ list_any (λ v. bytes_eq v.name name.now) veneers.now }
{
    for v in veneers {
        if v.name.as_slice() == name.as_slice() {
            return true;
        }
    }
    false
}

/// Whether these veneers have different names.
fn veneers_differ(veneers: &[Veneer]) -> bool
    ensures { result ≡ spec.veneers_differ veneers.now }
{
    for (i, v) in veneers.iter().enumerate() {
        if has_name(&veneers[i + 1..], &v.name) {
            return false;
        }
    }
    true
}

/// Whether an old library, if there is one, has different names.
fn old_differs(old: Option<&Veneers>) -> bool
    ensures { result ≡ spec.veneers_differ (old_list (option_copied old.entry)) }
{
    match old {
        None => true,
        Some(veneers) => veneers_differ(veneers.list.as_slice()),
    }
}

/// Whether object files of which nothing is known can be linked with these entries.
#[tactic(auto, using(crate::proofs::CheckLaws::names_apart))]
pub fn are_linkable(alloc: Global, files: &[Bytes], entries: &[Text]) -> Result<bool, NoMemory>
    ensures { IfOk result (λ b. b ≡ true → spec.IsLinkable files.now entries.now) }
{
    let small = are_small(files);
    let differ = names_differ(entries);
    if !small || entries.len() > 512 || !differ {
        return Ok(false);
    }
    match objects_of(alloc, files)? {
        None => Ok(false),
        Some(objects) => can_link(alloc, objects.as_slice(), entries),
    }
}

/// Links object files of which nothing is known: none where they, or the old library, aren't such as can be linked. The faults are those
/// of `link`.
#[tactic(auto, using(crate::proofs::CheckLaws::veneers_apart))]
pub fn checked_link(
    alloc: Global,
    files: &[Bytes],
    entries: &[Text],
    old: Option<&Veneers>,
) -> Result<Option<Linked>, LinkFault>
    ensures value { spec.LinksIf files.now entries.now (old_list (option_copied old.entry)) result }
    ensures placed { IfOk result (λ o. IfSome o (λ l. Placed l.rom (map object_in files.now) l.veneers.list)) }
{
    let linkable = are_linkable(alloc, files, entries)?;
    let differs = old_differs(old);
    if !linkable || !differs {
        return Ok(None);
    }
    match link(alloc, files, entries, old) {
        Ok(linked) => Ok(Some(linked)),
        Err(fault) => Err(fault),
    }
}
