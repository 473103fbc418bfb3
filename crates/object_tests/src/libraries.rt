//! Veneers of one build after another, where each build has the library of the one before it (ECM0359818, Secure gateway veneers). The
//! Non-secure callable region begins at 103FF000, and a veneer has 8 bytes.

ghost use Rattle.std.specs.Prelude.{◌≡◌, ◌≢◌, ◌≤◌, length, AllPairs, IfOk};

use cm_base::{List, NoMemory, Text};
use ns_types::{Veneer, Veneers};
use std::alloc::Global;
use std::test::Fail;
use veneer_link::{LinkFault, assign};

/// The name of one entry.
fn one(alloc: Global, name: &[u8]) -> Result<List<Text>, NoMemory>
    ensures few { IfOk result (λ names. length names ≡ 1) }
    ensures differ { IfOk result (λ names. AllPairs (λ a b. a ≢ b) names) }
{
    let mut names = List::new(alloc);
    names.push(Text::from_slice(alloc, name)?)?;
    Ok(names)
}

/// The entries `a` and `b`.
fn both(alloc: Global) -> Result<List<Text>, NoMemory>
    ensures few { IfOk result (λ names. length names ≡ 2) }
    ensures differ { IfOk result (λ names. AllPairs (λ a b. a ≢ b) names) }
{
    let mut names = List::new(alloc);
    names.push(Text::from_slice(alloc, b"a")?)?;
    names.push(Text::from_slice(alloc, b"b")?)?;
    Ok(names)
}

/// A library with one veneer.
fn library(alloc: Global, name: &[u8], address: u32) -> Result<Veneers, NoMemory> {
    let mut list = List::new(alloc);
    list.push(Veneer {
        name: Text::from_slice(alloc, name)?,
        address,
    })?;
    Ok(Veneers { list })
}

/// The build of the entry `b` without a library.
fn first(alloc: Global) -> Result<Veneers, LinkFault> {
    let names = one(alloc, b"b")?;
    assign(alloc, names.as_slice(), None)
}

/// A build with a library of one veneer.
fn build(alloc: Global, entries: &[Text], old: &Veneers) -> Result<Veneers, LinkFault>
    requires few { length entries.now ≤ 2 }
    requires differ { AllPairs (λ a b. a ≢ b) entries.now }
{
    if old.list.len() > 1 {
        return Err(LinkFault::NoMemory);
    }
    assign(alloc, entries, Some(old))
}

/// The build of the entries `a` and `b`.
fn second(alloc: Global, old: &Veneers) -> Result<Veneers, LinkFault> {
    let names = both(alloc)?;
    build(alloc, names.as_slice(), old)
}

/// The build of the entry `a`.
fn third(alloc: Global, old: &Veneers) -> Result<Veneers, LinkFault> {
    let names = one(alloc, b"a")?;
    build(alloc, names.as_slice(), old)
}

fn is_veneer(veneers: &Veneers, k: usize, name: &[u8], address: u32) -> bool {
    match veneers.list.get(k) {
        Some(v) => v.name.as_slice() == name && v.address == address,
        None => false,
    }
}

/// Whether a library has one veneer, `b` at the first place.
fn is_first(veneers: &Veneers) -> bool {
    veneers.list.len() == 1 && is_veneer(veneers, 0, b"b", 0x103F_F000)
}

/// Whether a library has `b` at the first place, and `a` behind it.
fn is_second(veneers: &Veneers) -> bool {
    veneers.list.len() == 2
        && is_veneer(veneers, 0, b"b", 0x103F_F000)
        && is_veneer(veneers, 1, b"a", 0x103F_F008)
}

/// Whether a library has `a` at the first place, and `b` at the last one.
fn is_apart(veneers: &Veneers) -> bool {
    veneers.list.len() == 2
        && is_veneer(veneers, 0, b"a", 0x103F_F000)
        && is_veneer(veneers, 1, b"b", 0x103F_FFF8)
}

fn is_gone(fault: &LinkFault) -> bool {
    match fault {
        LinkFault::Gone(name) => name.as_slice() == b"b".as_slice(),
        _ => false,
    }
}

fn is_misplaced(fault: &LinkFault, at: u32) -> bool {
    match fault {
        LinkFault::BadAddress { name, address } => name.as_slice() == b"b".as_slice()
            && *address == at,
        _ => false,
    }
}

fn is_kept(alloc: Global, old: &Veneers) -> bool {
    match second(alloc, old) {
        Ok(veneers) => is_second(&veneers),
        Err(_fault) => false,
    }
}

fn is_missed(alloc: Global, old: &Veneers) -> bool {
    match third(alloc, old) {
        Ok(_veneers) => false,
        Err(fault) => is_gone(&fault),
    }
}

/// Three builds: `b`; `a` and `b` with the library of the first; `a` with it.
fn are_builds(alloc: Global) -> bool {
    match first(alloc) {
        Ok(old) => is_first(&old) && is_kept(alloc, &old) && is_missed(alloc, &old),
        Err(_fault) => false,
    }
}

#[test]
fn three_builds(rt: HostRuntime) -> Result<(), Fail> {
    assert!(rt; are_builds(rt.alloc()));
    Ok(())
}

fn is_refused(alloc: Global, old: &Veneers, address: u32) -> bool {
    match second(alloc, old) {
        Ok(_veneers) => false,
        Err(fault) => is_misplaced(&fault, address),
    }
}

/// Whether a library with `b` at an address is refused for it.
fn is_bad(alloc: Global, address: u32) -> bool {
    match library(alloc, b"b", address) {
        Ok(old) => is_refused(alloc, &old, address),
        Err(_memory) => false,
    }
}

fn is_put_below(alloc: Global, old: &Veneers) -> bool {
    match second(alloc, old) {
        Ok(veneers) => is_apart(&veneers),
        Err(_fault) => false,
    }
}

/// Whether `a` stands below `b`, which a library has at the last place.
fn keeps_last(alloc: Global) -> bool {
    match library(alloc, b"b", 0x103F_FFF8) {
        Ok(old) => is_put_below(alloc, &old),
        Err(_memory) => false,
    }
}

#[test]
fn old_addresses(rt: HostRuntime) -> Result<(), Fail> {
    let alloc = rt.alloc();
    assert!(rt; is_bad(alloc, 0x103F_F004));
    assert!(rt; is_bad(alloc, 0x103F_EFF8));
    assert!(rt; is_bad(alloc, 0x1040_0000));
    assert!(rt; keeps_last(alloc));
    Ok(())
}
