//! The symbols that objects define, and their places.
ghost use Rattle.std.specs.Prelude.{◌≡◌, ◌+◌, true, Some, IfOk, OnOk};
ghost use Rattle.std.specs.List.{list_all};
ghost use Rattle.elf_object.specs.Linked.{or_else};
ghost use Rattle.linker.specs.Table as spec;

use crate::names::Names;
use cm_base::{List, NoMemory};
use elf_object::{Home, Sited, Symbol};
use ns_types::Veneer;
use std::alloc::Global;

/// The entries with the addresses of their veneers.
pub fn veneer_names(alloc: Global, veneers: &[Veneer]) -> Result<Names, NoMemory>
    ensures { IfOk result (λ names. names ≡ spec.veneer_names veneers.now) }
{
    let mut names = Names::new(alloc);
    for v in veneers {
        names.add(alloc, v.name.as_slice(), v.address)?;
    }
    Ok(names)
}

/// The address of a veneer, or else of a place in a part.
fn veneer_or(veneer: Option<u32>, at: u32) -> Option<u32>
    ensures { result ≡ or_else veneer (Some at) }
{
    match veneer {
        None => Some(at),
        Some(address) => Some(address),
    }
}

/// The place of a symbol that an object defines.
fn place_by(s: &Sited, entries: &Names, symbol: &Symbol) -> Option<u32>
    requires { spec.is_address s.now symbol.now.value symbol.now.home ≡ true }
    ensures { result ≡ spec.place_by entries.now s.now symbol.now.name symbol.now.value symbol.now.home }
{
    match symbol.home {
        Home::Undefined => None,
        Home::Text => veneer_or(
            entries.find(symbol.name.as_slice()),
            s.text_at + symbol.value,
        ),
        Home::Init => veneer_or(
            entries.find(symbol.name.as_slice()),
            s.init_at + symbol.value,
        ),
        Home::Absolute => Some(symbol.value),
    }
}

/// Adds a symbol of an object, if it is defined there.
fn add_symbol(
    alloc: Global,
    names: &mut Names,
    entries: &Names,
    s: &Sited,
    symbol: &Symbol,
) -> Result<(), NoMemory>
    requires { spec.is_address s.now symbol.now.value symbol.now.home ≡ true }
    ensures { OnOk result (names.new ≡ spec.with_symbol entries.now s.now names.old symbol.now) }
{
    match place_by(s, entries, symbol) {
        None => Ok(()),
        Some(place) => names.add(alloc, symbol.name.as_slice(), place),
    }
}

/// Adds the symbols that an object defines.
fn add_object(alloc: Global, names: &mut Names, entries: &Names, s: &Sited) -> Result<(), NoMemory>
    requires { spec.have_addresses s.now ≡ true }
    ensures { OnOk result (names.new ≡ spec.with_object entries.now names.old s.now) }
{
    for symbol in s.object.symbols.as_slice() {
        add_symbol(alloc, names, entries, s, symbol)?;
    }
    Ok(())
}

/// The names that objects define, with their places.
pub fn defined(alloc: Global, entries: &Names, all: &[Sited]) -> Result<Names, NoMemory>
    requires { list_all spec.have_addresses all.now ≡ true }
    ensures { IfOk result (λ names. names ≡ spec.defined entries.now all.now) }
{
    let mut names = Names::new(alloc);
    for s in all {
        add_object(alloc, &mut names, entries, s)?;
    }
    Ok(names)
}

/// The place of a symbol of an object: its own, or that of the symbol of its name that another object defines.
fn symbol_place(entries: &Names, names: &Names, s: &Sited, symbol: &Symbol) -> u32
    requires { spec.is_address s.now symbol.now.value symbol.now.home ≡ true }
    ensures { result ≡ spec.symbol_place entries.now names.now s.now symbol.now }
{
    match place_by(s, entries, symbol) {
        Some(place) => place,
        None => names.find(symbol.name.as_slice()).unwrap_or(0),
    }
}

/// The places of an object's symbols by their numbers.
pub fn places_of(
    alloc: Global,
    entries: &Names,
    names: &Names,
    s: &Sited,
) -> Result<List<u32>, NoMemory>
    requires { spec.have_addresses s.now ≡ true }
    ensures { IfOk result (λ places. places ≡ spec.places_of entries.now names.now s.now) }
{
    let mut places = List::new(alloc);
    for symbol in s.object.symbols.as_slice() {
        places.push(symbol_place(entries, names, s, symbol))?;
    }
    Ok(places)
}
