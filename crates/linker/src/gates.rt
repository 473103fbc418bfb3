//! The Non-secure callable region, and the symbols of its veneers.
ghost use Rattle.std.specs.Prelude.{◌≡◌, ◌+◌, ◌*◌, ◌<◌, ◌≤◌, ◌^◌, ◌++◌, flat_map, codes, All, IfOk, OnOk, Option};
ghost use Rattle.std.specs.Option.{option_copied};
ghost use Rattle.cm_base.specs.declared.regions.TheConstants.{NSC};
ghost use Rattle.elf_object.specs.declared.object.Home.TheVariants.{Absolute};
ghost use Rattle.elf_object.specs.Placed.{veneer_code, twin};
ghost use Rattle.veneer_link.specs.Assign.{place_count, places_from};
ghost use Rattle.link_laws.specs.Resolve.{Reaches};
ghost use Rattle.link_laws.specs.Rom as rom;
ghost use Rattle.linker.specs.Passes as spec;

use crate::names::Names;
use crate::relocation::word_of;
use cm_base::{Bytes, List, NSC, NoMemory, Text};
use elf_object::{Home, Symbol};
use elf32::put32;
use ns_types::Veneer;
use std::alloc::Global;
use v8m_isa::Instr;

/// How many places of veneers the Non-secure callable region has.
const PLACE_COUNT: u32 = 512;

/// What the name of an entry's code begins with.
const TWIN: &[u8] = b"__acle_se_";

/// The name of an entry's code.
fn twin_of(alloc: Global, name: &Text) -> Result<Text, NoMemory>
    ensures { IfOk result (λ twin_name. twin_name ≡ twin name.now) }
{
    let mut twin = Text::from_slice(alloc, TWIN)?;
    twin.extend_from_slice(name.as_slice())?;
    Ok(twin)
}

/// The place of an entry's code.
fn code_of(alloc: Global, names: &Names, v: &Veneer) -> Result<u32, NoMemory>
    ensures { IfOk result (λ code. code ≡ spec.place_named names.now (twin v.now.name)) }
{
    let twin = twin_of(alloc, &v.name)?;
    Ok(names.place_of(twin.as_slice()))
}

/// The veneer at an address.
fn veneer_at(veneers: &[Veneer], at: u32) -> Option<&Veneer>
    ensures { option_copied result ≡ rom.veneer_at veneers.now at }
{
    for v in veneers {
        if v.address == at {
            return Some(v);
        }
    }
    None
}

/// Appends a veneer at an address: SG, and a B.W to the entry's code, which counts from 4 bytes behind its own address.
#[tactic(auto, unfolding(v8m_isa::specs::Table::in_range_of, v8m_isa::specs::Table::size_of))]
fn put_veneer(to: &mut Bytes, address: u32, code: u32) -> Result<(), NoMemory>
    requires low { address + 8 < 2 ^ 32 }
    requires reach { Reaches 30 (address + 4) code }
    ensures { OnOk result (to.new ≡ to.old ++ veneer_code address code) }
{
    let off = code.wrapping_sub(address + 8);
    put32(to, word_of(&Instr::Sg))?;
    put32(to, word_of(&Instr::B { off }))
}

/// Appends the 8 bytes of an address: those of the veneer that stands there, or zero bytes.
fn put_gate(
    alloc: Global,
    to: &mut Bytes,
    names: &Names,
    veneers: &[Veneer],
    at: u32,
) -> Result<(), NoMemory>
    requires { All (spec.CanLead names.now) veneers.now }
    ensures { OnOk result (to.new ≡ to.old ++ spec.gate_at veneers.now names.now at) }
{
    match veneer_at(veneers, at) {
        None => to.extend_from_slice(&[0; 8]),
        Some(v) => {
            let code = code_of(alloc, names, v)?;
            put_veneer(to, v.address, code)
        }
    }
}

/// Appends the bytes of n places from an address on.
fn put_gates_from(
    alloc: Global,
    to: &mut Bytes,
    names: &Names,
    veneers: &[Veneer],
    n: u32,
    from: u32,
) -> Result<(), NoMemory>
    requires low { from + 8 * n < 2 ^ 32 }
    requires can { All (spec.CanLead names.now) veneers.now }
    ensures { OnOk result (to.new ≡ to.old ++ flat_map (spec.gate_at veneers.now names.now) (places_from n from)) }
{
    let mut at = from;
    for _i in 0..n {
        put_gate(alloc, to, names, veneers, at)?;
        at += 8;
    }
    Ok(())
}

#[tactic(auto, unfolding(veneer_link::specs::Assign::place_count))]
fn place_count() -> u32
    ensures value { result ≡ place_count }
    ensures few { result ≤ 512 }
{
    PLACE_COUNT
}

/// Appends the Non-secure callable region.
pub fn put_gates(
    alloc: Global,
    to: &mut Bytes,
    names: &Names,
    veneers: &[Veneer],
) -> Result<(), NoMemory>
    requires { All (spec.CanLead names.now) veneers.now }
    ensures { OnOk result (to.new ≡ to.old ++ flat_map (spec.gate_at veneers.now names.now) (places_from place_count NSC.from)) }
{
    put_gates_from(alloc, to, names, veneers, place_count(), NSC.from)
}

/// A symbol of an address.
fn absolute(name: Text, value: u32) -> Symbol
    ensures { result ≡ record { name = name; home = Absolute; value = value } }
{
    Symbol {
        name,
        home: Home::Absolute,
        value,
    }
}

/// Adds the symbols of a veneer: its entry's name at its address, and the twin at the entry's code.
fn add_symbols(
    alloc: Global,
    symbols: &mut List<Symbol>,
    names: &Names,
    v: &Veneer,
) -> Result<(), NoMemory>
    ensures { OnOk result (symbols.new ≡ symbols.old ++ spec.symbols_of_veneer names.now v.now) }
{
    symbols.push(absolute(v.name.try_clone(alloc)?, v.address))?;
    let code = code_of(alloc, names, v)?;
    symbols.push(absolute(twin_of(alloc, &v.name)?, code))
}

/// The symbols of veneers.
pub fn symbols_of(
    alloc: Global,
    names: &Names,
    veneers: &[Veneer],
) -> Result<List<Symbol>, NoMemory>
    ensures { IfOk result (λ symbols. symbols ≡ flat_map (spec.symbols_of_veneer names.now) veneers.now) }
{
    let mut symbols = List::new(alloc);
    for v in veneers {
        add_symbols(alloc, &mut symbols, names, v)?;
    }
    Ok(symbols)
}
