//! Objects by themselves and among the others.
ghost use Rattle.std.specs.Prelude.{◌≡◌, ◌+◌, ◌≤◌, ◌<◌, ◌^◌, true, nat_le, length, slice_get};
ghost use Rattle.std.specs.List.{list_all};
ghost use Rattle.std.specs.Option.{option_copied};
ghost use Rattle.ns_types.specs.Memory.{half_at};
ghost use Rattle.v8m_isa.specs.Decoding.{decode_of};
ghost use Rattle.elf_object.specs.CanLink.{is_form};
ghost use Rattle.elf_object.specs.File.{CanWrite};
ghost use Rattle.link_check.specs.Checks as spec;

use crate::names::{has_code, is_defined, is_once};
use elf_object::{
    Home, Object, R_ARM_ABS32, R_ARM_THM_CALL, R_ARM_THM_JUMP24, R_ARM_THM_MOVT_ABS,
    R_ARM_THM_MOVW_ABS_NC, Reloc, Symbol,
};
use v8m_isa::{Instr, decode};

/// The most bytes of all texts, and of all initial contents.
const MOST_TEXT: usize = 4_100_096;

const MOST_INIT: usize = 49_152;

/// Whether a value lies in its part.
fn value_fits(o: &Object, s: &Symbol) -> bool
    ensures { result ≡ spec.value_fits o.now s.now.value s.now.home }
{
    match s.home {
        Home::Undefined => true,
        Home::Text => s.value % 2 == 0 && s.value as usize <= o.text.len(),
        Home::Init => s.value as usize <= o.init.len(),
        Home::Absolute => true,
    }
}

/// Whether a symbol has its value, and is defined once where its own object doesn't define it.
fn symbol_passes(objects: &[Object], o: &Object, s: &Symbol) -> bool
    ensures { result ≡ spec.symbol_passes objects.now o.now s.now }
{
    value_fits(o, s) && (is_defined(s.home) || is_once(objects, s.name.as_slice()))
}

/// Whether all symbols of an object pass.
fn symbols_pass(objects: &[Object], o: &Object) -> bool
    ensures { result ≡ list_all (spec.symbol_passes objects.now o.now) o.now.symbols }
{
    for s in o.symbols.as_slice() {
        if !symbol_passes(objects, o, s) {
            return false;
        }
    }
    true
}

/// The halfword at a place of a text.
#[tactic(auto, unfolding(ns_types::specs::Memory::half_at))]
fn half_at(text: &[u8], at: usize) -> u16
    requires { at + 2 ≤ length text.now }
    ensures { result ≡ half_at text.now at }
{
    text[at] as u16 + 0x100 * text[at + 1] as u16
}

/// Whether an instruction is of the form that a relocation of this kind is at.
fn is_form(kind: u8, i: &Instr) -> bool
    ensures { result ≡ is_form kind i.now }
{
    match *i {
        Instr::Bl { .. } => kind == R_ARM_THM_CALL,
        Instr::B { .. } => kind == R_ARM_THM_JUMP24,
        Instr::Movw { .. } => kind == R_ARM_THM_MOVW_ABS_NC,
        Instr::Movt { .. } => kind == R_ARM_THM_MOVT_ABS,
        _ => false,
    }
}

/// Whether the instruction of its form stands at a relocation.
fn stands(text: &[u8], r: &Reloc) -> bool
    requires { r.now.at + 4 ≤ length text.now }
    ensures { result ≡ spec.stands text.now r.now }
{
    if r.kind == R_ARM_ABS32 {
        return true;
    }
    let at = r.at as usize;
    match decode(half_at(text, at), half_at(text, at + 2)) {
        None => false,
        Some((i, _size)) => is_form(r.kind, &i),
    }
}

/// Whether a branch may lead to a symbol.
fn is_target(objects: &[Object], s: &Symbol) -> bool
    ensures { result ≡ spec.is_target objects.now s.now.name s.now.home }
{
    match s.home {
        Home::Undefined => has_code(objects, s.name.as_slice()),
        Home::Text => true,
        Home::Init => false,
        Home::Absolute => false,
    }
}

/// Whether a relocation of this kind may lead to a symbol.
fn leads(objects: &[Object], kind: u8, symbol: Option<&Symbol>) -> bool
    ensures { result ≡ spec.leads objects.now kind (option_copied symbol.entry) }
{
    match symbol {
        None => false,
        Some(s) => {
            !(kind == R_ARM_THM_CALL || kind == R_ARM_THM_JUMP24) || is_target(objects, s)
        }
    }
}

/// Whether a relocation can be resolved.
fn reloc_passes(objects: &[Object], o: &Object, r: &Reloc) -> bool
    requires { r.now.at + 4 ≤ length o.now.text }
    ensures { result ≡ spec.reloc_passes objects.now o.now r.now }
{
    r.at % 2 == 0
        && stands(o.text.as_slice(), r)
        && leads(objects, r.kind, o.symbols.get(r.symbol as usize))
}

/// Whether all relocations of an object pass.
fn relocs_pass(objects: &[Object], o: &Object) -> bool
    requires { CanWrite o.now }
    ensures { result ≡ list_all (spec.reloc_passes objects.now o.now) o.now.relocs }
{
    for r in o.relocs.as_slice() {
        if !reloc_passes(objects, o, r) {
            return false;
        }
    }
    true
}

/// Whether each relocation stands behind the one before it.
fn are_apart(relocs: &[Reloc]) -> bool
    ensures { result ≡ spec.are_apart 0 relocs.now }
{
    let mut end: u64 = 0;
    for r in relocs {
        if u64::from(r.at) < end {
            return false;
        }
        end = u64::from(r.at) + 4;
    }
    true
}

/// Whether an object can be linked with all of these.
pub fn object_passes(objects: &[Object], o: &Object) -> bool
    requires { CanWrite o.now }
    ensures { result ≡ spec.object_passes objects.now o.now }
{
    symbols_pass(objects, o) && (relocs_pass(objects, o) && are_apart(o.relocs.as_slice()))
}

/// Whether all texts together aren't too large.
fn texts_fit(objects: &[Object]) -> bool
    ensures { result ≡ nat_le (spec.text_size objects.now) 4100096 }
{
    let mut left = MOST_TEXT;
    for o in objects {
        if o.text.len() > left {
            return false;
        }
        left -= o.text.len();
    }
    true
}

/// Whether all initial contents together aren't too large.
fn inits_fit(objects: &[Object]) -> bool
    ensures { result ≡ nat_le (spec.init_size objects.now) 49152 }
{
    let mut left = MOST_INIT;
    for o in objects {
        if o.init.len() > left {
            return false;
        }
        left -= o.init.len();
    }
    true
}

/// Whether there is room for all of these.
pub fn sizes_pass(objects: &[Object]) -> bool
    ensures { result ≡ spec.sizes_pass objects.now }
{
    objects.len() <= 33 && (texts_fit(objects) && inits_fit(objects))
}
