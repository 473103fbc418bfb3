//! The entries, and all that is asked of objects.
ghost use Rattle.std.specs.Prelude.{◌≡◌, true, not, bytes_eq, All, IfOk};
ghost use Rattle.std.specs.List.{list_all, list_any};
ghost use Rattle.elf_object.specs.CanLink.{CanLink};
ghost use Rattle.elf_object.specs.File.{CanWrite};
ghost use Rattle.elf_object.specs.Placed.{twin};
ghost use Rattle.link_check.specs.Checks as spec;

use crate::names::{has_code, is_code, is_once};
use crate::objects::{object_passes, sizes_pass};
use cm_base::{NoMemory, Text};
use elf_object::{Object, Symbol};
use std::alloc::Global;

/// What the name of an entry's code begins with.
const TWIN: &[u8] = b"__acle_se_";

/// The name of an entry's code.
fn twin_of(alloc: Global, name: &Text) -> Result<Text, NoMemory>
    ensures { IfOk result (λ twin_name. twin_name ≡ twin name.now) }
{
    let mut twin = Text::from_slice(alloc, TWIN)?;
    twin.extend_from_slice(name.as_slice())?;
    Ok(twin)
}

/// Whether a symbol is an entry's code, at this value.
fn is_twin(code: &[u8], value: u32, t: &Symbol) -> bool
    ensures { result ≡ spec.is_twin code.now value t.now }
{
    is_code(code, t) && t.value == value
}

/// Whether one of these symbols is an entry's code, at this value.
fn has_value(code: &[u8], value: u32, symbols: &[Symbol]) -> bool
    ensures { result ≡ list_any (spec.is_twin code.now value) symbols.now }
{
    for t in symbols {
        if is_twin(code, value, t) {
            return true;
        }
    }
    false
}

/// Whether a symbol is an entry's code, and one of these is its twin.
fn has_twin(name: &[u8], code: &[u8], symbols: &[Symbol], s: &Symbol) -> bool
    ensures { result ≡ spec.has_twin name.now code.now symbols.now s.now }
{
    is_code(name, s) && has_value(code, s.value, symbols)
}

/// Whether an object has an entry's code under its name and under its twin's.
fn has_entry(name: &[u8], code: &[u8], o: &Object) -> bool
    ensures { result ≡ spec.has_entry name.now code.now o.now }
{
    let symbols = o.symbols.as_slice();
    for s in symbols {
        if has_twin(name, code, symbols, s) {
            return true;
        }
    }
    false
}

/// Whether one of these objects has.
fn is_defined(objects: &[Object], name: &[u8], code: &[u8]) -> bool
    ensures { result ≡ list_any (spec.has_entry name.now code.now) objects.now }
{
    for o in objects {
        if has_entry(name, code, o) {
            return true;
        }
    }
    false
}

/// Whether a name is none of the entries'.
fn is_other(entries: &[Text], code: &[u8]) -> bool
    ensures { result ≡ list_all (λ other. not (bytes_eq code.now other)) entries.now }
{
    for other in entries {
        if code == other.as_slice() {
            return false;
        }
    }
    true
}

/// Whether an entry passes.
fn entry_passes(
    alloc: Global,
    objects: &[Object],
    entries: &[Text],
    name: &Text,
) -> Result<bool, NoMemory>
    ensures { IfOk result (λ b. b ≡ spec.entry_passes objects.now entries.now name.now) }
{
    let twin = twin_of(alloc, name)?;
    let code = twin.as_slice();
    let name = name.as_slice();
    Ok(
        is_defined(objects, name, code)
            && (is_once(objects, name) && (is_once(objects, code) && is_other(entries, code))),
    )
}

/// Whether all entries pass.
fn entries_pass(alloc: Global, objects: &[Object], entries: &[Text]) -> Result<bool, NoMemory>
    ensures { IfOk result (λ b. b ≡ list_all (spec.entry_passes objects.now entries.now) entries.now) }
{
    for name in entries {
        let passes = entry_passes(alloc, objects, entries, name)?;
        if !passes {
            return Ok(false);
        }
    }
    Ok(true)
}

/// Whether the code of a name is defined once.
fn code_passes(objects: &[Object], name: &[u8]) -> bool
    ensures { result ≡ spec.code_passes objects.now name.now }
{
    has_code(objects, name) && is_once(objects, name)
}

/// Whether all objects pass.
fn objects_pass(objects: &[Object]) -> bool
    requires { All CanWrite objects.now }
    ensures { result ≡ list_all (spec.object_passes objects.now) objects.now }
{
    for o in objects {
        if !object_passes(objects, o) {
            return false;
        }
    }
    true
}

/// Whether objects and entries pass all that is asked of them where they are linked.
#[tactic(auto, using(crate::proofs::CheckLaws::can))]
pub fn can_link(alloc: Global, objects: &[Object], entries: &[Text]) -> Result<bool, NoMemory>
    requires { All CanWrite objects.now }
    ensures value { IfOk result (λ b. b ≡ spec.passes objects.now entries.now) }
    ensures can { IfOk result (λ b. b ≡ true → CanLink objects.now entries.now) }
{
    let entries_pass = entries_pass(alloc, objects, entries)?;
    Ok(
        sizes_pass(objects)
            && (objects_pass(objects)
                && (entries_pass
                    && (code_passes(objects, b".start") && code_passes(objects, b".stop")))),
    )
}
