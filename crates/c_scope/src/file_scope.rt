//! Declarations at file scope.

ghost use Rattle.std.specs.Prelude.{◌≡◌, IfOk, slice_get};
ghost use Rattle.c_types.specs.Kind.{look};
ghost use Rattle.c_scope.specs.FileScope as spec;
ghost use Rattle.c_scope.specs.Steps.{Leaves};

use crate::blocks::is_made;
use crate::tables::{Known, Linkage, Meaning, State, Tables};
use c_ast::Name;
use c_rows::{TypeFault, at};
use c_types::{CType, Shape, same_type};
use cm_base::NoMemory;
use cmse_rules::{has_secure_pointer, is_reserved};
use std::alloc::Global;

/// Whether file scope has a name already.
pub fn is_declared(tables: &Tables, text: &[u8]) -> bool
    ensures { result ≡ spec.is_declared tables.now text.now }
{
    tables.names.place_of(text).is_some()
}

/// Adds a name of file scope.
pub fn add_meaning(
    alloc: Global,
    tables: &mut Tables,
    text: &[u8],
    meaning: Meaning,
) -> Result<(), NoMemory>
    ensures { IfOk result (λ _. tables.new ≡ spec.with_meaning text.now meaning tables.old) }
{
    tables.names.add(alloc, text)?;
    tables.meanings.push(meaning)
}

/// Declares a typedef. At its name it is E21 where file scope has the name already, E24 where its type is too large, E29
/// where a pointer to a Secure function stands in it, and E45 where the name is reserved.
pub fn declare_typedef(
    alloc: Global,
    tables: &mut Tables,
    name: &Name,
    ctype: CType,
) -> Result<(), TypeFault>
    ensures { Leaves result tables.new (spec.declare_typedef name.now ctype tables.old) }
{
    if is_declared(tables, name.text.as_slice()) {
        return Err(at(21, name.place));
    }
    if !ctype.fits() {
        return Err(at(24, name.place));
    }
    if has_secure_pointer(&ctype) {
        return Err(at(29, name.place));
    }
    if is_reserved(name.text.as_slice()) {
        return Err(at(45, name.place));
    }
    let meaning = Meaning::Typedef(ctype);
    Ok(add_meaning(alloc, tables, name.text.as_slice(), meaning)?)
}

/// Declares an enumeration constant. At its name it is E21 where file scope has the name already, and E45 where it is
/// reserved.
pub fn declare_constant(
    alloc: Global,
    tables: &mut Tables,
    name: &Name,
    n: u32,
) -> Result<(), TypeFault>
    ensures { Leaves result tables.new (spec.declare_constant name.now n tables.old) }
{
    if is_declared(tables, name.text.as_slice()) {
        return Err(at(21, name.place));
    }
    if is_reserved(name.text.as_slice()) {
        return Err(at(45, name.place));
    }
    let meaning = Meaning::Constant(n);
    Ok(add_meaning(alloc, tables, name.text.as_slice(), meaning)?)
}

/// Whether a declaration doesn't go with those of its name before it.
fn clashes(tables: &Tables, name: &Name, t: &CType, how: Linkage) -> bool
    ensures { result ≡ spec.clashes tables.now name.now t.now how }
{
    match tables.names.place_of(name.text.as_slice()) {
        Some(i) => clashes_at(tables, i, t, how),
        None => false,
    }
}

fn clashes_at(tables: &Tables, i: usize, t: &CType, how: Linkage) -> bool
    ensures { result ≡ spec.clashes_at tables.now t.now how (Some i) }
{
    match tables.meanings.get(i) {
        Some(Meaning::Extern(n)) => match tables.externs.get(*n as usize) {
            Some(known) => clashes_with(known, t, how),
            None => true,
        },
        Some(Meaning::Constant(_)) => true,
        Some(Meaning::Null) => true,
        Some(Meaning::Typedef(_)) => true,
        Some(Meaning::Intrinsic(_)) => true,
        None => true,
    }
}

fn clashes_with(known: &Known, t: &CType, how: Linkage) -> bool
    ensures { result ≡ spec.clashes_with t.now how (Some known.now) }
{
    !same_type(&known.ctype, t) || !t.is_function() && known.state.is_plain && !how.is_extern
}

/// What one declaration says alone.
fn alone(how: Linkage) -> State
    ensures { result ≡ spec.alone how }
{
    State {
        is_static: how.is_static,
        is_plain: !how.is_extern,
        is_entry: how.is_entry,
        has_body: false,
    }
}

/// What a declaration says together with those before it. A function that was defined keeps its linkage.
fn together(before: State, how: Linkage) -> State
    ensures { result ≡ spec.together before how }
{
    State {
        is_static: before.is_static || how.is_static && !before.has_body,
        is_plain: before.is_plain || !how.is_extern,
        is_entry: before.is_entry || how.is_entry,
        has_body: before.has_body,
    }
}

fn with_state(alloc: Global, known: &Known, state: State) -> Result<Known, NoMemory>
    ensures { IfOk result (λ k. k ≡ spec.with_state state known.now) }
{
    Ok(Known {
        name: known.name.copy(alloc)?,
        ctype: known.ctype.share(alloc)?,
        place: known.place,
        state,
    })
}

/// A function or global seen for the first time.
fn declared_first(
    alloc: Global,
    tables: &mut Tables,
    name: &Name,
    ctype: CType,
    how: Linkage,
) -> Result<u32, TypeFault>
    ensures { Leaves result tables.new (spec.declared_at name.now ctype how None tables.old) }
{
    match u32::try_from(tables.externs.len()) {
        Ok(n) => {
            add_meaning(alloc, tables, name.text.as_slice(), Meaning::Extern(n))?;
            let text = name.text.copy(alloc)?;
            tables.externs.push(Known {
                name: text,
                ctype,
                place: name.place,
                state: alone(how),
            })?;
            Ok(n)
        }
        Err(_) => Err(TypeFault::NoMemory),
    }
}

/// A function or global that is known already.
fn declared_again(
    alloc: Global,
    tables: &mut Tables,
    n: u32,
    name: &Name,
    how: Linkage,
) -> Result<u32, TypeFault>
    ensures { Leaves result tables.new (spec.declared_again n name.now how (slice_get tables.old.externs n) tables.old) }
{
    match tables.externs.get(n as usize) {
        Some(known) => {
            let before = known.state;
            if how.is_entry && before.has_body && !before.is_entry {
                return Err(at(40, name.place));
            }
            let known = with_state(alloc, known, together(before, how))?;
            tables.externs.set(n as usize, known);
            Ok(n)
        }
        None => Err(at(21, name.place)),
    }
}

/// Declares a function or global, first or again, and gives its number.
fn declared(
    alloc: Global,
    tables: &mut Tables,
    name: &Name,
    ctype: CType,
    how: Linkage,
) -> Result<u32, TypeFault>
    ensures { Leaves result tables.new (spec.declared name.now ctype how tables.old) }
{
    match tables.names.place_of(name.text.as_slice()) {
        Some(i) => declared_as(alloc, tables, i, name, how),
        None => declared_first(alloc, tables, name, ctype, how),
    }
}

fn declared_as(
    alloc: Global,
    tables: &mut Tables,
    i: usize,
    name: &Name,
    how: Linkage,
) -> Result<u32, TypeFault>
    ensures { Leaves result tables.new (spec.declared_as name.now how (slice_get tables.old.meanings i) tables.old) }
{
    match tables.meanings.get(i) {
        Some(Meaning::Extern(n)) => {
            let n = *n;
            declared_again(alloc, tables, n, name, how)
        }
        Some(Meaning::Constant(_)) => Err(at(21, name.place)),
        Some(Meaning::Null) => Err(at(21, name.place)),
        Some(Meaning::Typedef(_)) => Err(at(21, name.place)),
        Some(Meaning::Intrinsic(_)) => Err(at(21, name.place)),
        None => Err(at(21, name.place)),
    }
}

/// Declares a global and gives its number. At its name it is E21 where its declarations don't go together, E24 where its
/// type is too large, E25 where that is incomplete, unless the declaration is `extern` without an initialiser or the
/// initialiser gives the length, E29 where a pointer to a Secure function stands in it, and E45 where the name is reserved.
pub fn declare_object(
    alloc: Global,
    tables: &mut Tables,
    name: &Name,
    ctype: CType,
    how: Linkage,
    initialised: bool,
) -> Result<u32, TypeFault>
    ensures { Leaves result tables.new (spec.declare_object name.now ctype how initialised tables.old) }
{
    if clashes(tables, name, &ctype, how) {
        return Err(at(21, name.place));
    }
    if !ctype.fits() {
        return Err(at(24, name.place));
    }
    if !(how.is_extern && !initialised) && !is_made(&ctype, initialised) {
        return Err(at(25, name.place));
    }
    if has_secure_pointer(&ctype) {
        return Err(at(29, name.place));
    }
    if is_reserved(name.text.as_slice()) {
        return Err(at(45, name.place));
    }
    declared(alloc, tables, name, ctype, how)
}

/// Whether a function type gives a struct.
fn gives_struct(t: &CType) -> bool
    ensures { result ≡ spec.gives_struct (look t.now) }
{
    match &t.shape {
        Shape::Function { gives, .. } => gives.get().is_struct(),
        _ => false,
    }
}

/// Declares a function and gives its number. At its name it is E21 where its declarations don't go together, E24 where a type
/// in it is too large, E29 where it gives a struct or a pointer to a Secure function stands in its type, E45 where the name is
/// reserved, and E40 where it is to be an entry function and was defined without being one.
pub fn declare_function(
    alloc: Global,
    tables: &mut Tables,
    name: &Name,
    ctype: CType,
    how: Linkage,
) -> Result<u32, TypeFault>
    ensures { Leaves result tables.new (spec.declare_function name.now ctype how tables.old) }
{
    if clashes(tables, name, &ctype, how) {
        return Err(at(21, name.place));
    }
    if !ctype.fits() {
        return Err(at(24, name.place));
    }
    if gives_struct(&ctype) || has_secure_pointer(&ctype) {
        return Err(at(29, name.place));
    }
    if is_reserved(name.text.as_slice()) {
        return Err(at(45, name.place));
    }
    declared(alloc, tables, name, ctype, how)
}

/// Notes that a function's body is seen.
pub fn define_function(alloc: Global, tables: &mut Tables, n: u32) -> Result<(), NoMemory>
    ensures { IfOk result (λ _. tables.new ≡ spec.define_function n tables.old) }
{
    match tables.externs.get(n as usize) {
        Some(known) => {
            let state = State {
                has_body: true,
                ..known.state
            };
            let known = with_state(alloc, known, state)?;
            tables.externs.set(n as usize, known);
            Ok(())
        }
        None => Ok(()),
    }
}

/// Whether it is an array without a length.
fn is_unsized(t: &CType) -> bool
    ensures { result ≡ spec.is_unsized (look t.now) }
{
    match &t.shape {
        Shape::Array { len, .. } => match len {
            None => true,
            Some(_) => false,
        },
        _ => false,
    }
}

/// Gives a global the type whose length its initialiser told. A length that is known stays.
pub fn complete_object(
    alloc: Global,
    tables: &mut Tables,
    n: u32,
    ctype: CType,
) -> Result<(), NoMemory>
    ensures { IfOk result (λ _. tables.new ≡ spec.complete_object n ctype tables.old) }
{
    match tables.externs.get(n as usize) {
        Some(known) => {
            if !is_unsized(&known.ctype) {
                return Ok(());
            }
            let known = Known {
                name: known.name.copy(alloc)?,
                ctype,
                place: known.place,
                state: known.state,
            };
            tables.externs.set(n as usize, known);
            Ok(())
        }
        None => Ok(()),
    }
}
