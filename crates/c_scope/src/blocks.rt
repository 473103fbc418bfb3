//! Blocks and parameter lists.

ghost use Rattle.std.specs.Prelude.{◌≡◌, IfOk, length, option_copied};
ghost use Rattle.c_types.specs.Kind.{look};
ghost use Rattle.c_scope.specs.Blocks as spec;
ghost use Rattle.c_scope.specs.Steps.{Leaves};

use crate::tables::{InBlock, Scope, Tables};
use c_ast::Name;
use c_rows::{TypeFault, at};
use c_tree::TLocal;
use c_types::{CType, Shape};
use cm_base::{List, NoMemory, Place};
use cmse_rules::{has_secure_pointer, is_reserved};
use std::alloc::Global;

/// The scope of a block that begins here.
pub fn open_block(tables: &Tables) -> Scope
    ensures { result ≡ spec.open_block tables.now }
{
    Scope {
        names: tables.blocks.len(),
        tags: tables.block_tags.len(),
        locals: tables.locals.len(),
        is_file: false,
    }
}

/// The end of a block: its names and tags mean nothing any more. Its locals keep their numbers.
pub fn close_block(tables: &mut Tables, scope: Scope)
    ensures { tables.new ≡ spec.close_block scope tables.old }
{
    tables.blocks.truncate(scope.names);
    tables.block_tags.truncate(scope.tags);
}

/// The scope of a parameter list that begins here, inside of `outer`. Tags that it declares belong to `outer`.
pub fn open_parameters(tables: &Tables, outer: Scope) -> Scope
    ensures { result ≡ spec.open_parameters outer tables.now }
{
    Scope {
        names: tables.blocks.len(),
        tags: outer.tags,
        locals: tables.locals.len(),
        is_file: outer.is_file,
    }
}

/// The end of a parameter list. The definition of a function declares its parameters once more, in the scope of its body.
pub fn close_parameters(tables: &mut Tables, scope: Scope)
    ensures { tables.new ≡ spec.close_parameters scope tables.old }
{
    tables.blocks.truncate(scope.names);
    tables.locals.truncate(scope.locals);
}

/// Whether the scope that begins at this place of the names declares a name already.
fn is_declared(names: &[InBlock], from: usize, text: &[u8]) -> bool
    ensures { result ≡ spec.is_declared names.now from text.now }
{
    names.iter().skip(from).any(|b| b.name.as_slice() == text)
}

/// Whether it is an array whose length its initialiser gives.
fn awaits_length(t: &CType) -> bool
    ensures { result ≡ spec.awaits_length (look t.now) }
{
    match &t.shape {
        Shape::Array { of, len } => match len {
            None => of.get().is_complete(),
            Some(_) => false,
        },
        _ => false,
    }
}

/// Whether an object of this type can be made, with an initialiser or without one.
pub fn is_made(t: &CType, initialised: bool) -> bool
    ensures { result ≡ spec.is_made initialised t.now }
{
    t.is_complete() || initialised && awaits_length(t)
}

/// Adds a local with a name in the innermost scope, and gives its number.
fn add_named(
    alloc: Global,
    tables: &mut Tables,
    name: &Name,
    ctype: CType,
) -> Result<u32, TypeFault>
    ensures { Leaves result tables.new (Ok (length tables.old.locals, spec.with_named name.now.text ctype tables.old)) }
{
    match u32::try_from(tables.locals.len()) {
        Ok(n) => {
            let text = List::from_slice(alloc, name.text.as_slice())?;
            tables.blocks.push(InBlock {
                name: text,
                local: n,
            })?;
            let text = List::from_slice(alloc, name.text.as_slice())?;
            tables.locals.push(TLocal { name: text, ctype })?;
            Ok(n)
        }
        Err(_) => Err(TypeFault::NoMemory),
    }
}

/// Declares a local of a block, and gives its number. At its name it is E21 where the innermost scope has the name already,
/// E24 where its type is too large, E25 where that is incomplete and no initialiser gives its length, E29 where a pointer to
/// a Secure function stands in it, and E45 where the name is reserved.
pub fn declare_local(
    alloc: Global,
    tables: &mut Tables,
    scope: Scope,
    name: &Name,
    ctype: CType,
    initialised: bool,
) -> Result<u32, TypeFault>
    ensures { Leaves result tables.new (spec.declare_local scope name.now ctype initialised tables.old) }
{
    if is_declared(tables.blocks.as_slice(), scope.names, name.text.as_slice()) {
        return Err(at(21, name.place));
    }
    if !ctype.fits() {
        return Err(at(24, name.place));
    }
    if !is_made(&ctype, initialised) {
        return Err(at(25, name.place));
    }
    if has_secure_pointer(&ctype) {
        return Err(at(29, name.place));
    }
    if is_reserved(name.text.as_slice()) {
        return Err(at(45, name.place));
    }
    add_named(alloc, tables, name, ctype)
}

/// Declares a parameter of an adjusted type. At its name, or at its first token where it has none, it is E21 where the list
/// has the name already, E24 where its type is too large, E25 where that is incomplete, E29 where that is a struct or a
/// pointer to a Secure function stands in it, and E45 where the name is reserved.
pub fn declare_parameter(
    alloc: Global,
    tables: &mut Tables,
    scope: Scope,
    name: Option<&Name>,
    ctype: CType,
    first: Place,
) -> Result<(), TypeFault>
    ensures { Leaves result tables.new (spec.declare_parameter scope (option_copied name.entry) ctype first tables.old) }
{
    match name {
        Some(name) => named_parameter(alloc, tables, scope, name, ctype),
        None => match parameter_fault(&ctype) {
            Some(code) => Err(at(code, first)),
            None => {
                tables.locals.push(TLocal {
                    name: List::new(alloc),
                    ctype,
                })?;
                Ok(())
            }
        },
    }
}

fn named_parameter(
    alloc: Global,
    tables: &mut Tables,
    scope: Scope,
    name: &Name,
    ctype: CType,
) -> Result<(), TypeFault>
    ensures { Leaves result tables.new (spec.declare_parameter scope (Some name.now) ctype name.now.place tables.old) }
{
    if is_declared(tables.blocks.as_slice(), scope.names, name.text.as_slice()) {
        return Err(at(21, name.place));
    }
    match parameter_fault(&ctype) {
        Some(code) => Err(at(code, name.place)),
        None => {
            if is_reserved(name.text.as_slice()) {
                return Err(at(45, name.place));
            }
            let _n = add_named(alloc, tables, name, ctype)?;
            Ok(())
        }
    }
}

/// The code of the first rule that the type of a parameter breaks.
fn parameter_fault(t: &CType) -> Option<u8>
    ensures { result ≡ spec.parameter_fault t.now }
{
    if !t.fits() {
        return Some(24);
    }
    if !t.is_complete() {
        return Some(25);
    }
    if t.is_struct() || has_secure_pointer(t) {
        return Some(29);
    }
    None
}

/// Gives a local the type whose length its initialiser told.
pub fn complete_local(
    alloc: Global,
    tables: &mut Tables,
    n: u32,
    ctype: CType,
) -> Result<(), NoMemory>
    ensures { IfOk result (λ _. tables.new ≡ spec.complete_local n ctype tables.old) }
{
    match tables.locals.get(n as usize) {
        Some(local) => {
            let name = local.name.try_clone(alloc)?;
            tables.locals.set(n as usize, TLocal { name, ctype });
            Ok(())
        }
        None => Ok(()),
    }
}
