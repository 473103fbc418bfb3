//! What a name means.

ghost use Rattle.std.specs.Prelude.{◌≡◌, IfOk, option_copied, slice_get};
ghost use Rattle.c_rows.specs.Nodes as nodes;
ghost use Rattle.c_scope.specs.Refresh as types;
ghost use Rattle.c_rows.specs.Answers.{Gives};
ghost use Rattle.c_scope.specs.Lookup as spec;

use crate::refresh::refreshed;
use crate::tables::{InBlock, Meaning, Tables};
use c_ast::Name;
use c_rows::{Intrinsic, TypeFault, at, constant_node, node, null_node};
use c_tree::{Expr, ExprKind};
use c_types::CType;
use cm_base::{NoMemory, Place, Shared};
use std::alloc::Global;

/// The number of the local that a name of the open blocks means.
pub fn newest(names: &[InBlock], text: &[u8]) -> Option<u32>
    ensures { result ≡ spec.newest names.now text.now }
{
    let mut found = None;
    for bound in names {
        if bound.name.as_slice() == text {
            found = Some(bound.local);
        }
    }
    found
}

/// What a name of file scope means.
pub fn file_meaning<'a>(tables: &'a Tables, text: &[u8]) -> Option<&'a Meaning>
    ensures { option_copied result ≡ spec.file_meaning tables.now text.now }
{
    match tables.names.place_of(text) {
        Some(i) => tables.meanings.get(i),
        None => None,
    }
}

/// A name as an expression. It is E20 where nothing is declared so, and E29 for the name of a call of arm_cmse.h.
pub fn named(alloc: Global, tables: &Tables, name: &Name) -> Result<Shared<Expr>, TypeFault>
    ensures { Gives result (spec.named tables.now name.now) }
{
    let text = name.text.as_slice();
    match newest(tables.blocks.as_slice(), text) {
        Some(n) => local_node(alloc, tables, n, name.place),
        None => file_node(alloc, tables, text, name.place),
    }
}

/// A node of a declared type, as that stands now.
fn typed_node(
    alloc: Global,
    tables: &Tables,
    kind: ExprKind,
    t: &CType,
    place: Place,
) -> Result<Shared<Expr>, NoMemory>
    ensures { IfOk result (λ e. e ≡ nodes.node kind (types.refreshed tables.now.structs t.now) place) }
{
    let t = refreshed(alloc, t, tables.structs.as_slice())?;
    node(alloc, kind, t, place)
}

fn local_node(
    alloc: Global,
    tables: &Tables,
    n: u32,
    place: Place,
) -> Result<Shared<Expr>, TypeFault>
    ensures { Gives result (spec.local_node tables.now n place (slice_get tables.now.locals n)) }
{
    match tables.locals.get(n as usize) {
        Some(local) => {
            let kind = ExprKind::Local(n);
            Ok(typed_node(alloc, tables, kind, &local.ctype, place)?)
        }
        None => Err(at(20, place)),
    }
}

fn file_node(
    alloc: Global,
    tables: &Tables,
    text: &[u8],
    place: Place,
) -> Result<Shared<Expr>, TypeFault>
    ensures { Gives result (spec.meant tables.now place (spec.file_meaning tables.now text.now)) }
{
    match file_meaning(tables, text) {
        Some(Meaning::Extern(n)) => extern_node(alloc, tables, *n, place),
        Some(Meaning::Constant(n)) => Ok(constant_node(alloc, place, *n)?),
        Some(Meaning::Null) => Ok(null_node(alloc, place)?),
        Some(Meaning::Typedef(_)) => Err(at(20, place)),
        Some(Meaning::Intrinsic(_)) => Err(at(29, place)),
        None => Err(at(20, place)),
    }
}

fn extern_node(
    alloc: Global,
    tables: &Tables,
    n: u32,
    place: Place,
) -> Result<Shared<Expr>, TypeFault>
    ensures { Gives result (spec.extern_node tables.now n place (slice_get tables.now.externs n)) }
{
    match tables.externs.get(n as usize) {
        Some(known) => {
            let kind = ExprKind::Global(n);
            Ok(typed_node(alloc, tables, kind, &known.ctype, place)?)
        }
        None => Err(at(20, place)),
    }
}

/// A name as a type. It is E20 where no typedef declares it.
pub fn type_named(alloc: Global, tables: &Tables, name: &Name) -> Result<CType, TypeFault>
    ensures { Gives result (spec.type_named tables.now name.now) }
{
    match file_meaning(tables, name.text.as_slice()) {
        Some(Meaning::Typedef(t)) => Ok(refreshed(alloc, t, tables.structs.as_slice())?),
        Some(Meaning::Extern(_)) => Err(at(20, name.place)),
        Some(Meaning::Constant(_)) => Err(at(20, name.place)),
        Some(Meaning::Null) => Err(at(20, name.place)),
        Some(Meaning::Intrinsic(_)) => Err(at(20, name.place)),
        None => Err(at(20, name.place)),
    }
}

/// The call of arm_cmse.h that a name means, which may only be called.
pub fn intrinsic_named(tables: &Tables, text: &[u8]) -> Option<Intrinsic>
    ensures { result ≡ spec.intrinsic_named tables.now text.now }
{
    if newest(tables.blocks.as_slice(), text).is_some() {
        return None;
    }
    match file_meaning(tables, text) {
        Some(Meaning::Intrinsic(i)) => Some(*i),
        Some(Meaning::Extern(_)) => None,
        Some(Meaning::Constant(_)) => None,
        Some(Meaning::Null) => None,
        Some(Meaning::Typedef(_)) => None,
        None => None,
    }
}
