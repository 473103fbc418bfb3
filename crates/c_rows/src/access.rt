//! Places, `sizeof` and casts.

ghost use Rattle.std.specs.Prelude.{◌≡◌, IfOk};
ghost use Rattle.c_rows.specs.Answers.{Gives};
ghost use Rattle.c_rows.specs.Access as spec;

use crate::fault::{TypeFault, at};
use crate::nodes::{node, size_node};
use crate::pointers::whole_size;
use c_tree::{Expr, ExprKind};
use c_types::{CType, casts};
use cm_base::{NoMemory, Place, Shared};
use std::alloc::Global;

/// Whether an expression is a place: a variable, what a pointer points to, or a member.
pub fn is_place(e: &Expr) -> bool
    ensures { result ≡ spec.is_place e.now }
{
    match &e.kind {
        ExprKind::Local(_) => true,
        ExprKind::Global(_) => true,
        ExprKind::Deref(_) => true,
        ExprKind::Member(_, _) => true,
        _ => false,
    }
}

/// `&`. The operand is a place, and not its value.
///
/// # Errors
/// At the operator code 29 for a function, and code 23 for what is no place.
pub fn address(alloc: Global, place: Place, e: Shared<Expr>) -> Result<Shared<Expr>, TypeFault>
    ensures { Gives result (spec.address place e) }
{
    if e.get().ctype.is_function() {
        return Err(at(29, place));
    }
    if !is_place(e.get()) {
        return Err(at(23, place));
    }
    let referenced = Shared::new(alloc, e.get().ctype.share(alloc)?)?;
    Ok(node(
        alloc,
        ExprKind::Addr(e),
        CType::pointer_to(referenced),
        place,
    )?)
}

/// The member of this type that begins `offset` bytes into a struct. It has the struct's qualifiers beside its own.
pub fn member(
    alloc: Global,
    place: Place,
    e: Shared<Expr>,
    ctype: &CType,
    offset: u32,
) -> Result<Shared<Expr>, NoMemory>
    ensures { IfOk result (λ r. r ≡ spec.member place e ctype.now offset) }
{
    let ctype = ctype.qualified(alloc, e.get().ctype.is_const, e.get().ctype.is_volatile)?;
    node(alloc, ExprKind::Member(e, offset), ctype, place)
}

/// `sizeof`, of a complete object type.
///
/// # Errors
/// Code 25 at the operator.
pub fn size_of(alloc: Global, place: Place, t: &CType) -> Result<Shared<Expr>, TypeFault>
    ensures { Gives result (spec.size_of place t.now) }
{
    match whole_size(t) {
        Some(n) => Ok(size_node(alloc, place, n)?),
        None => Err(at(25, place)),
    }
}

/// A cast, which is a conversion also where the type stays the same.
///
/// # Errors
/// Code 22 at the `(`.
pub fn cast(
    alloc: Global,
    place: Place,
    t: &CType,
    e: Shared<Expr>,
) -> Result<Shared<Expr>, TypeFault>
    ensures { Gives result (spec.cast place t.now e) }
{
    if !casts(&e.get().ctype, t) {
        return Err(at(22, place));
    }
    let ctype = t.unqualified(alloc)?;
    Ok(node(alloc, ExprKind::Convert(e), ctype, place)?)
}
