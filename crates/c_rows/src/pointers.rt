//! Operators on pointers. The operands are values.

ghost use Rattle.std.specs.Prelude.{◌≡◌, IfOk};
ghost use Rattle.c_types.specs.Kind.{referenced};
ghost use Rattle.ns_types.specs.Operators as words;
ghost use Rattle.c_rows.specs.Answers.{Gives};
ghost use Rattle.c_rows.specs.Pointers as spec;

use crate::arithmetic::binary;
use crate::fault::{TypeFault, at};
use crate::nodes::node;
use c_tree::{BinOp, Expr, ExprKind};
use c_types::{Arith, CType, Shape, same_unqualified, type_size};
use cm_base::{NoMemory, Place, Shared};
use std::alloc::Global;

/// The bytes of a complete object type. No type that a declaration or a type name may have is too large.
pub fn whole_size(t: &CType) -> Option<u32>
    ensures { result ≡ spec.whole_size t.now }
{
    if !t.fits() {
        return None;
    }
    type_size(t)
}

/// The size of what a pointer points to, where that is a complete object type.
pub fn step_of(t: &CType) -> Option<u32>
    ensures { result ≡ spec.step_of t.now }
{
    match &t.shape {
        Shape::Pointer(to) => whole_size(to.get()),
        _ => None,
    }
}

/// A size taken from 0, modulo 2^32.
pub fn negate(size: u32) -> u32
    ensures { result ≡ words.negate size }
{
    0u32.wrapping_sub(size)
}

/// A pointer that is moved by an integer times a size.
fn moved(
    alloc: Global,
    place: Place,
    p: Shared<Expr>,
    i: Shared<Expr>,
    size: u32,
) -> Result<Shared<Expr>, NoMemory>
    ensures { IfOk result (λ r. r ≡ spec.moved place p i size) }
{
    let ctype = p.get().ctype.unqualified(alloc)?;
    node(alloc, ExprKind::PtrAdd(p, i, size), ctype, place)
}

/// A pointer and an integer.
fn moved_on(
    alloc: Global,
    place: Place,
    p: Shared<Expr>,
    i: Shared<Expr>,
) -> Result<Shared<Expr>, TypeFault>
    ensures { Gives result (spec.moved_on place p i) }
{
    match step_of(&p.get().ctype) {
        Some(size) => {
            if !i.get().ctype.is_arithmetic() {
                return Err(at(22, place));
            }
            Ok(moved(alloc, place, p, i, size)?)
        }
        None => Err(at(22, place)),
    }
}

/// `+`: two arithmetic operands, or a pointer and an integer in either order; the tree has the pointer first.
///
/// # Errors
/// Code 22 at the operator, also for a pointer to a function or to an incomplete type.
pub fn added(
    alloc: Global,
    place: Place,
    a: Shared<Expr>,
    b: Shared<Expr>,
) -> Result<Shared<Expr>, TypeFault>
    ensures { Gives result (spec.added place a b) }
{
    if !a.get().ctype.is_arithmetic() {
        return moved_on(alloc, place, a, b);
    }
    if !b.get().ctype.is_arithmetic() {
        return moved_on(alloc, place, b, a);
    }
    binary(alloc, BinOp::Add, place, a, b)
}

/// A pointer less an integer.
fn moved_back(
    alloc: Global,
    place: Place,
    p: Shared<Expr>,
    i: Shared<Expr>,
) -> Result<Shared<Expr>, TypeFault>
    ensures { Gives result (spec.moved_back place p i) }
{
    match step_of(&p.get().ctype) {
        Some(size) => Ok(moved(alloc, place, p, i, negate(size))?),
        None => Err(at(22, place)),
    }
}

/// The difference of two pointers.
fn apart(
    alloc: Global,
    place: Place,
    p: Shared<Expr>,
    q: Shared<Expr>,
) -> Result<Shared<Expr>, TypeFault>
    ensures { Gives result (spec.apart place p q) }
{
    match step_of(&p.get().ctype) {
        Some(size) => {
            if !same_unqualified(&p.get().ctype, &q.get().ctype) {
                return Err(at(22, place));
            }
            Ok(node(
                alloc,
                ExprKind::PtrDiff(p, q, size),
                CType::arith(Arith::Int),
                place,
            )?)
        }
        None => Err(at(22, place)),
    }
}

/// `-`: two arithmetic operands, a pointer less an integer, or two pointers to one complete object type, which give an int.
///
/// # Errors
/// Code 22 at the operator.
pub fn subtracted(
    alloc: Global,
    place: Place,
    a: Shared<Expr>,
    b: Shared<Expr>,
) -> Result<Shared<Expr>, TypeFault>
    ensures { Gives result (spec.subtracted place a b) }
{
    if a.get().ctype.is_arithmetic() {
        return binary(alloc, BinOp::Sub, place, a, b);
    }
    if b.get().ctype.is_arithmetic() {
        return moved_back(alloc, place, a, b);
    }
    apart(alloc, place, a, b)
}

/// The type that a pointer points to.
fn referenced_of(t: &CType) -> Result<Option<Shared<CType>>, NoMemory>
    ensures { IfOk result (λ r. r ≡ referenced t.now) }
{
    match &t.shape {
        Shape::Pointer(to) => Ok(Some(to.share()?)),
        _ => Ok(None),
    }
}

/// What a pointer to this type points to.
fn target(
    alloc: Global,
    place: Place,
    p: Shared<Expr>,
    to: &CType,
) -> Result<Shared<Expr>, TypeFault>
    ensures { Gives result (spec.target place p to.now) }
{
    if to.is_function() {
        return Err(at(22, place));
    }
    if !to.is_complete() {
        return Err(at(25, place));
    }
    let ctype = to.share(alloc)?;
    Ok(node(alloc, ExprKind::Deref(p), ctype, place)?)
}

/// `*`: the object that a pointer points to, which is a place with the qualifiers of its type.
///
/// # Errors
/// At the operator code 22 for what is no pointer to an object type, and code 25 for a pointer to an incomplete one.
pub fn dereferenced(alloc: Global, place: Place, p: Shared<Expr>) -> Result<Shared<Expr>, TypeFault>
    ensures { Gives result (spec.dereferenced place p) }
{
    match referenced_of(&p.get().ctype)? {
        Some(to) => target(alloc, place, p, to.get()),
        None => Err(at(22, place)),
    }
}

/// `a[i]`, which is `*(a + i)`.
///
/// # Errors
/// Code 22 at the `[`.
pub fn element(
    alloc: Global,
    place: Place,
    a: Shared<Expr>,
    i: Shared<Expr>,
) -> Result<Shared<Expr>, TypeFault>
    ensures { Gives result (spec.element place a i) }
{
    let sum = added(alloc, place, a, i)?;
    dereferenced(alloc, place, sum)
}
