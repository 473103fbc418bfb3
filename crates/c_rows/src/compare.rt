//! Comparison. The operands are values.

ghost use Rattle.std.specs.Prelude.{◌≡◌, IfOk};
ghost use Rattle.c_rows.specs.Answers.{Gives};
ghost use Rattle.c_rows.specs.Compare as spec;

use crate::arithmetic::{common_of, joined};
use crate::fault::{TypeFault, at};
use crate::nodes::node;
use crate::values::converted_to;
use c_const::is_null_constant;
use c_tree::{BinOp, Expr, ExprKind};
use c_types::{Arith, CType, same_unqualified};
use cm_base::{NoMemory, Place, Shared};
use std::alloc::Global;

/// Two pointers of one type, qualifiers of what they point to included.
pub fn one_pointer_type(a: &Expr, b: &Expr) -> bool
    ensures { result ≡ spec.one_pointer_type a.now b.now }
{
    a.ctype.is_pointer() && same_unqualified(&a.ctype, &b.ctype)
}

/// A pointer and a null constant.
pub fn null_beside(p: &Expr, n: &Expr) -> bool
    ensures { result ≡ spec.null_beside p.now n.now }
{
    p.ctype.is_pointer() && is_null_constant(n)
}

/// A pointer and a pointer to void.
fn void_beside(p: &Expr, v: &Expr) -> bool
    ensures { result ≡ spec.void_beside p.now v.now }
{
    p.ctype.is_pointer() && v.ctype.is_void_pointer()
}

fn compared(
    alloc: Global,
    op: BinOp,
    place: Place,
    a: Shared<Expr>,
    b: Shared<Expr>,
) -> Result<Shared<Expr>, NoMemory>
    ensures { IfOk result (λ r. r ≡ spec.compared op place a b) }
{
    node(
        alloc,
        ExprKind::Binary(op, a, b),
        CType::arith(Arith::Int),
        place,
    )
}

/// `< > <= >=`: two arithmetic operands, or two pointers of one type. They give an int.
///
/// # Errors
/// Code 22 at the operator.
pub fn ordered(
    alloc: Global,
    op: BinOp,
    place: Place,
    a: Shared<Expr>,
    b: Shared<Expr>,
) -> Result<Shared<Expr>, TypeFault>
    ensures { Gives result (spec.ordered op place a b) }
{
    match common_of(a.get(), b.get()) {
        Some(k) => Ok(joined(alloc, op, place, a, b, k, Arith::Int)?),
        None => {
            if !one_pointer_type(a.get(), b.get()) {
                return Err(at(22, place));
            }
            Ok(compared(alloc, op, place, a, b)?)
        }
    }
}

/// The second operand in the type of the first.
fn second_converted(
    alloc: Global,
    op: BinOp,
    place: Place,
    a: Shared<Expr>,
    b: Shared<Expr>,
) -> Result<Shared<Expr>, NoMemory>
    ensures { IfOk result (λ r. r ≡ spec.second_converted op place a b) }
{
    let b = converted_to(alloc, &a.get().ctype, b)?;
    compared(alloc, op, place, a, b)
}

/// The first operand in the type of the second.
fn first_converted(
    alloc: Global,
    op: BinOp,
    place: Place,
    a: Shared<Expr>,
    b: Shared<Expr>,
) -> Result<Shared<Expr>, NoMemory>
    ensures { IfOk result (λ r. r ≡ spec.first_converted op place a b) }
{
    let a = converted_to(alloc, &b.get().ctype, a)?;
    compared(alloc, op, place, a, b)
}

fn pointers_equated(
    alloc: Global,
    op: BinOp,
    place: Place,
    a: Shared<Expr>,
    b: Shared<Expr>,
) -> Result<Shared<Expr>, TypeFault>
    ensures { Gives result (spec.pointers_equated op place a b) }
{
    if one_pointer_type(a.get(), b.get()) {
        return Ok(compared(alloc, op, place, a, b)?);
    }
    if null_beside(a.get(), b.get()) {
        return Ok(second_converted(alloc, op, place, a, b)?);
    }
    if null_beside(b.get(), a.get()) {
        return Ok(first_converted(alloc, op, place, a, b)?);
    }
    if void_beside(a.get(), b.get()) {
        return Ok(first_converted(alloc, op, place, a, b)?);
    }
    if void_beside(b.get(), a.get()) {
        return Ok(second_converted(alloc, op, place, a, b)?);
    }
    Err(at(22, place))
}

/// `== !=`: two arithmetic operands, two pointers of one type, or a pointer with a null constant or with a pointer to void.
/// They give an int.
///
/// # Errors
/// Code 22 at the operator.
pub fn equated(
    alloc: Global,
    op: BinOp,
    place: Place,
    a: Shared<Expr>,
    b: Shared<Expr>,
) -> Result<Shared<Expr>, TypeFault>
    ensures { Gives result (spec.equated op place a b) }
{
    match common_of(a.get(), b.get()) {
        Some(k) => Ok(joined(alloc, op, place, a, b, k, Arith::Int)?),
        None => pointers_equated(alloc, op, place, a, b),
    }
}
