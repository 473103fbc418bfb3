//! Arithmetic operators. The operands are values.

ghost use Rattle.std.specs.Prelude.{◌≡◌, IfOk};
ghost use Rattle.c_rows.specs.Answers.{Gives};
ghost use Rattle.c_rows.specs.Arithmetic as spec;

use crate::fault::{TypeFault, at};
use crate::nodes::node;
use crate::values::in_kind;
use c_tree::{BinOp, Expr, ExprKind, UnOp};
use c_types::{Arith, CType, common, promoted};
use cm_base::{NoMemory, Place, Shared};
use std::alloc::Global;

/// The types of two operands, where both are arithmetic.
pub fn arith_pair(a: &Expr, b: &Expr) -> Option<(Arith, Arith)>
    ensures { result ≡ spec.arith_pair a.now b.now }
{
    match a.ctype.arithmetic() {
        Some(x) => match b.ctype.arithmetic() {
            Some(y) => Some((x, y)),
            None => None,
        },
        None => None,
    }
}

/// The common type of two operands, where both are arithmetic.
pub fn common_of(a: &Expr, b: &Expr) -> Option<Arith>
    ensures { result ≡ spec.common_of a.now b.now }
{
    match arith_pair(a, b) {
        Some((x, y)) => Some(common(x, y)),
        None => None,
    }
}

/// An operator on both operands in one type.
pub fn joined(
    alloc: Global,
    op: BinOp,
    place: Place,
    a: Shared<Expr>,
    b: Shared<Expr>,
    k: Arith,
    gives: Arith,
) -> Result<Shared<Expr>, NoMemory>
    ensures { IfOk result (λ r. r ≡ spec.joined op place a b k gives) }
{
    let a = in_kind(alloc, k, a)?;
    let b = in_kind(alloc, k, b)?;
    node(
        alloc,
        ExprKind::Binary(op, a, b),
        CType::arith(gives),
        place,
    )
}

/// `* / % & ^ |`: arithmetic operands in their common type, which the result has.
///
/// # Errors
/// Code 22 at the operator.
pub fn binary(
    alloc: Global,
    op: BinOp,
    place: Place,
    a: Shared<Expr>,
    b: Shared<Expr>,
) -> Result<Shared<Expr>, TypeFault>
    ensures { Gives result (spec.binary op place a b) }
{
    match common_of(a.get(), b.get()) {
        Some(k) => Ok(joined(alloc, op, place, a, b, k, k)?),
        None => Err(at(22, place)),
    }
}

/// `<< >>`: arithmetic operands, each promoted by itself. The result has the left one's type.
///
/// # Errors
/// Code 22 at the operator.
pub fn shifted(
    alloc: Global,
    op: BinOp,
    place: Place,
    a: Shared<Expr>,
    b: Shared<Expr>,
) -> Result<Shared<Expr>, TypeFault>
    ensures { Gives result (spec.shifted op place a b) }
{
    match arith_pair(a.get(), b.get()) {
        Some((x, y)) => {
            let a = in_kind(alloc, promoted(x), a)?;
            let b = in_kind(alloc, promoted(y), b)?;
            Ok(node(
                alloc,
                ExprKind::Binary(op, a, b),
                CType::arith(promoted(x)),
                place,
            )?)
        }
        None => Err(at(22, place)),
    }
}

/// Unary `+ - ~` on an arithmetic operand, which is promoted.
///
/// # Errors
/// Code 22 at the operator.
pub fn unary(
    alloc: Global,
    op: UnOp,
    place: Place,
    e: Shared<Expr>,
) -> Result<Shared<Expr>, TypeFault>
    ensures { Gives result (spec.unary op place e) }
{
    match e.get().ctype.arithmetic() {
        Some(k) => {
            let e = in_kind(alloc, promoted(k), e)?;
            Ok(node(
                alloc,
                ExprKind::Unary(op, e),
                CType::arith(promoted(k)),
                place,
            )?)
        }
        None => Err(at(22, place)),
    }
}

/// `!` on a scalar, which gives an int.
///
/// # Errors
/// Code 22 at the operator.
pub fn negated(alloc: Global, place: Place, e: Shared<Expr>) -> Result<Shared<Expr>, TypeFault>
    ensures { Gives result (spec.negated place e) }
{
    if !e.get().ctype.is_scalar() {
        return Err(at(22, place));
    }
    Ok(node(
        alloc,
        ExprKind::Unary(UnOp::Not, e),
        CType::arith(Arith::Int),
        place,
    )?)
}
