//! `&& ||`, `? :` and `,`, and what statements test. The operands are values.

ghost use Rattle.std.specs.Prelude.{◌≡◌, IfOk};
ghost use Rattle.c_rows.specs.Answers.{Gives};
ghost use Rattle.c_rows.specs.Logic as spec;

use crate::arithmetic::common_of;
use crate::compare::{null_beside, one_pointer_type};
use crate::fault::{TypeFault, at};
use crate::nodes::node;
use crate::values::{converted_to, in_kind};
use c_tree::{Expr, ExprKind};
use c_types::{Arith, CType, promoted};
use cm_base::{NoMemory, Place, Shared};
use std::alloc::Global;

/// `&&` or `||` on scalars, which gives an int.
///
/// # Errors
/// Code 22 at the operator.
pub fn both_or_either(
    alloc: Global,
    is_and: bool,
    place: Place,
    a: Shared<Expr>,
    b: Shared<Expr>,
) -> Result<Shared<Expr>, TypeFault>
    ensures { Gives result (spec.both_or_either is_and place a b) }
{
    if !a.get().ctype.is_scalar() || !b.get().ctype.is_scalar() {
        return Err(at(22, place));
    }
    let kind = if is_and {
        ExprKind::And(a, b)
    } else {
        ExprKind::Or(a, b)
    };
    Ok(node(alloc, kind, CType::arith(Arith::Int), place)?)
}

fn both_void(a: &Expr, b: &Expr) -> bool
    ensures { result ≡ spec.both_void a.now b.now }
{
    a.ctype.is_void() && b.ctype.is_void()
}

/// The arms in one arithmetic type.
fn arms_in_kind(
    alloc: Global,
    place: Place,
    c: Shared<Expr>,
    a: Shared<Expr>,
    b: Shared<Expr>,
    k: Arith,
) -> Result<Shared<Expr>, NoMemory>
    ensures { IfOk result (λ r. r ≡ spec.arms_in_kind place c a b k) }
{
    let a = in_kind(alloc, k, a)?;
    let b = in_kind(alloc, k, b)?;
    node(alloc, ExprKind::Cond(c, a, b), CType::arith(k), place)
}

/// The arms in the type of the first.
fn arms_as_first(
    alloc: Global,
    place: Place,
    c: Shared<Expr>,
    a: Shared<Expr>,
    b: Shared<Expr>,
) -> Result<Shared<Expr>, NoMemory>
    ensures { IfOk result (λ r. r ≡ spec.arms_as_first place c a b) }
{
    let ctype = a.get().ctype.unqualified(alloc)?;
    let b = converted_to(alloc, &ctype, b)?;
    node(alloc, ExprKind::Cond(c, a, b), ctype, place)
}

/// The arms in the type of the second.
fn arms_as_second(
    alloc: Global,
    place: Place,
    c: Shared<Expr>,
    a: Shared<Expr>,
    b: Shared<Expr>,
) -> Result<Shared<Expr>, NoMemory>
    ensures { IfOk result (λ r. r ≡ spec.arms_as_second place c a b) }
{
    let ctype = b.get().ctype.unqualified(alloc)?;
    let a = converted_to(alloc, &ctype, a)?;
    node(alloc, ExprKind::Cond(c, a, b), ctype, place)
}

/// Arms of which one at least isn't arithmetic.
fn arms_chosen(
    alloc: Global,
    place: Place,
    c: Shared<Expr>,
    a: Shared<Expr>,
    b: Shared<Expr>,
) -> Result<Shared<Expr>, TypeFault>
    ensures { Gives result (spec.arms_chosen place c a b) }
{
    if is_first_type(a.get(), b.get()) {
        return Ok(arms_as_first(alloc, place, c, a, b)?);
    }
    if null_beside(b.get(), a.get()) {
        return Ok(arms_as_second(alloc, place, c, a, b)?);
    }
    Err(at(22, place))
}

/// Whether arms of which one at least isn't arithmetic have the type of the first.
fn is_first_type(a: &Expr, b: &Expr) -> bool
    ensures { result ≡ spec.is_first_type a.now b.now }
{
    one_pointer_type(a, b) || both_void(a, b) || null_beside(a, b)
}

/// `? :`: a scalar and two arms, which are both arithmetic, two pointers of one type, a pointer and a null constant, or both
/// void.
///
/// # Errors
/// Code 22 at the `?`.
pub fn chosen(
    alloc: Global,
    place: Place,
    c: Shared<Expr>,
    a: Shared<Expr>,
    b: Shared<Expr>,
) -> Result<Shared<Expr>, TypeFault>
    ensures { Gives result (spec.chosen place c a b) }
{
    if !c.get().ctype.is_scalar() {
        return Err(at(22, place));
    }
    match common_of(a.get(), b.get()) {
        Some(k) => Ok(arms_in_kind(alloc, place, c, a, b, k)?),
        None => arms_chosen(alloc, place, c, a, b),
    }
}

/// `,`, which has the value of its second operand.
pub fn in_order(
    alloc: Global,
    place: Place,
    a: Shared<Expr>,
    b: Shared<Expr>,
) -> Result<Shared<Expr>, NoMemory>
    ensures { IfOk result (λ r. r ≡ spec.in_order place a b) }
{
    let ctype = b.get().ctype.unqualified(alloc)?;
    node(alloc, ExprKind::Comma(a, b), ctype, place)
}

/// The test of `if` or of a loop: a scalar.
///
/// # Errors
/// Code 22 at `first`, the place of its first token.
pub fn test(e: Shared<Expr>, first: Place) -> Result<Shared<Expr>, TypeFault>
    ensures { Gives result (spec.test e first) }
{
    if !e.get().ctype.is_scalar() {
        return Err(at(22, first));
    }
    Ok(e)
}

/// The value of `switch`: an integer, promoted.
///
/// # Errors
/// Code 22 at `first`, the place of its first token.
pub fn switch_value(alloc: Global, e: Shared<Expr>, first: Place) -> Result<Shared<Expr>, TypeFault>
    ensures { Gives result (spec.switch_value e first) }
{
    match e.get().ctype.arithmetic() {
        Some(k) => Ok(in_kind(alloc, promoted(k), e)?),
        None => Err(at(22, first)),
    }
}
