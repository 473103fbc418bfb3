//! Assignment.

ghost use Rattle.std.specs.Prelude.{◌≡◌, IfOk};
ghost use Rattle.c_rows.specs.Answers.{Gives};
ghost use Rattle.c_rows.specs.Assign as spec;

use crate::access::is_place;
use crate::arithmetic::arith_pair;
use crate::fault::{TypeFault, at};
use crate::nodes::node;
use crate::pointers::{negate, step_of};
use crate::values::{fitted, in_kind, valued};
use c_tree::{BinOp, Expr, ExprKind};
use c_types::{Arith, CType, common, promoted};
use cm_base::{NoMemory, Place, Shared};
use std::alloc::Global;

/// Whether it may be written: a place that isn't const, and neither an array nor a function.
fn is_writable(e: &Expr) -> bool
    ensures { result ≡ spec.is_writable e.now }
{
    is_place(e) && !e.ctype.is_const && !e.ctype.is_array() && !e.ctype.is_function()
}

fn both_structs(a: &Expr, b: &Expr) -> bool
    ensures { result ≡ spec.both_structs a.now b.now }
{
    a.ctype.is_struct() && b.ctype.is_struct()
}

/// The right operand: a value, unless both are structs.
fn right_operand(
    alloc: Global,
    to: &Expr,
    e: Shared<Expr>,
    first: Place,
) -> Result<Shared<Expr>, TypeFault>
    ensures { Gives result (spec.right_operand to.now e first) }
{
    if both_structs(to, e.get()) {
        return Ok(e);
    }
    valued(alloc, e, first)
}

fn stored(
    alloc: Global,
    place: Place,
    to: Shared<Expr>,
    v: Shared<Expr>,
) -> Result<Shared<Expr>, NoMemory>
    ensures { IfOk result (λ r. r ≡ spec.stored place to v) }
{
    let ctype = to.get().ctype.unqualified(alloc)?;
    node(alloc, ExprKind::Assign(to, v), ctype, place)
}

fn fit_and_stored(
    alloc: Global,
    place: Place,
    to: Shared<Expr>,
    v: Shared<Expr>,
) -> Result<Shared<Expr>, TypeFault>
    ensures { Gives result (spec.fit_and_stored place to v) }
{
    let v = fitted(alloc, &to.get().ctype, v, place)?;
    Ok(stored(alloc, place, to, v)?)
}

fn written(
    alloc: Global,
    place: Place,
    to: Shared<Expr>,
    v: Shared<Expr>,
) -> Result<Shared<Expr>, TypeFault>
    ensures { Gives result (spec.written place to v) }
{
    if !is_writable(to.get()) {
        return Err(at(23, place));
    }
    if both_structs(to.get(), v.get()) {
        return Err(at(29, place));
    }
    fit_and_stored(alloc, place, to, v)
}

/// `=`. The left operand is a place; the right one is an expression, whose value this takes. `first` is the place of the right
/// one's first token.
///
/// # Errors
/// Code 29 at `first` where the right operand has no value; at the operator code 23 for what may not be written, code 29
/// between structs, and code 22 where the value isn't converted to the place's type.
pub fn assigned(
    alloc: Global,
    place: Place,
    to: Shared<Expr>,
    e: Shared<Expr>,
    first: Place,
) -> Result<Shared<Expr>, TypeFault>
    ensures { Gives result (spec.assigned place to e first) }
{
    let v = right_operand(alloc, to.get(), e, first)?;
    written(alloc, place, to, v)
}

fn is_shift(op: BinOp) -> bool
    ensures { result ≡ spec.is_shift op }
{
    match op {
        BinOp::Shl | BinOp::Shr => true,
        _ => false,
    }
}

fn is_sum(op: BinOp) -> bool
    ensures { result ≡ spec.is_sum op }
{
    match op {
        BinOp::Add | BinOp::Sub => true,
        _ => false,
    }
}

/// The type in which the right operand of `op=` is taken.
fn right_kind(op: BinOp, x: Arith, y: Arith) -> Arith
    ensures { result ≡ spec.right_kind op x y }
{
    if is_shift(op) {
        return promoted(y);
    }
    common(x, y)
}

fn changed(
    alloc: Global,
    op: BinOp,
    place: Place,
    to: Shared<Expr>,
    v: Shared<Expr>,
) -> Result<Shared<Expr>, NoMemory>
    ensures { IfOk result (λ r. r ≡ spec.changed op place to v) }
{
    let ctype = to.get().ctype.unqualified(alloc)?;
    node(alloc, ExprKind::AssignOp(op, to, v), ctype, place)
}

/// Whether a pointer with steps of this size is moved by a value.
fn moves_by(op: BinOp, v: &Expr, size: Option<u32>) -> bool
    ensures { result ≡ spec.moves_by op v.now size }
{
    match size {
        Some(_) => is_sum(op) && v.ctype.is_arithmetic(),
        None => false,
    }
}

/// `op=`. The left operand is a place and the right one a value: both arithmetic, the value being converted to the common
/// type, or to its own promoted type for a shift; or, for `+=` and `-=`, a pointer to a complete object type and an integer,
/// which stays as it is.
///
/// # Errors
/// At the operator code 23 for what may not be written, and code 22.
pub fn assigned_by(
    alloc: Global,
    op: BinOp,
    place: Place,
    to: Shared<Expr>,
    v: Shared<Expr>,
) -> Result<Shared<Expr>, TypeFault>
    ensures { Gives result (spec.assigned_by op place to v) }
{
    if !is_writable(to.get()) {
        return Err(at(23, place));
    }
    match arith_pair(to.get(), v.get()) {
        Some((x, y)) => {
            let v = in_kind(alloc, right_kind(op, x, y), v)?;
            Ok(changed(alloc, op, place, to, v)?)
        }
        None => {
            if !moves_by(op, v.get(), step_of(&to.get().ctype)) {
                return Err(at(22, place));
            }
            Ok(changed(alloc, op, place, to, v)?)
        }
    }
}

/// By what a place of this type is stepped up.
fn unit_of(t: &CType) -> Option<u32>
    ensures { result ≡ spec.unit_of t.now }
{
    if t.is_arithmetic() {
        return Some(1);
    }
    step_of(t)
}

fn signed_unit(is_up: bool, n: u32) -> u32
    ensures { result ≡ spec.signed_unit is_up n }
{
    if is_up { n } else { negate(n) }
}

/// `++` or, where it doesn't go up, `--`, on a place: arithmetic, or a pointer to a complete object type. `old` says that it
/// stands behind its operand and gives the old value.
///
/// # Errors
/// At the operator code 23 for what may not be written, and code 22.
pub fn stepped(
    alloc: Global,
    place: Place,
    e: Shared<Expr>,
    is_up: bool,
    old: bool,
) -> Result<Shared<Expr>, TypeFault>
    ensures { Gives result (spec.stepped place e is_up old) }
{
    if !is_writable(e.get()) {
        return Err(at(23, place));
    }
    match unit_of(&e.get().ctype) {
        Some(n) => {
            let ctype = e.get().ctype.unqualified(alloc)?;
            let kind = ExprKind::Step(e, signed_unit(is_up, n), old);
            Ok(node(alloc, kind, ctype, place)?)
        }
        None => Err(at(22, place)),
    }
}
