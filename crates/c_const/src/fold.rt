//! Which expressions are constants (C11 6.6), and their values.

ghost use Rattle.std.specs.Prelude.{◌≡◌};
ghost use Rattle.c_const.specs.Constant as spec;
ghost use Rattle.c_const.specs.Operate.{operate as operate_of};

use crate::operators::{is_signed, narrowed, operate, operate_one};
use crate::words::truth;
use c_tree::{BinOp, Expr, ExprKind};
use c_types::{CType, Shape};

/// The value of a constant expression: of constants, conversions between scalars, and operators on these. None for all else,
/// and where a part isn't constant or divides by 0, in an arm that isn't taken too.
#[cycle(constants)]
pub fn constant(e: &Expr) -> Option<u32>
    ensures { result ≡ spec.constant e.now }
{
    kind_constant(&e.kind, &e.ctype)
}

#[cycle(constants)]
fn kind_constant(kind: &ExprKind, ctype: &CType) -> Option<u32>
    ensures { result ≡ spec.kind_constant kind.now ctype.now }
{
    match kind {
        ExprKind::Const(n) => Some(*n),
        ExprKind::Convert(a) => converted(ctype, constant(a.get())?),
        ExprKind::Unary(op, a) => Some(operate_one(*op, constant(a.get())?)),
        ExprKind::Binary(op, a, b) => {
            let x = constant(a.get())?;
            let y = constant(b.get())?;
            unless_stopped(*op, is_signed(&a.get().ctype), x, y)
        }
        ExprKind::PtrAdd(p, i, size) => {
            let x = constant(p.get())?;
            let y = constant(i.get())?;
            Some(x.wrapping_add(y.wrapping_mul(*size)))
        }
        ExprKind::PtrDiff(p, q, size) => {
            let x = constant(p.get())?;
            let y = constant(q.get())?;
            unless_stopped(BinOp::Div, true, x.wrapping_sub(y), *size)
        }
        ExprKind::And(a, b) => {
            let x = constant(a.get())?;
            let y = constant(b.get())?;
            Some(truth(x != 0 && y != 0))
        }
        ExprKind::Or(a, b) => {
            let x = constant(a.get())?;
            let y = constant(b.get())?;
            Some(truth(x != 0 || y != 0))
        }
        ExprKind::Cond(c, a, b) => {
            let x = constant(c.get())?;
            let y = constant(a.get())?;
            let z = constant(b.get())?;
            Some(if x != 0 { y } else { z })
        }
        _ => None,
    }
}

/// An operator on constants, None where it stops.
fn unless_stopped(op: BinOp, signed: bool, x: u32, y: u32) -> Option<u32>
    ensures { result ≡ spec.unless_stopped (operate_of op signed x y) }
{
    match operate(op, signed, x, y) {
        Ok(z) => Some(z),
        Err(_) => None,
    }
}

/// A constant in another scalar type.
fn converted(t: &CType, x: u32) -> Option<u32>
    ensures { result ≡ spec.converted t.now x }
{
    match &t.shape {
        Shape::Arith(a) => Some(narrowed(*a, x)),
        Shape::Pointer(_) => Some(x),
        _ => None,
    }
}

/// Whether it is a null constant (C11 6.3.2.3, paragraph 3): an integer constant of value 0, or `NULL`.
pub fn is_null_constant(e: &Expr) -> bool
    ensures { result ≡ spec.is_null_constant e.now }
{
    e.ctype.is_arithmetic() && is_zero(constant(e)) || e.ctype.is_void_pointer() && zero_node(e)
}

fn is_zero(n: Option<u32>) -> bool
    ensures { result ≡ spec.is_zero n }
{
    match n {
        Some(n) => n == 0,
        None => false,
    }
}

fn zero_node(e: &Expr) -> bool
    ensures { result ≡ spec.zero_node e.now }
{
    match &e.kind {
        ExprKind::Const(n) => *n == 0,
        _ => false,
    }
}
