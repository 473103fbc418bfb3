//! Nodes of the typed tree, and constants.

ghost use Rattle.std.specs.Prelude.{◌≡◌, IfOk};
ghost use Rattle.c_rows.specs.Nodes as spec;

use c_tree::{Expr, ExprKind};
use c_types::{Arith, CType, Shape};
use cm_base::{NoMemory, Place, Shared};
use std::alloc::Global;

/// A node.
pub fn node(
    alloc: Global,
    kind: ExprKind,
    ctype: CType,
    place: Place,
) -> Result<Shared<Expr>, NoMemory>
    ensures { IfOk result (λ e. e ≡ spec.node kind ctype place) }
{
    Shared::new(alloc, Expr { kind, ctype, place })
}

/// The type of pointers to void.
pub fn void_pointer(alloc: Global) -> Result<CType, NoMemory>
    ensures { IfOk result (λ t. t ≡ spec.void_pointer) }
{
    let void = Shared::new(alloc, CType::plain(Shape::Void))?;
    Ok(CType::pointer_to(void))
}

fn number_kind(unsigned: bool, long: bool) -> Arith
    ensures { result ≡ spec.number_kind unsigned long }
{
    if unsigned {
        if long {
            Arith::UnsignedLong
        } else {
            Arith::Unsigned
        }
    } else {
        if long { Arith::Long } else { Arith::Int }
    }
}

/// A number, whose type is unsigned or signed, and long or not.
pub fn number(
    alloc: Global,
    place: Place,
    n: u32,
    unsigned: bool,
    long: bool,
) -> Result<Shared<Expr>, NoMemory>
    ensures { IfOk result (λ e. e ≡ spec.number place n unsigned long) }
{
    let ctype = CType::arith(number_kind(unsigned, long));
    node(alloc, ExprKind::Const(n), ctype, place)
}

/// A character constant, which is an int (C11 6.4.4.4).
pub fn character(alloc: Global, place: Place, c: u8) -> Result<Shared<Expr>, NoMemory>
    ensures { IfOk result (λ e. e ≡ spec.constant_node place c) }
{
    constant_node(alloc, place, c as u32)
}

/// An enumeration constant, which is an int.
pub fn constant_node(alloc: Global, place: Place, n: u32) -> Result<Shared<Expr>, NoMemory>
    ensures { IfOk result (λ e. e ≡ spec.constant_node place n) }
{
    node(alloc, ExprKind::Const(n), CType::arith(Arith::Int), place)
}

/// `NULL`.
pub fn null_node(alloc: Global, place: Place) -> Result<Shared<Expr>, NoMemory>
    ensures { IfOk result (λ e. e ≡ spec.null_node place) }
{
    node(alloc, ExprKind::Const(0), void_pointer(alloc)?, place)
}

/// A number of bytes, as `sizeof` gives it.
pub fn size_node(alloc: Global, place: Place, n: u32) -> Result<Shared<Expr>, NoMemory>
    ensures { IfOk result (λ e. e ≡ spec.size_node place n) }
{
    node(
        alloc,
        ExprKind::Const(n),
        CType::arith(Arith::Unsigned),
        place,
    )
}
