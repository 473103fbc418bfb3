//! Operations.

use crate::operands::{
    HERE, Node, array, converts_operands, fails, function, int, is_conversion, is_of, local, null,
    one, pointer, variable,
};
use c_rows::{
    Intrinsic, TypeFault, added, address, assigned, assigned_by, both_or_either, called, cast,
    character, chosen, constant_node, dereferenced, element, equated, in_order, intrinsic_called,
    member, negated, node, ordered, shifted, size_of, stepped, subtracted, switch_value, test,
    unary, valued,
};
use c_tree::{BinOp, Expr, ExprKind, UnOp};
use c_types::{Arith, CType, Shape};
use cm_base::{List, Shared};
use std::alloc::Global;
use std::test::Fail;

/// `unsigned` with `long` gives `unsigned long`, and both are converted.
fn unsigned_with_long(alloc: Global) -> Result<bool, TypeFault> {
    let a = variable(alloc, Arith::Unsigned)?;
    let b = variable(alloc, Arith::Long)?;
    let e = added(alloc, HERE, a, b)?;
    Ok(is_of(e.get(), Arith::UnsignedLong) && converts_operands(e.get(), true, true))
}

/// A `char` that is shifted by a `long` is promoted to int, and no more.
fn shifted_char(alloc: Global) -> Result<bool, TypeFault> {
    let a = variable(alloc, Arith::Char)?;
    let b = variable(alloc, Arith::Long)?;
    let e = shifted(alloc, BinOp::Shl, HERE, a, b)?;
    Ok(is_of(e.get(), Arith::Int) && converts_operands(e.get(), true, false))
}

fn small(alloc: Global) -> Result<bool, TypeFault> {
    let low = unary(alloc, UnOp::Compl, HERE, variable(alloc, Arith::Char)?)?;
    let no = negated(alloc, HERE, low)?;
    Ok(is_of(no.get(), Arith::Int))
}

fn letters(alloc: Global) -> Result<bool, TypeFault> {
    let c = character(alloc, HERE, 65)?;
    let n = constant_node(alloc, HERE, 65)?;
    let e = in_order(alloc, HERE, c, n)?;
    Ok(is_of(e.get(), Arith::Int))
}

#[test]
fn arithmetic(rt: HostRuntime) -> Result<(), Fail> {
    assert!(rt; unsigned_with_long(rt.alloc())?);
    assert!(rt; shifted_char(rt.alloc())?);
    assert!(rt; small(rt.alloc())?);
    assert!(rt; letters(rt.alloc())?);
    Ok(())
}

/// The size that pointer arithmetic counts.
fn counts(e: &Expr) -> Option<u32> {
    match &e.kind {
        ExprKind::PtrAdd(_, _, size) => Some(*size),
        ExprKind::PtrDiff(_, _, size) => Some(*size),
        _ => None,
    }
}

/// `1 + p` has the pointer first.
fn pointer_sum(alloc: Global) -> Result<bool, TypeFault> {
    let i = int(alloc, 1)?;
    let p = pointer(alloc, Arith::Short, false)?;
    let e = added(alloc, HERE, i, p)?;
    Ok(counts(e.get()) == Some(2) && e.get().ctype.is_pointer())
}

/// `p - 1` counts the size taken from 0.
fn pointer_less(alloc: Global) -> Result<bool, TypeFault> {
    let p = pointer(alloc, Arith::Int, false)?;
    let i = int(alloc, 1)?;
    let e = subtracted(alloc, HERE, p, i)?;
    Ok(counts(e.get()) == Some(0xFFFF_FFFC))
}

/// The difference of two pointers is an int; what they point to may not differ in qualifiers.
fn pointer_difference(alloc: Global, is_const: bool) -> Result<Node, TypeFault> {
    let p = pointer(alloc, Arith::Int, false)?;
    let q = pointer(alloc, Arith::Int, is_const)?;
    subtracted(alloc, HERE, p, q)
}

fn is_difference(alloc: Global) -> Result<bool, TypeFault> {
    let e = pointer_difference(alloc, false)?;
    Ok(counts(e.get()) == Some(4) && is_of(e.get(), Arith::Int))
}

fn at_index(alloc: Global) -> Result<bool, TypeFault> {
    let a = valued(alloc, array(alloc, Arith::Short)?, HERE)?;
    let e = element(alloc, HERE, a, int(alloc, 1)?)?;
    Ok(is_of(e.get(), Arith::Short))
}

fn void_reached(alloc: Global) -> Result<Node, TypeFault> {
    dereferenced(alloc, HERE, null(alloc)?)
}

#[test]
fn pointers(rt: HostRuntime) -> Result<(), Fail> {
    assert!(rt; pointer_sum(rt.alloc())?);
    assert!(rt; pointer_less(rt.alloc())?);
    assert!(rt; is_difference(rt.alloc())?);
    assert!(rt; fails(pointer_difference(rt.alloc(), true), 22));
    assert!(rt; at_index(rt.alloc())?);
    assert!(rt; fails(void_reached(rt.alloc()), 25));
    Ok(())
}

/// `0 == p` converts the null constant.
fn equal_to_null(alloc: Global) -> Result<bool, TypeFault> {
    let n = int(alloc, 0)?;
    let p = pointer(alloc, Arith::Int, false)?;
    let e = equated(alloc, BinOp::Eq, HERE, n, p)?;
    Ok(is_of(e.get(), Arith::Int) && converts_operands(e.get(), true, false))
}

/// `p < 0` isn't allowed.
fn below_null(alloc: Global) -> Result<Node, TypeFault> {
    let p = pointer(alloc, Arith::Int, false)?;
    let n = int(alloc, 0)?;
    ordered(alloc, BinOp::Lt, HERE, p, n)
}

/// `1 ? NULL : p` has the type of p.
fn null_chosen(alloc: Global) -> Result<bool, TypeFault> {
    let n = null(alloc)?;
    let p = pointer(alloc, Arith::Int, false)?;
    let e = chosen(alloc, HERE, int(alloc, 1)?, n, p)?;
    Ok(e.get().ctype.is_pointer() && !e.get().ctype.is_void_pointer())
}

/// `p && 1`, tested.
fn logic(alloc: Global) -> Result<bool, TypeFault> {
    let p = pointer(alloc, Arith::Int, false)?;
    let e = both_or_either(alloc, true, HERE, p, int(alloc, 1)?)?;
    Ok(is_of(test(e, HERE)?.get(), Arith::Int))
}

fn switched(alloc: Global) -> Result<bool, TypeFault> {
    let e = switch_value(alloc, variable(alloc, Arith::Char)?, HERE)?;
    Ok(is_of(e.get(), Arith::Int) && is_conversion(e.get()))
}

#[test]
fn comparisons(rt: HostRuntime) -> Result<(), Fail> {
    assert!(rt; equal_to_null(rt.alloc())?);
    assert!(rt; fails(below_null(rt.alloc()), 22));
    assert!(rt; null_chosen(rt.alloc())?);
    assert!(rt; logic(rt.alloc())?);
    assert!(rt; switched(rt.alloc())?);
    Ok(())
}

/// `c = n` narrows.
fn narrowing(alloc: Global) -> Result<bool, TypeFault> {
    let c = variable(alloc, Arith::Char)?;
    let e = assigned(alloc, HERE, c, variable(alloc, Arith::Int)?, HERE)?;
    let converted = match &e.get().kind {
        ExprKind::Assign(_, v) => is_conversion(v.get()),
        _ => false,
    };
    Ok(converted && is_of(e.get(), Arith::Char))
}

/// `p = q` where q points to const.
fn const_lost(alloc: Global) -> Result<Node, TypeFault> {
    let p = pointer(alloc, Arith::Int, false)?;
    let q = pointer(alloc, Arith::Int, true)?;
    assigned(alloc, HERE, p, q, HERE)
}

/// `c <<= l` converts l to its own promoted type, and `c += l` to the common one.
fn changed(alloc: Global, op: BinOp) -> Result<bool, TypeFault> {
    let c = variable(alloc, Arith::Char)?;
    let e = assigned_by(alloc, op, HERE, c, variable(alloc, Arith::Short)?)?;
    match &e.get().kind {
        ExprKind::AssignOp(_, _, v) => Ok(is_of(v.get(), Arith::Int)),
        _ => Ok(false),
    }
}

/// `p++` steps by the size of what p points to, and `(*q)++` isn't allowed where q points to const.
fn steps(alloc: Global) -> Result<bool, TypeFault> {
    let e = stepped(alloc, HERE, pointer(alloc, Arith::Int, false)?, false, true)?;
    match &e.get().kind {
        ExprKind::Step(_, by, old) => Ok(*by == 0xFFFF_FFFC && *old),
        _ => Ok(false),
    }
}

fn const_stepped(alloc: Global) -> Result<Node, TypeFault> {
    let e = dereferenced(alloc, HERE, pointer(alloc, Arith::Int, true)?)?;
    stepped(alloc, HERE, e, true, false)
}

#[test]
fn assignments(rt: HostRuntime) -> Result<(), Fail> {
    assert!(rt; narrowing(rt.alloc())?);
    assert!(rt; fails(const_lost(rt.alloc()), 22));
    assert!(rt; changed(rt.alloc(), BinOp::Shl)?);
    assert!(rt; changed(rt.alloc(), BinOp::Add)?);
    assert!(rt; steps(rt.alloc())?);
    assert!(rt; fails(const_stepped(rt.alloc()), 23));
    Ok(())
}

/// `&x`, where x is const, points to const.
fn const_address(alloc: Global) -> Result<bool, TypeFault> {
    let t = CType::arith(Arith::Int).qualified(alloc, true, false)?;
    let e = address(alloc, HERE, local(alloc, t)?)?;
    match e.get().ctype.referenced() {
        Some(to) => Ok(to.is_const),
        None => Ok(false),
    }
}

/// A member of what is const is const.
fn const_member(alloc: Global) -> Result<bool, TypeFault> {
    let shape = Shape::Struct {
        number: 0,
        name: List::new(alloc),
        size: 4,
        align: 4,
    };
    let t = CType::plain(shape).qualified(alloc, true, false)?;
    let e = member(alloc, HERE, local(alloc, t)?, &CType::arith(Arith::Int), 0)?;
    Ok(e.get().ctype.is_const && is_of(e.get(), Arith::Int))
}

/// A cast to the same type is a conversion too, and `sizeof` an unsigned number.
fn sized(alloc: Global) -> Result<bool, TypeFault> {
    let e = cast(alloc, HERE, &CType::arith(Arith::Int), int(alloc, 1)?)?;
    let n = size_of(alloc, HERE, &e.get().ctype)?;
    Ok(is_conversion(e.get()) && is_of(n.get(), Arith::Unsigned))
}

#[test]
fn access(rt: HostRuntime) -> Result<(), Fail> {
    assert!(rt; const_address(rt.alloc())?);
    assert!(rt; const_member(rt.alloc())?);
    assert!(rt; sized(rt.alloc())?);
    Ok(())
}

/// `f(1)` of a function by its name.
fn secure_call(alloc: Global) -> Result<bool, TypeFault> {
    let f = node(alloc, ExprKind::Global(5), function(alloc, false)?, HERE)?;
    let e = called(alloc, HERE, f, one(alloc, int(alloc, 1)?)?.as_slice())?;
    match &e.get().kind {
        ExprKind::Call(n, args) => Ok(*n == 5 && args.len() == 1 && is_of(e.get(), Arith::Short)),
        _ => Ok(false),
    }
}

/// A variable that points to a Non-secure function.
fn nonsecure_pointer(alloc: Global) -> Result<Node, TypeFault> {
    let to = Shared::new(alloc, function(alloc, true)?)?;
    Ok(local(alloc, CType::pointer_to(to))?)
}

fn nonsecure_call(alloc: Global) -> Result<bool, TypeFault> {
    let p = nonsecure_pointer(alloc)?;
    let e = called(alloc, HERE, p, one(alloc, int(alloc, 1)?)?.as_slice())?;
    match &e.get().kind {
        ExprKind::NsCall(_, args) => Ok(args.len() == 1 && is_of(e.get(), Arith::Short)),
        _ => Ok(false),
    }
}

fn pointer_created(alloc: Global) -> Result<bool, TypeFault> {
    let args = one(alloc, nonsecure_pointer(alloc)?)?;
    let e = intrinsic_called(
        alloc,
        HERE,
        Intrinsic::CreatePointer,
        args.as_slice(),
        false,
    )?;
    Ok(e.get().ctype.is_pointer())
}

/// The caller is asked for in an entry function alone.
fn caller(alloc: Global, in_entry: bool) -> Result<Node, TypeFault> {
    intrinsic_called(alloc, HERE, Intrinsic::Caller, &[], in_entry)
}

#[test]
fn calls(rt: HostRuntime) -> Result<(), Fail> {
    assert!(rt; secure_call(rt.alloc())?);
    assert!(rt; nonsecure_call(rt.alloc())?);
    assert!(rt; pointer_created(rt.alloc())?);
    assert!(rt; fails(caller(rt.alloc(), false), 44));
    assert!(rt; is_of(caller(rt.alloc(), true)?.get(), Arith::Int));
    Ok(())
}
