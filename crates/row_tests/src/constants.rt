//! Constant expressions.

use crate::operands::{HERE, Node, int, variable};
use c_const::{constant, is_null_constant, narrowed, operate, operate_one};
use c_rows::{TypeFault, array_length, binary, cast, integer_constant, subtracted};
use c_tree::{BinOp, UnOp};
use c_types::{Arith, CType};
use cm_base::Stop;
use std::alloc::Global;
use std::test::Fail;

#[test]
fn words(rt: HostRuntime) -> Result<(), Fail> {
    let minus_seven = 0xFFFF_FFF9;
    assert!(rt; operate(BinOp::Div, true, minus_seven, 2) == Ok(0xFFFF_FFFD));
    assert!(rt; operate(BinOp::Rem, true, minus_seven, 2) == Ok(0xFFFF_FFFF));
    assert!(rt; operate(BinOp::Div, true, 0x8000_0000, 0xFFFF_FFFF) == Ok(0x8000_0000));
    assert!(rt; operate(BinOp::Div, false, minus_seven, 0) == Err(Stop::Divide));
    assert!(rt; operate(BinOp::Shr, true, minus_seven, 33) == Ok(0xFFFF_FFFC));
    assert!(rt; operate(BinOp::Lt, true, minus_seven, 2) == Ok(1));
    assert!(rt; operate(BinOp::Lt, false, minus_seven, 2) == Ok(0));
    assert!(rt; operate_one(UnOp::Not, 0) == 1 && operate_one(UnOp::Minus, 7) == minus_seven);
    assert!(rt; narrowed(Arith::SignedChar, 0x180) == 0xFFFF_FF80);
    assert!(rt; narrowed(Arith::Char, 0x180) == 0x80);
    Ok(())
}

/// `x - y`
fn difference(alloc: Global, x: u32, y: u32) -> Result<Node, TypeFault> {
    let a = int(alloc, x)?;
    let b = int(alloc, y)?;
    subtracted(alloc, HERE, a, b)
}

/// `1 - 1` is a null constant, and `2 - 1` and a variable aren't.
fn nulls(alloc: Global) -> Result<bool, TypeFault> {
    let zero = difference(alloc, 1, 1)?;
    let one = difference(alloc, 2, 1)?;
    let x = variable(alloc, Arith::Int)?;
    Ok(
        is_null_constant(zero.get())
            && !is_null_constant(one.get())
            && !is_null_constant(x.get())
            && constant(x.get()) == None,
    )
}

/// `(char)(1 - 2)` is 255.
fn narrow(alloc: Global) -> Result<bool, TypeFault> {
    let minus_one = difference(alloc, 1, 2)?;
    let e = cast(alloc, HERE, &CType::arith(Arith::Char), minus_one)?;
    Ok(integer_constant(e.get(), HERE)? == 255 && array_length(e.get(), HERE)? == 255)
}

/// `1 / 0` is no constant.
fn by_zero(alloc: Global) -> Result<bool, TypeFault> {
    let a = int(alloc, 1)?;
    let b = int(alloc, 0)?;
    let e = binary(alloc, BinOp::Div, HERE, a, b)?;
    Ok(constant(e.get()) == None)
}

#[test]
fn expressions(rt: HostRuntime) -> Result<(), Fail> {
    assert!(rt; nulls(rt.alloc())?);
    assert!(rt; narrow(rt.alloc())?);
    assert!(rt; by_zero(rt.alloc())?);
    Ok(())
}
