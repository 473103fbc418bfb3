//! The operators of the typed tree on words.

ghost use Rattle.std.specs.Prelude.{◌≡◌};
ghost use Rattle.c_const.specs.Operate as spec;

use crate::words::{
    at_most, divide, less, remainder, shift_left, shift_right, signed_byte, signed_half, truth,
};
use c_tree::{BinOp, UnOp};
use c_types::{Arith, CType, Shape, is_unsigned};
use cm_base::Stop;

/// An operator on two words, signed or not (C11 6.5.5 to 6.5.14). Sums, differences and products wrap, and a shift's amount is
/// taken modulo 32.
///
/// # Errors
/// `Stop::Divide` for a quotient or a remainder by 0.
pub fn operate(op: BinOp, signed: bool, x: u32, y: u32) -> Result<u32, Stop>
    ensures { result ≡ spec.operate op signed x y }
{
    match op {
        BinOp::Mul => Ok(x.wrapping_mul(y)),
        BinOp::Div => divide(signed, x, y),
        BinOp::Rem => remainder(signed, x, y),
        BinOp::Add => Ok(x.wrapping_add(y)),
        BinOp::Sub => Ok(x.wrapping_sub(y)),
        BinOp::Shl => Ok(shift_left(x, y)),
        BinOp::Shr => Ok(shift_right(signed, x, y)),
        BinOp::Lt => Ok(less(signed, x, y)),
        BinOp::Gt => Ok(less(signed, y, x)),
        BinOp::Le => Ok(at_most(signed, x, y)),
        BinOp::Ge => Ok(at_most(signed, y, x)),
        BinOp::Eq => Ok(truth(x == y)),
        BinOp::Ne => Ok(truth(x != y)),
        BinOp::And => Ok(x & y),
        BinOp::Xor => Ok(x ^ y),
        BinOp::Or => Ok(x | y),
    }
}

/// An operator on one word.
pub fn operate_one(op: UnOp, x: u32) -> u32
    ensures { result ≡ spec.operate_one op x }
{
    match op {
        UnOp::Plus => x,
        UnOp::Minus => 0u32.wrapping_sub(x),
        UnOp::Compl => !x,
        UnOp::Not => truth(x == 0),
    }
}

/// A word as a value of an arithmetic type: the low bytes, extended by the type's sign (C11 6.3.1.3).
pub fn narrowed(a: Arith, x: u32) -> u32
    ensures { result ≡ spec.narrowed a x }
{
    match a {
        Arith::Char | Arith::UnsignedChar => x % 0x100,
        Arith::SignedChar => signed_byte(x),
        Arith::Short => signed_half(x),
        Arith::UnsignedShort => x % 0x1_0000,
        Arith::Int | Arith::Unsigned | Arith::Long | Arith::UnsignedLong => x,
    }
}

/// Whether values of a type are signed. Pointers aren't.
pub fn is_signed(t: &CType) -> bool
    ensures { result ≡ spec.is_signed t.now }
{
    match &t.shape {
        Shape::Arith(a) => !is_unsigned(*a),
        _ => false,
    }
}
