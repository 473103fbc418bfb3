//! The operators of C on words, those with two forms by the sign of their operands.

ghost use Rattle.std.specs.Prelude.{◌≡◌, ◌<◌, cond, Ok};
ghost use Rattle.ns_types.specs.Operators as spec;

use cm_base::Stop;

/// 1 or 0.
pub fn truth(holds: bool) -> u32
    ensures { result ≡ spec.truth holds }
{
    if holds { 1 } else { 0 }
}

fn is_negative(a: u32) -> bool
    ensures { result ≡ spec.is_negative a }
{
    a >= 0x8000_0000
}

fn magnitude(a: u32) -> u32
    ensures value { result ≡ spec.magnitude a }
    ensures positive { 0 < a → 0 < result }
{
    if is_negative(a) {
        0u32.wrapping_sub(a)
    } else {
        a
    }
}

fn with_sign(negative: bool, n: u32) -> u32
    ensures { result ≡ spec.with_sign negative n }
{
    if negative { 0u32.wrapping_sub(n) } else { n }
}

/// The quotient toward 0, of signed or of unsigned words.
pub fn divide(signed: bool, a: u32, b: u32) -> Result<u32, Stop>
    ensures { result ≡ cond signed (spec.divide_signed a b) (spec.divide_unsigned a b) }
{
    if b == 0 {
        return Err(Stop::Divide);
    }
    if !signed {
        return Ok(a / b);
    }
    let quotient = magnitude(a) / magnitude(b);
    Ok(with_sign(is_negative(a) != is_negative(b), quotient))
}

/// The remainder, which has the sign of the first operand.
pub fn remainder(signed: bool, a: u32, b: u32) -> Result<u32, Stop>
    ensures { result ≡ cond signed (spec.remainder_signed a b) (spec.remainder_unsigned a b) }
{
    if b == 0 {
        return Err(Stop::Divide);
    }
    if !signed {
        return Ok(a % b);
    }
    Ok(with_sign(is_negative(a), magnitude(a) % magnitude(b)))
}

pub fn shift_left(a: u32, n: u32) -> u32
    ensures { result ≡ spec.shift_left a n }
{
    a << (n % 32)
}

fn shift_right_unsigned(a: u32, n: u32) -> u32
    ensures { result ≡ spec.shift_right_unsigned a n }
{
    a >> (n % 32)
}

/// A signed word keeps its sign.
pub fn shift_right(signed: bool, a: u32, n: u32) -> u32
    ensures { result ≡ cond signed (spec.shift_right_signed a n) (spec.shift_right_unsigned a n) }
{
    if signed && is_negative(a) {
        return !shift_right_unsigned(!a, n);
    }
    shift_right_unsigned(a, n)
}

fn from_least(a: u32) -> u32
    ensures { result ≡ spec.from_least a }
{
    a.wrapping_add(0x8000_0000)
}

/// `<`, as 1 or 0.
pub fn less(signed: bool, a: u32, b: u32) -> u32
    ensures { result ≡ cond signed (spec.less_signed a b) (spec.less_unsigned a b) }
{
    if signed {
        return truth(from_least(a) < from_least(b));
    }
    truth(a < b)
}

/// `<=`, as 1 or 0.
pub fn at_most(signed: bool, a: u32, b: u32) -> u32
    ensures { result ≡ cond signed (spec.at_most_signed a b) (spec.at_most_unsigned a b) }
{
    if signed {
        return truth(!(from_least(b) < from_least(a)));
    }
    truth(!(b < a))
}

/// The low byte, extended by its sign.
pub fn signed_byte(a: u32) -> u32
    ensures { result ≡ spec.to_signed 1 a }
{
    let low = a % 0x100;
    if low < 0x80 { low } else { low + 0xFFFF_FF00 }
}

/// The low halfword, extended by its sign.
pub fn signed_half(a: u32) -> u32
    ensures { result ≡ spec.to_signed 2 a }
{
    let low = a % 0x1_0000;
    if low < 0x8000 { low } else { low + 0xFFFF_0000 }
}
