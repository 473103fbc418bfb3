//! What instructions compute, on numbers of 32 bits and on the flags (DDI0553, shared functions of the pseudocode).

ghost use Rattle.std.specs.Prelude.{◌≡◌, ◌≤◌, ◌<◌, IsTrue};
ghost use Rattle.ns_types.specs.Operators.{is_negative, magnitude, to_signed, with_sign};
ghost use Rattle.v8m_mem.specs.Target.{flag};
ghost use Rattle.v8m_core.specs.Values.{compared, condition_holds, is_set, overflows, quotient, shifted_left, shifted_right, shifted_with_sign, signed_quotient, tested};
ghost use Rattle.v8m_core.specs.Parts.{is_short};

/// The low byte with its sign, in 32 bits.
pub fn signed_byte(a: u32) -> u32
    ensures { result ≡ to_signed 1 a }
{
    let low = a % 0x100;
    if low < 0x80 { low } else { low + 0xFFFF_FF00 }
}

/// The low halfword with its sign, in 32 bits.
pub fn signed_half(a: u32) -> u32
    ensures { result ≡ to_signed 2 a }
{
    let low = a % 0x1_0000;
    if low < 0x8000 { low } else { low + 0xFFFF_0000 }
}

/// The low 1 or 2 bytes with their sign, in 32 bits.
pub fn to_signed(bytes: u8, a: u32) -> u32
    requires { IsTrue (is_short bytes) }
    ensures { result ≡ to_signed bytes a }
{
    if bytes == 1 {
        signed_byte(a)
    } else {
        signed_half(a)
    }
}

/// LSL, by any number of bits.
#[tactic(auto, unfolding(crate::specs::Values::shifted_left))]
pub fn shifted_left(a: u32, k: u32) -> u32
    ensures { result ≡ shifted_left a k }
{
    if k < 32 { a << k } else { 0 }
}

/// LSR, by any number of bits.
#[tactic(auto, unfolding(crate::specs::Values::shifted_right))]
pub fn shifted_right(a: u32, k: u32) -> u32
    ensures { result ≡ shifted_right a k }
{
    if k < 32 { a >> k } else { 0 }
}

/// Bit 31.
fn is_negative(a: u32) -> bool
    ensures { result ≡ is_negative a }
{
    a >= 0x8000_0000
}

/// ASR, by any number of bits.
#[tactic(auto, unfolding(crate::specs::Values::shifted_with_sign))]
pub fn shifted_with_sign(a: u32, k: u32) -> u32
    ensures { result ≡ shifted_with_sign a k }
{
    if is_negative(a) {
        !shifted_right(!a, k)
    } else {
        shifted_right(a, k)
    }
}

/// UDIV.
#[tactic(auto, unfolding(crate::specs::Values::quotient))]
pub fn quotient(a: u32, b: u32) -> u32
    ensures { result ≡ quotient a b }
{
    if b == 0 { 0 } else { a / b }
}

fn magnitude(a: u32) -> u32
    ensures value { result ≡ magnitude a }
    ensures some { 0 < a → 0 < result }
{
    if is_negative(a) {
        0u32.wrapping_sub(a)
    } else {
        a
    }
}

fn with_sign(negative: bool, n: u32) -> u32
    ensures { result ≡ with_sign negative n }
{
    if negative { 0u32.wrapping_sub(n) } else { n }
}

/// SDIV.
#[tactic(auto, unfolding(crate::specs::Values::signed_quotient))]
pub fn signed_quotient(a: u32, b: u32) -> u32
    ensures { result ≡ signed_quotient a b }
{
    if b == 0 {
        return 0;
    }
    let q = magnitude(a) / magnitude(b);
    with_sign(is_negative(a) != is_negative(b), q)
}

/// A flag, by its weight.
fn flag(is_set: bool, weight: u8) -> u8
    ensures value { result ≡ flag is_set weight }
    ensures most { result ≤ weight }
{
    if is_set { weight } else { 0 }
}

/// V of a - b: the result isn't the difference of the numbers with their signs.
fn overflows(a: u32, b: u32) -> bool
    ensures { result ≡ overflows a b }
{
    let r = a.wrapping_sub(b);
    if is_negative(a) {
        !is_negative(b) && !is_negative(r)
    } else {
        is_negative(b) && is_negative(r)
    }
}

/// The flags of a - b, with Q as it was.
#[tactic(auto, unfolding(crate::specs::Values::compared))]
pub fn compared(a: u32, b: u32, flags: u8) -> u8
    ensures { result ≡ compared a b flags }
{
    let r = a.wrapping_sub(b);
    let n = flag(is_negative(r), 16);
    let z = flag(r == 0, 8);
    let c = flag(a >= b, 4);
    let v = flag(overflows(a, b), 2);
    n + z + c + v + flags % 2
}

/// A flag, by its weight.
fn is_set(flags: u8, weight: u8) -> bool
    requires { 0 < weight }
    ensures { result ≡ is_set flags weight }
{
    flags / weight % 2 == 1
}

/// Bits 3 to 1 of a condition.
fn tested(k: u32, n: bool, z: bool, c: bool, v: bool) -> bool
    ensures { result ≡ tested k n z c v }
{
    match k {
        0 => z,
        1 => c,
        2 => n,
        3 => v,
        4 => c && !z,
        5 => n == v,
        _ => n == v && !z,
    }
}

/// Whether a condition holds.
#[tactic(auto, unfolding(crate::specs::Values::condition_holds))]
pub fn condition_holds(condition: u32, flags: u8) -> bool
    ensures { result ≡ condition_holds condition flags }
{
    let is = tested(
        condition / 2,
        is_set(flags, 16),
        is_set(flags, 8),
        is_set(flags, 4),
        is_set(flags, 2),
    );
    if condition % 2 == 0 { is } else { !is }
}
