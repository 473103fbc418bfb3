//! Numbers.

ghost use Rattle.std.specs.Prelude.{◌≡◌, ◌<◌, ◌≤◌, ◌^◌, ◌||◌, SomeIff, MatchResult, Ok, Err};
ghost use Rattle.c_lex.specs.Spelling.{value_of, begins_hex, begins_long_long, two_alike};
ghost use Rattle.c_lex.specs.Reading as spec;

use crate::class::{Class, begins, begins_with, digit_value};
use crate::fault::{PieceError, fault_at};
use crate::runs::{behind, run};
use crate::token::Kind;

/// The value of the digits, if it is below 2^32.
#[tactic(auto, using(crate::proofs::Values::values))]
fn value_of(base: u32, digits: &[u8]) -> Option<u32>
    requires { 1 ≤ base }
    ensures { SomeIff result (value_of base digits.now < 2 ^ 32) (value_of base digits.now) }
{
    let mut value: u32 = 0;
    for d in digits {
        let digit = u32::from(digit_value(*d));
        value = value.checked_mul(base)?.checked_add(digit)?;
    }
    Some(value)
}

fn begins_hex(text: &[u8]) -> bool
    ensures { result ≡ begins_hex text.now }
{
    match text {
        [a, x, h, ..] => *a == b'0' && *x == b'x' && Class::Hex.has(*h),
        _ => false,
    }
}

/// The base, the digits, and what is behind them.
fn digits_at(text: &[u8]) -> (u32, &[u8], &[u8])
    ensures base { result.0 ≡ (spec.digits_at text.now).0 }
    ensures digits { result.1.now ≡ (spec.digits_at text.now).1 }
    ensures behind { result.2.now ≡ (spec.digits_at text.now).2 }
    ensures positive { 1 ≤ result.0 }
{
    if begins_hex(text) {
        let (digits, rest) = run(Class::Hex, &text[2..]);
        return (16, digits, rest);
    }
    if begins_with(b'0', text) {
        let (digits, rest) = run(Class::Octal, text);
        return (8, digits, rest);
    }
    let (digits, rest) = run(Class::Digit, text);
    (10, digits, rest)
}

fn two_alike(text: &[u8]) -> bool
    ensures { result ≡ two_alike text.now }
{
    match text {
        [a, b, ..] => Class::L.has(*a) && *a == *b,
        _ => false,
    }
}

/// `ll` or `LL`, also behind a `u`.
fn begins_long_long(text: &[u8]) -> bool
    ensures { result ≡ begins_long_long text.now }
{
    match text {
        [a, rest @ ..] => two_alike(text) || Class::U.has(*a) && two_alike(rest),
        [] => false,
    }
}

/// Whether the suffix has a `u`, whether it has an `l`, and what is behind it.
#[tactic(auto, unfolding(crate::specs::Reading::suffix_at))]
fn suffix_at(text: &[u8]) -> (bool, bool, &[u8])
    ensures says { (spec.suffix_at text.now).0 ≡ (result.0, result.1) }
    ensures behind { result.2.now ≡ (spec.suffix_at text.now).1 }
{
    if let Some(rest) = behind(Class::U, text) {
        return match behind(Class::L, rest) {
            Some(rest) => (true, true, rest),
            None => (true, false, rest),
        };
    }
    if let Some(rest) = behind(Class::L, text) {
        return match behind(Class::U, rest) {
            Some(rest) => (true, true, rest),
            None => (false, true, rest),
        };
    }
    (false, false, text)
}

/// A number whose digits have this value, with what is behind them.
#[tactic(auto, unfolding(crate::specs::Reading::number_with))]
fn number_with<'a>(
    text: &'a [u8],
    value: u32,
    more: &'a [u8],
) -> Result<(Kind, &'a [u8]), PieceError>
    ensures { spec.Gives (λ x. (x.0, x.1.now)) result (spec.number_with text.now value more.now) }
{
    if begins_long_long(more) || begins_with(b'.', more) {
        return Err(fault_at(6, text));
    }
    let (has_u, long, rest) = suffix_at(more);
    if begins(Class::Name, rest) {
        return Err(fault_at(1, rest));
    }
    let unsigned = has_u || value >= 0x8000_0000;
    Ok((
        Kind::Number {
            value,
            unsigned,
            long,
        },
        rest,
    ))
}

/// The number at the front, which begins with a digit.
#[tactic(auto, unfolding(crate::specs::Reading::number_at))]
pub fn number_at(text: &[u8]) -> Result<(Kind, &[u8]), PieceError>
    ensures { spec.Gives (λ x. (x.0, x.1.now)) result (spec.number_at text.now) }
{
    let (base, digits, more) = digits_at(text);
    match value_of(base, digits) {
        Some(value) => number_with(text, value, more),
        None => Err(fault_at(2, text)),
    }
}
