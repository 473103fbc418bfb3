//! Character constants and strings.

ghost use Rattle.std.specs.Prelude.{◌≡◌, ◌≤◌, ◌<◌, length, drop, true, false, MatchOption, ◌+◌};
ghost use Rattle.c_lex.specs.Spelling.{simple_escape};
ghost use Rattle.c_lex.specs.Classes.{begins_with};
ghost use Rattle.c_lex.specs.Reading as spec;

use crate::class::{Class, digit_value};
use crate::fault::{Fault, Flaw, PieceError, fault_at};
use crate::runs::run;
use crate::token::Kind;
use cm_base::{Bytes, List};
use std::alloc::Global;

/// The value of an escape of one character.
fn simple_escape(e: u8) -> Option<u8>
    ensures { result ≡ simple_escape e }
{
    match e {
        b'n' => Some(b'\n'),
        b't' => Some(b'\t'),
        b'r' => Some(b'\r'),
        b'\\' => Some(b'\\'),
        b'\'' => Some(b'\''),
        b'"' => Some(b'"'),
        _ => None,
    }
}

/// A second hexadecimal digit, if there is one.
#[tactic(auto, using(crate::proofs::Digits::hex_small))]
fn hex_behind(value: u8, text: &[u8]) -> (u8, &[u8])
    requires { value < 16 }
    ensures { spec.hex_behind value text.now ≡ (result.0, result.1.now) }
{
    match text {
        [b, rest @ ..] => {
            if !Class::Hex.has(*b) {
                return (value, text);
            }
            (16 * value + digit_value(*b), rest)
        }
        [] => (value, text),
    }
}

/// The digits behind `\x`.
#[tactic(auto, using(crate::proofs::Digits::hex_small), unfolding(crate::specs::Reading::hex_at))]
fn hex_at(text: &[u8]) -> Result<(u8, &[u8]), Flaw>
    ensures { spec.Sees result (spec.hex_at text.now) }
{
    match text {
        [] => Err(Flaw::Cut),
        [b, rest @ ..] => {
            if !Class::Hex.has(*b) {
                return Err(Flaw::Bad);
            }
            Ok(hex_behind(digit_value(*b), rest))
        }
    }
}

/// A third octal digit, if there is one that fits.
#[tactic(auto, using(crate::proofs::Digits::octal_small))]
fn third_at(value: u8, text: &[u8]) -> (u8, &[u8])
    requires { value < 64 }
    ensures { spec.third_at value text.now ≡ (result.0, result.1.now) }
{
    match text {
        [b, rest @ ..] => {
            if Class::Octal.has(*b) {
                let more = 8 * u16::from(value) + u16::from(digit_value(*b));
                if more <= 255 {
                    return (more as u8, rest);
                }
            }
            (value, text)
        }
        [] => (value, text),
    }
}

/// Up to two more octal digits.
#[tactic(auto, using(crate::proofs::Digits::octal_small), unfolding(crate::specs::Reading::octal_at))]
fn octal_at(value: u8, text: &[u8]) -> (u8, &[u8])
    requires { value < 8 }
    ensures { spec.octal_at value text.now ≡ (result.0, result.1.now) }
{
    match text {
        [b, rest @ ..] => {
            if !Class::Octal.has(*b) {
                return (value, text);
            }
            third_at(8 * value + digit_value(*b), rest)
        }
        [] => (value, text),
    }
}

/// What is behind a backslash.
#[tactic(auto, using(crate::proofs::Digits::octal_small), unfolding(crate::specs::Reading::escape_at))]
fn escape_at(text: &[u8]) -> Result<(u8, &[u8]), Flaw>
    ensures { spec.Sees result (spec.escape_at text.now) }
{
    match text {
        [] => Err(Flaw::Cut),
        [b, rest @ ..] => {
            if *b == b'x' {
                return hex_at(rest);
            }
            if Class::Octal.has(*b) {
                return Ok(octal_at(digit_value(*b), rest));
            }
            match simple_escape(*b) {
                Some(value) => Ok((value, rest)),
                None => Err(Flaw::Bad),
            }
        }
    }
}

/// A character or an escape.
#[tactic(auto, unfolding(crate::specs::Reading::item_at))]
fn item_at(quote: u8, text: &[u8]) -> Result<(u8, &[u8]), Flaw>
    ensures { spec.Sees result (spec.item_at quote text.now) }
{
    match text {
        [] => Err(Flaw::Cut),
        [b, rest @ ..] => {
            if *b == b'\\' {
                return escape_at(rest);
            }
            if Class::Plain.has(*b) && *b != quote {
                return Ok((*b, rest));
            }
            Err(Flaw::Bad)
        }
    }
}

/// The same. `cut` is how many bytes the literal's first byte leaves, with it.
#[tactic(auto, unfolding(crate::specs::Reading::literal_item))]
fn literal_item(cut: usize, quote: u8, text: &[u8]) -> Result<(u8, &[u8]), PieceError>
    ensures { spec.Gives (λ x. (x.0, x.1.now)) result (spec.literal_item cut quote text.now) }
{
    match item_at(quote, text) {
        Ok(found) => Ok(found),
        Err(Flaw::Cut) => Err(PieceError::At(Fault { code: 1, left: cut })),
        Err(Flaw::Bad) => Err(fault_at(1, text)),
    }
}

fn close_char(cut: usize, value: u8, text: &[u8]) -> Result<(Kind, &[u8]), PieceError>
    ensures { spec.Gives (λ x. (x.0, x.1.now)) result (spec.close_char cut value text.now) }
{
    match text {
        [] => Err(PieceError::At(Fault { code: 1, left: cut })),
        [b, rest @ ..] => {
            if *b == b'\'' {
                return Ok((Kind::Char(value), rest));
            }
            Err(fault_at(1, text))
        }
    }
}

/// The rest of a character constant, behind its first quote.
#[tactic(auto, unfolding(crate::specs::Reading::char_at))]
pub fn char_at(cut: usize, body: &[u8]) -> Result<(Kind, &[u8]), PieceError>
    ensures { spec.Gives (λ x. (x.0, x.1.now)) result (spec.char_at cut body.now) }
{
    let (value, rest) = literal_item(cut, b'\'', body)?;
    close_char(cut, value, rest)
}

/// What is behind a closing quote, if one stands here.
fn closed(text: &[u8]) -> Option<&[u8]>
    ensures { MatchOption result (begins_with 34 text.now ≡ false) (λ r. (begins_with 34 text.now ≡ true) × (r.now ≡ drop 1 text.now)) }
{
    match text {
        [b, rest @ ..] => { if *b == b'"' { Some(rest) } else { None } }
        [] => None,
    }
}

/// The rest of a string, behind its first quote.
#[tactic(auto, using(crate::proofs::Strings::strings))]
pub fn string_at(alloc: Global, cut: usize, body: &[u8]) -> Result<(Bytes, &[u8]), PieceError>
    ensures { spec.Gives (λ x. (x.0, x.1.now)) result (spec.string_at cut (length body.now + 1) body.now) }
{
    let (plain, more) = run(Class::Str, body);
    let mut bytes = List::from_slice(alloc, plain)?;
    let mut rest = more;
    let most = more.len() + 1;
    for i in 0..most {
        if let Some(after) = closed(rest) {
            return Ok((bytes, after));
        }
        let (byte, after) = literal_item(cut, b'"', rest)?;
        bytes.push(byte)?;
        rest = after;
    }
    Err(PieceError::At(Fault { code: 1, left: cut }))
}
