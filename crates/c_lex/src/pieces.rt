//! The piece at the front of a text: a blank, a line end, a comment, or a token.

ghost use Rattle.std.specs.Prelude.{◌≡◌, ◌∷◌, ◌+◌, ◌<◌, ◌^◌, length, true};
ghost use Rattle.c_names.specs.Name.{is_letter};
ghost use Rattle.c_lex.specs.Classes.{begins};
ghost use Rattle.c_lex.specs.Reading as spec;

use crate::class::Class;
use crate::comments::{close_at, hash_at};
use crate::fault::{PieceError, fault_at};
use crate::literals::{char_at, string_at};
use crate::marks::mark_at;
use crate::numbers::number_at;
use crate::runs::run;
use crate::token::Kind;
use crate::words::{is_left_out, word_of};
use c_names::Ident;
use cm_base::List;
use std::alloc::Global;

/// A token, if the piece is one, and what is behind it.
pub type Piece<'a> = Result<(Option<Kind>, &'a [u8]), PieceError>;

/// The name or word at the front, which begins with a letter.
#[tactic(auto, unfolding(crate::specs::Reading::name_at), using(crate::proofs::NameLaws::names))]
fn name_at(alloc: Global, text: &[u8]) -> Result<(Kind, &[u8]), PieceError>
    requires { begins is_letter text.now ≡ true }
    ensures { spec.Gives (λ x. (x.0, x.1.now)) result (spec.name_at text.now) }
{
    let (name, rest) = run(Class::Name, text);
    if let Some(word) = word_of(name) {
        return Ok((Kind::Word(word), rest));
    }
    if is_left_out(name) {
        return Err(fault_at(6, text));
    }
    if name.len() > 255 {
        return Err(fault_at(1, text));
    }
    let name = Ident::new(List::from_slice(alloc, name)?);
    Ok((Kind::Name(name), rest))
}

#[tactic(auto, unfolding(crate::specs::Reading::other_at))]
fn other_at(text: &[u8]) -> Piece<'_>
    ensures { spec.Gives (λ x. (x.0, x.1.now)) result (spec.other_at text.now) }
{
    match mark_at(text) {
        Some((mark, rest)) => Ok((Some(Kind::Mark(mark)), rest)),
        None => Err(fault_at(1, text)),
    }
}

/// What a `/` begins; `body` is behind it.
#[tactic(auto, unfolding(crate::specs::Reading::slash_at))]
fn slash_at<'a>(text: &'a [u8], body: &'a [u8]) -> Piece<'a>
    ensures { spec.Gives (λ x. (x.0, x.1.now)) result (spec.slash_at text.now body.now) }
{
    match body {
        [b'/', rest @ ..] => {
            let (_comment, rest) = run(Class::Line, rest);
            Ok((None, rest))
        }
        [b'*', rest @ ..] => match close_at(rest) {
            Some(rest) => Ok((None, rest)),
            None => Err(fault_at(3, text)),
        },
        _ => other_at(text),
    }
}

/// What a letter, a digit, a quote or a `#` begins.
#[tactic(auto, unfolding(crate::specs::Reading::token_at))]
fn token_at<'a>(
    alloc: Global,
    fresh: bool,
    text: &'a [u8],
    b: u8,
    body: &'a [u8],
) -> Result<(Kind, &'a [u8]), PieceError>
    requires size { length body.now + 1 < 2 ^ 64 }
    requires front { text.now ≡ b ∷ body.now }
    ensures { spec.Gives (λ x. (x.0, x.1.now)) result (spec.token_at fresh text.now b body.now) }
{
    if Class::Letter.has(b) {
        return name_at(alloc, text);
    }
    if Class::Digit.has(b) {
        return number_at(text);
    }
    if b == b'\'' {
        return char_at(body.len() + 1, body);
    }
    if b == b'"' {
        let (bytes, rest) = string_at(alloc, body.len() + 1, body)?;
        return Ok((Kind::Str(bytes), rest));
    }
    hash_at(fresh, text, body)
}

/// Whether a token other than a mark begins so.
#[tactic(auto, unfolding(crate::specs::Reading::begins_token))]
fn begins_token(b: u8) -> bool
    ensures { result ≡ spec.begins_token b }
{
    Class::Name.has(b) || b == b'\'' || b == b'"' || b == b'#'
}

/// The piece at the front. `fresh`: only blanks stand before it in its line.
#[tactic(auto, unfolding(crate::specs::Reading::piece_at))]
pub fn piece_at(alloc: Global, fresh: bool, text: &[u8]) -> Piece<'_>
    ensures { spec.Gives (λ x. (x.0, x.1.now)) result (spec.piece_at fresh text.now) }
{
    let [b, rest @ ..] = text else {
        return Err(fault_at(1, text));
    };
    if Class::Space.has(*b) {
        return Ok((None, rest));
    }
    if begins_token(*b) {
        let (kind, rest) = token_at(alloc, fresh, text, *b, rest)?;
        return Ok((Some(kind), rest));
    }
    if *b == b'/' {
        return slash_at(text, rest);
    }
    other_at(text)
}
