//! Comments and includes.

ghost use Rattle.std.specs.Prelude.{◌≡◌, ◌+◌, ◌≤◌, length, drop, true, false, MatchOption, Some, None};
ghost use Rattle.c_lex.specs.Tokens.{ends_line};
ghost use Rattle.c_lex.specs.Reading as spec;

use crate::class::Class;
use crate::fault::{PieceError, fault_at};
use crate::runs::{run, strip};
use crate::token::{Header, Kind};

/// What is behind a `*/`, if one stands here.
fn closed(text: &[u8]) -> Option<&[u8]>
    ensures { MatchOption result (spec.closes_here text.now ≡ false) (λ r. (spec.closes_here text.now ≡ true) × (r.now ≡ drop 2 text.now)) }
{
    match text {
        [a, b, rest @ ..] => {
            if *a == b'*' && *b == b'/' {
                Some(rest)
            } else {
                None
            }
        }
        _ => None,
    }
}

/// What is behind the first `*/`.
#[tactic(auto, using(crate::proofs::Closing::closing))]
pub fn close_at(text: &[u8]) -> Option<&[u8]>
    ensures { MatchOption result (spec.close_at text.now ≡ None) (λ r. spec.close_at text.now ≡ Some r.now) }
{
    for i in 0..text.len() {
        if let Some(rest) = closed(&text[i..]) {
            return Some(rest);
        }
    }
    None
}

/// Whether an include may end here.
fn ends_line(text: &[u8]) -> bool
    ensures { result ≡ ends_line text.now }
{
    match text {
        [] => true,
        [a] => *a == b'\n',
        [a, b, ..] => *a == b'\n' || *a == b'/' && *b == b'/',
    }
}

#[tactic(auto, unfolding(crate::specs::Reading::header_at))]
fn header_at(text: &[u8]) -> Option<(Header, &[u8])>
    ensures { MatchOption result (spec.header_at text.now ≡ None) (λ x. spec.header_at text.now ≡ Some (x.0, x.1.now)) }
{
    if let Some(rest) = strip(text, b"<stdint.h>") {
        return Some((Header::StdInt, rest));
    }
    match strip(text, b"<arm_cmse.h>") {
        Some(rest) => Some((Header::ArmCmse, rest)),
        None => None,
    }
}

/// The header that is named behind a `#`, and what is behind its name.
#[tactic(auto, unfolding(crate::specs::Reading::include_at))]
fn include_at(body: &[u8]) -> Option<(Header, &[u8])>
    ensures { MatchOption result (spec.include_at body.now ≡ None) (λ x. spec.include_at body.now ≡ Some (x.0, x.1.now)) }
{
    let (_blanks, rest) = run(Class::Blank, body);
    let rest = strip(rest, b"include")?;
    let (_blanks, rest) = run(Class::Blank, rest);
    let (header, rest) = header_at(rest)?;
    let (_blanks, end) = run(Class::Blank, rest);
    if !ends_line(end) {
        return None;
    }
    Some((header, rest))
}

/// What a `#` begins; `body` is behind it, and `fresh` says that only blanks stand before it in its line.
#[tactic(auto, unfolding(crate::specs::Reading::hash_at))]
pub fn hash_at<'a>(
    fresh: bool,
    text: &'a [u8],
    body: &'a [u8],
) -> Result<(Kind, &'a [u8]), PieceError>
    ensures { spec.Gives (λ x. (x.0, x.1.now)) result (spec.hash_at fresh text.now body.now) }
{
    if fresh {
        if let Some((header, rest)) = include_at(body) {
            return Ok((Kind::Include(header), rest));
        }
    }
    Err(fault_at(4, text))
}
