//! The lexer.

ghost use Rattle.std.specs.Prelude.{◌≡◌, ◌++◌, ◌+◌, ◌<◌, ◌≤◌, ◌^◌, length, IfOk, IfErr, OnOk, OnErr, List, ℕ};
ghost use Rattle.c_lex.specs.declared.token.Token as the;
ghost use Rattle.cm_base.specs.declared.place.Place as the_place;
ghost use Rattle.c_lex.specs.Tokens.{token_at, HasTokens, FirstFault};
ghost use Rattle.c_lex.specs.Classes.{is_space};
ghost use Rattle.c_lex.specs.Spot.{after};
ghost use Rattle.c_lex.specs.Reading.{Step, Stuck, EndsAt, AreTokens, IfAt, front, back};
ghost use Rattle.c_lex.specs.Answer.{IsFault, GivesTokens, GivesFault};

use crate::class::Class;
use crate::fault::{Fault, PieceError};
use crate::pieces::piece_at;
use crate::runs::run;
use crate::spot::Spot;
use crate::token::{Kind, Token};
use cm_base::{List, NoMemory, Place};
use std::alloc::Global;
use thiserror::Error;

/// Why a text has no tokens.
#[derive(Debug, Drop, Error)]
pub enum LexFault {
    /// The first fault of the text.
    #[error("{place:?}: E{code:02}")]
    At { code: u8, place: Place },
    #[error("no memory")]
    NoMemory,
}

/// How many bytes a source may have.
pub const MAX_SOURCE: usize = 1_048_576;

/// The piece at the front of the text, which stands at `spot`: its token, if it is one, where what is behind it stands, and that.
#[tactic(auto, using(crate::proofs::StepLaws::steps))]
fn step(alloc: Global, spot: Spot, text: &[u8]) -> Result<(Option<Kind>, Spot, &[u8]), PieceError>
    requires some { 0 < length text.now }
    requires line { spot.line + length text.now < 2 ^ 32 }
    requires col { spot.col + length text.now < 2 ^ 32 }
    ensures ok { IfOk result (λ x. Step spot text.now x.0 x.1 x.2.now) }
    ensures err { IfErr result (IfAt (Stuck spot text.now)) }
{
    let (kind, rest) = piece_at(alloc, spot.fresh, text)?;
    let used = text.len() - rest.len();
    Ok((kind, spot.after(&text[..used]), rest))
}

/// Adds the token that a piece at `spot` is, if it is one.
fn put(tokens: &mut List<Token>, unit: u32, spot: Spot, kind: Option<Kind>) -> Result<(), NoMemory>
    ensures ok { OnOk result (tokens.new ≡ tokens.old ++ token_at unit spot kind) }
    ensures err { OnErr result (tokens.new ≡ tokens.old) }
{
    match kind {
        Some(kind) => tokens.push(Token {
            kind,
            place: spot.place(unit),
        }),
        None => Ok(()),
    }
}

/// Where what is behind the blanks and line ends at the front stands, and that.
#[tactic(auto, using(crate::proofs::RunLaws::runs))]
fn skip(spot: Spot, text: &[u8]) -> (Spot, &[u8])
    requires line { spot.line + length text.now < 2 ^ 32 }
    requires col { spot.col + length text.now < 2 ^ 32 }
    ensures spot { result.0 ≡ after spot (front is_space text.now) }
    ensures rest { result.1.now ≡ back is_space text.now }
{
    let (spaces, rest) = run(Class::Space, text);
    (spot.after(spaces), rest)
}

/// The tokens of a text that isn't too long.
fn split(alloc: Global, unit: u32, text: &[u8]) -> Result<List<Token>, PieceError>
    requires { length text.now ≤ 1048576 }
    ensures ok { IfOk result (λ tokens. AreTokens unit text.now tokens) }
    ensures err { IfErr result (IfAt (EndsAt text.now)) }
{
    let mut tokens = List::new(alloc);
    let (mut spot, mut rest) = skip(Spot::start(), text);
    while !rest.is_empty() {
        let (kind, after, behind) = step(alloc, spot, rest)?;
        put(&mut tokens, unit, spot, kind)?;
        let next = skip(after, behind);
        spot = next.0;
        rest = next.1;
    }
    Ok(tokens)
}

/// The fault, with its place.
fn placed(unit: u32, text: &[u8], fault: Fault) -> LexFault
    requires short { length text.now ≤ 1048576 }
    requires ends { EndsAt text.now fault }
    ensures { IsFault unit text.now result }
{
    let before = text.len() - fault.left;
    LexFault::At {
        code: fault.code,
        place: Spot::start().after(&text[..before]).place(unit),
    }
}

/// The tokens of a source, or its first fault. `unit` is its number among the sources. A source of more than
/// [`MAX_SOURCE`] bytes is a fault at its first byte.
pub fn lex(alloc: Global, unit: u32, bytes: &[u8]) -> Result<List<Token>, LexFault>
    requires { length bytes.now < 2 ^ 32 }
    // What is answered are the tokens of the text, or its first fault.
    ensures found { IfOk result (HasTokens unit bytes.now) }
    ensures fault { IfErr result (IsFault unit bytes.now) }
    // A text that has tokens is answered with them, and one that has a fault with that, unless memory runs out.
    ensures only_tokens { (tokens : List the.Token) → HasTokens unit bytes.now tokens → GivesTokens result tokens }
    ensures only_fault { (code : ℕ) (place : the_place.Place) → FirstFault unit bytes.now code place → GivesFault result code place }
{
    if bytes.len() > MAX_SOURCE {
        return Err(LexFault::At {
            code: 5,
            place: Spot::start().place(unit),
        });
    }
    match split(alloc, unit, bytes) {
        Ok(tokens) => Ok(tokens),
        Err(PieceError::NoMemory) => Err(LexFault::NoMemory),
        Err(PieceError::At(fault)) => Err(placed(unit, bytes, fault)),
    }
}
