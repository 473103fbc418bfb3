//! The parser.

ghost use Rattle.std.specs.Prelude.{◌≡◌, ℕ, List, Some, None, Err, IfOk};
ghost use Rattle.cm_base.specs.declared.place.Place as the_place;
ghost use Rattle.c_ast.specs.declared.stmt.External as tree;
ghost use Rattle.c_grammar.specs.Units.{Derives};
ghost use Rattle.c_grammar.specs.Nesting.{deep_unit};
ghost use Rattle.c_parse.specs.declared.parser.SyntaxFault.TheVariants as fault;
ghost use Rattle.c_parse.specs.Answer.{Answers, GivesFault, GivesUnit, place_left, read_whole, told_error};

use crate::units::unit;
use c_ast::Unit;
use c_grammar::laws::sound_law;
use c_grammar::tokens::{Fault, ParseError, fault_at};
use c_lex::token::Token;
use cm_base::Place;
use grammar_laws::laws::{complete_law, deep_law};
use std::alloc::Global;
use thiserror::Error;

/// Why no unit was read.
#[derive(Debug, Drop, Error)]
pub enum SyntaxFault {
    /// The first token that can't stand where it stands, as code 10, or that is nested more than [`MAX_NESTING`] deep, as
    /// code 11.
    #[error("{place:?}: E{code:02}")]
    At { code: u8, place: Place },
    #[error("no memory")]
    NoMemory,
}

/// How deep a token may be nested.
pub const MAX_NESTING: usize = 200;

/// The place of the token from which so many are left, or of the last one where none is.
fn place_of(tokens: &[Token], left: usize) -> Place
    ensures { result ≡ place_left left tokens.now }
{
    let behind = left.max(1);
    let before = tokens.len().saturating_sub(behind);
    match tokens.get(before) {
        Some(token) => token.place,
        None => Place {
            unit: 0,
            line: 1,
            col: 1,
        },
    }
}

/// Why no unit was read, with its place.
fn fault_of(tokens: &[Token], error: ParseError) -> SyntaxFault
    ensures { result ≡ told_error tokens.now error }
{
    match error {
        ParseError::Memory => SyntaxFault::NoMemory,
        ParseError::Fault(Fault::Syntax(left)) => SyntaxFault::At {
            code: 10,
            place: place_of(tokens, left),
        },
        ParseError::Fault(Fault::Deep(left)) => SyntaxFault::At {
            code: 11,
            place: place_of(tokens, left),
        },
    }
}

/// The unit that the tokens read as, or the fault of their reading.
#[tactic(auto, using(crate::proofs::AnswerLaws::answers))]
fn whole(alloc: Global, tokens: &[Token]) -> Result<Unit, SyntaxFault>
    ensures { Answers tokens.now result (read_whole tokens.now) }
{
    match unit(alloc, MAX_NESTING, tokens) {
        Err(error) => Err(fault_of(tokens, error)),
        Ok((found, rest)) => {
            if rest.is_empty() {
                return Ok(Unit { parts: found.parts });
            }
            Err(fault_of(tokens, fault_at(rest)))
        }
    }
}

/// The unit that the tokens derive, or the first fault.
pub fn parse(alloc: Global, tokens: &[Token]) -> Result<Unit, SyntaxFault>
    // What is answered is what the tokens read as, or the fault of their reading, unless memory runs out.
    ensures reads { Answers tokens.now result (read_whole tokens.now) }
    // A unit that is answered derives.
    ensures found { IfOk result (λ unit. Derives tokens.now unit.parts) }
    // A unit that the tokens derive is answered if no token of it is nested more than 200 deep, unless memory runs out.
    ensures only { (all : List tree.External) (d : Derives tokens.now all) → deep_unit d 200 ≡ None → GivesUnit result all }
    // Of any other unit that they derive the first token that is nested deeper is a fault of code 11. Here left is the number
    // of tokens from that one to the end.
    ensures deep { (all : List tree.External) (d : Derives tokens.now all) (left : ℕ) → deep_unit d 200 ≡ Some left → GivesFault result 11 (place_left left tokens.now) }
    // Code 10 comes only where the tokens derive no unit.
    ensures none { (place : the_place.Place) → result ≡ Err (fault.At 10 place) → (all : List tree.External) → Derives tokens.now all → ⊥ }
{
    sound_law();
    complete_law();
    deep_law();
    whole(alloc, tokens)
}
