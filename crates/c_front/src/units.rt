//! Sources, each as its typed tree.

ghost use Rattle.std.specs.Prelude.{◌≡◌, ◌≤◌, length};
ghost use Rattle.c_front.specs.Front.{Says, TokensSay};
ghost use Rattle.c_front.specs.Answers.{Refuses, Told, UnitsTold};

use crate::sources::{BuildFault, Source};
use c_lex::token::Token;
use c_lex::{LexFault, MAX_SOURCE, lex};
use c_parse::{SyntaxFault, parse};
use c_rows::{TypeFault, at};
use c_tree::TUnit;
use c_unit::check;
use cm_base::{List, NoMemory, Place, Refusal, Shared};
use std::alloc::Global;

/// The typed tree of a source's tokens, or their first fault.
#[tactic(auto, using(crate::proofs::AnswerLaws::typed_tree, crate::proofs::AnswerLaws::syntax_fault))]
fn typed(alloc: Global, tokens: &[Token]) -> Result<Shared<TUnit>, TypeFault>
    ensures { Told (TokensSay tokens.now) result }
{
    match parse(alloc, tokens) {
        Ok(unit) => check(alloc, &unit),
        Err(SyntaxFault::At { code, place }) => Err(at(code, place)),
        Err(SyntaxFault::NoMemory) => Err(TypeFault::NoMemory),
    }
}

/// The typed tree of a source of this number, or its first fault.
#[tactic(auto, using(crate::proofs::AnswerLaws::long_text, crate::proofs::AnswerLaws::from_tokens, crate::proofs::AnswerLaws::lexical_fault))]
fn unit_of(alloc: Global, number: u32, text: &[u8]) -> Result<Shared<TUnit>, TypeFault>
    ensures { Told (Says number text.now) result }
{
    if text.len() > MAX_SOURCE {
        let start = Place {
            unit: number,
            line: 1,
            col: 1,
        };
        return Err(at(5, start));
    }
    match lex(alloc, number, text) {
        Ok(tokens) => typed(alloc, tokens.as_slice()),
        Err(LexFault::At { code, place }) => Err(at(code, place)),
        Err(LexFault::NoMemory) => Err(TypeFault::NoMemory),
    }
}

/// A fault of a source with its file.
fn refused(alloc: Global, source: &Source, fault: TypeFault) -> BuildFault
    ensures { Refuses source.now fault result }
{
    match fault {
        TypeFault::At { code, place } => match source.name.try_clone(alloc) {
            Ok(file) => BuildFault::Refused(Refusal::At {
                code,
                file,
                line: place.line,
                col: place.col,
            }),
            Err(NoMemory) => BuildFault::NoMemory,
        },
        TypeFault::NoMemory => BuildFault::NoMemory,
    }
}

/// The typed trees of sources, or the first fault.
#[tactic(auto, using(crate::proofs::SaidLaws::reads_first, crate::proofs::SaidLaws::reads_next, crate::proofs::SaidLaws::reads_fault, crate::proofs::SaidLaws::reads_all))]
pub fn units_of(alloc: Global, sources: &[Source]) -> Result<List<Shared<TUnit>>, BuildFault>
    requires { length sources.now ≤ 32 }
    ensures { UnitsTold sources.now result }
{
    let mut units = List::new(alloc);
    for i in 0..sources.len() {
        let source = &sources[i];
        match unit_of(alloc, i as u32, source.bytes.as_slice()) {
            Ok(unit) => units.push(unit)?,
            Err(fault) => return Err(refused(alloc, source, fault)),
        }
    }
    Ok(units)
}
