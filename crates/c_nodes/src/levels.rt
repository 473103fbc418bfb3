//! What is answered where no counted part may be entered, and tests of more than one token.

ghost use Rattle.std.specs.Prelude.{◌≡◌};
ghost use Rattle.c_grammar.specs.declared.tokens.ParseError.TheVariants as errors;
ghost use Rattle.c_grammar.specs.Tokens.{Gives};
ghost use Rattle.c_grammar.specs.Reading as spec;

use c_ast::Abstract;
use c_grammar::begins::{begins_abstract, begins_either};
use c_grammar::either::Either;
use c_grammar::names::TypeNames;
use c_grammar::tokens::{ParseError, Read, Sign, deep_at, fault_at, next_is, next_is_name};
use c_lex::token::{Punct, Token};
use cm_base::List;
use std::alloc::Global;

/// Why no counted part can be entered here: its first token is nested too deeply, or it can't stand here.
pub fn deep_if(begins: bool, ts: &[Token]) -> ParseError
    ensures { result ≡ errors.Fault (spec.deep_if begins ts.now) }
{
    if begins { deep_at(ts) } else { fault_at(ts) }
}

/// An abstract declarator where no counted part may be entered.
pub fn no_nameless<'a>(alloc: Global, ts: &'a [Token]) -> Read<'a, Abstract>
    ensures { Gives (λ x. (x.0, x.1.now)) result (spec.no_nameless ts.now) }
{
    if begins_abstract(ts) {
        return Err(deep_at(ts));
    }
    Ok((Abstract::Plain(List::new(alloc), List::new(alloc)), ts))
}

/// A declarator or an abstract declarator where no counted part may be entered.
pub fn no_either<'a>(alloc: Global, names: &TypeNames, ts: &'a [Token]) -> Read<'a, Either>
    ensures { Gives (λ x. (x.0, x.1.now)) result (spec.no_either names.now ts.now) }
{
    if begins_either(names, ts) {
        return Err(deep_at(ts));
    }
    Ok((
        Either::Unnamed(Abstract::Plain(List::new(alloc), List::new(alloc))),
        ts,
    ))
}

/// Whether `(` and a name stand next.
pub fn opens_name(names: &TypeNames, ts: &[Token]) -> bool
    ensures { result ≡ spec.opens_name names.now ts.now }
{
    next_is(ts, Sign::Mark(Punct::ParenOpen)) && next_is_name(names, &ts[1..])
}

/// Whether no `}` stands next.
pub fn in_braces(ts: &[Token]) -> bool
    ensures { result ≡ spec.in_braces ts.now }
{
    !next_is(ts, Sign::Mark(Punct::BraceClose))
}
