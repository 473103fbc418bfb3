//! Declarations.

ghost use Rattle.c_grammar.specs.Tokens.{Gives};
ghost use Rattle.c_grammar.specs.Reading as spec;

use c_ast::{Attr, Decl, Declarator, Init, Initial, Spec};
use c_exprs::declarators::declarator;
use c_exprs::exprs::assign;
use c_exprs::types::specs;
use c_grammar::begins::{begins_initial, comma_more};
use c_grammar::names::TypeNames;
use c_grammar::tokens::{Read, Sign, expect, next_is};
use c_lex::token::{Punct, Token};
use c_nodes::attrs::{attrs, opt_comma};
use c_nodes::levels::deep_if;
use c_nodes::nodes::alone;
use cm_base::List;
use sqlite_items::Boxed;
use std::alloc::Global;

/// initial = assign | "{" initial { "," initial } [ "," ] "}"
#[cycle(initials)]
#[tactic(auto, using(c_nodes::proofs::LevelLaws::initials_rules), unfolding(c_grammar::specs::Reading::read_initial))]
pub fn initial<'a>(
    alloc: Global,
    names: &TypeNames,
    left: usize,
    ts: &'a [Token],
) -> Read<'a, Initial>
    ensures { Gives (λ x. (x.0, x.1.now)) result ((spec.levels names.now left).initials ts.now) }
{
    if left == 0 {
        return Err(deep_if(begins_initial(names, ts), ts));
    }
    let left = left - 1;
    if next_is(ts, Sign::Mark(Punct::BraceOpen)) {
        return braced_initial(alloc, names, left, ts);
    }
    let (value, rest) = assign(alloc, names, left, ts)?;
    Ok((Initial::Assign(value.into_inner()), rest))
}

/// "{" initial { "," initial } [ "," ] "}"
#[cycle(initials)]
#[tactic(auto, unfolding(c_grammar::specs::Reading::read_braced_initial))]
fn braced_initial<'a>(
    alloc: Global,
    names: &TypeNames,
    left: usize,
    ts: &'a [Token],
) -> Read<'a, Initial>
    ensures { Gives (λ x. (x.0, x.1.now)) result (spec.read_braced_initial names.now (spec.levels names.now left) ts.now) }
{
    let (place, rest) = expect(ts, Sign::Mark(Punct::BraceOpen))?;
    let (first, rest) = initial(alloc, names, left, rest)?;
    let (all, rest) = more_initials(alloc, names, left, alone(alloc, first)?, rest)?;
    let (_comma, rest) = opt_comma(rest)?;
    let (_close, rest) = expect(rest, Sign::Mark(Punct::BraceClose))?;
    Ok((Initial::Braces(place, all), rest))
}

/// "," initial
#[cycle(initials)]
#[tactic(auto, unfolding(c_grammar::specs::Reading::read_initial_item))]
fn initial_item<'a>(
    alloc: Global,
    names: &TypeNames,
    left: usize,
    so_far: List<Initial>,
    ts: &'a [Token],
) -> Read<'a, List<Initial>>
    ensures { Gives (λ x. (x.0, x.1.now)) result (spec.read_initial_item names.now (spec.levels names.now left) so_far ts.now) }
{
    let mut all = so_far;
    let (_comma, rest) = expect(ts, Sign::Mark(Punct::Comma))?;
    let (part, rest) = initial(alloc, names, left, rest)?;
    all.push(part)?;
    Ok((all, rest))
}

/// { "," initial }
#[cycle(initials)]
#[tactic(auto, using(c_nodes::proofs::LevelLaws::repeat_rules), unfolding(c_grammar::specs::Reading::read_more_initials))]
fn more_initials<'a>(
    alloc: Global,
    names: &TypeNames,
    left: usize,
    so_far: List<Initial>,
    ts: &'a [Token],
) -> Read<'a, List<Initial>>
    ensures { Gives (λ x. (x.0, x.1.now)) result (spec.read_more_initials names.now (spec.levels names.now left) so_far ts.now) }
{
    let mut all = so_far;
    let mut rest = ts;
    for _ in 0..ts.len() {
        if !comma_more(rest) {
            return Ok((all, rest));
        }
        let (more, after) = initial_item(alloc, names, left, all, rest)?;
        all = more;
        rest = after;
    }
    Ok((all, rest))
}

/// init = declarator { attr } [ "=" initial ]
#[tactic(auto, unfolding(c_grammar::specs::Reading::read_init))]
fn init<'a>(alloc: Global, names: &TypeNames, left: usize, ts: &'a [Token]) -> Read<'a, Init>
    ensures { Gives (λ x. (x.0, x.1.now)) result (spec.read_init names.now (spec.levels names.now left) ts.now) }
{
    let (declarator, rest) = declarator(alloc, names, left, ts)?;
    let (attrs, rest) = attrs(alloc, names, List::new(alloc), rest)?;
    init_end(alloc, names, left, declarator, attrs, rest)
}

/// [ "=" initial ], after its declarator and attributes.
#[tactic(auto, unfolding(c_grammar::specs::Reading::read_init_end))]
pub fn init_end<'a>(
    alloc: Global,
    names: &TypeNames,
    left: usize,
    declarator: Declarator,
    attrs: List<Attr>,
    ts: &'a [Token],
) -> Read<'a, Init>
    ensures { Gives (λ x. (x.0, x.1.now)) result (spec.read_init_end (spec.levels names.now left) declarator attrs ts.now) }
{
    if next_is(ts, Sign::Mark(Punct::Assign)) {
        return init_value(alloc, names, left, declarator, attrs, ts);
    }
    Ok((
        Init {
            declarator,
            attrs,
            value: None,
        },
        ts,
    ))
}

/// "=" initial, after its declarator and attributes.
#[tactic(auto, unfolding(c_grammar::specs::Reading::read_init_value))]
fn init_value<'a>(
    alloc: Global,
    names: &TypeNames,
    left: usize,
    declarator: Declarator,
    attrs: List<Attr>,
    ts: &'a [Token],
) -> Read<'a, Init>
    ensures { Gives (λ x. (x.0, x.1.now)) result (spec.read_init_value (spec.levels names.now left) declarator attrs ts.now) }
{
    let (_assign, rest) = expect(ts, Sign::Mark(Punct::Assign))?;
    let (value, rest) = initial(alloc, names, left, rest)?;
    Ok((
        Init {
            declarator,
            attrs,
            value: Some(Boxed::new(alloc, value)?),
        },
        rest,
    ))
}

/// "," init
#[tactic(auto, unfolding(c_grammar::specs::Reading::read_init_item))]
fn init_item<'a>(
    alloc: Global,
    names: &TypeNames,
    left: usize,
    so_far: List<Init>,
    ts: &'a [Token],
) -> Read<'a, List<Init>>
    ensures { Gives (λ x. (x.0, x.1.now)) result (spec.read_init_item names.now (spec.levels names.now left) so_far ts.now) }
{
    let mut all = so_far;
    let (_comma, rest) = expect(ts, Sign::Mark(Punct::Comma))?;
    let (part, rest) = init(alloc, names, left, rest)?;
    all.push(part)?;
    Ok((all, rest))
}

/// { "," init }
#[tactic(auto, using(c_nodes::proofs::LevelLaws::repeat_rules), unfolding(c_grammar::specs::Reading::read_more_inits))]
pub fn more_inits<'a>(
    alloc: Global,
    names: &TypeNames,
    left: usize,
    so_far: List<Init>,
    ts: &'a [Token],
) -> Read<'a, List<Init>>
    ensures { Gives (λ x. (x.0, x.1.now)) result (spec.read_more_inits names.now (spec.levels names.now left) so_far ts.now) }
{
    let mut all = so_far;
    let mut rest = ts;
    for _ in 0..ts.len() {
        if !next_is(rest, Sign::Mark(Punct::Comma)) {
            return Ok((all, rest));
        }
        let (more, after) = init_item(alloc, names, left, all, rest)?;
        all = more;
        rest = after;
    }
    Ok((all, rest))
}

/// decl = specs [ init { "," init } ] ";"
#[tactic(auto, unfolding(c_grammar::specs::Reading::read_decl))]
pub fn decl<'a>(alloc: Global, names: &TypeNames, left: usize, ts: &'a [Token]) -> Read<'a, Decl>
    ensures { Gives (λ x. (x.0, x.1.now)) result (spec.read_decl names.now (spec.levels names.now left) ts.now) }
{
    let (specs, rest) = specs(alloc, names, left, ts)?;
    if next_is(rest, Sign::Mark(Punct::Semicolon)) {
        let (_end, rest) = expect(rest, Sign::Mark(Punct::Semicolon))?;
        return Ok((
            Decl {
                specs,
                inits: List::new(alloc),
            },
            rest,
        ));
    }
    inits_decl(alloc, names, left, specs, rest)
}

/// init { "," init } ";", after its specifiers.
#[tactic(auto, unfolding(c_grammar::specs::Reading::read_inits_decl))]
fn inits_decl<'a>(
    alloc: Global,
    names: &TypeNames,
    left: usize,
    specs: List<Spec>,
    ts: &'a [Token],
) -> Read<'a, Decl>
    ensures { Gives (λ x. (x.0, x.1.now)) result (spec.read_inits_decl names.now (spec.levels names.now left) specs ts.now) }
{
    let (first, rest) = init(alloc, names, left, ts)?;
    let (inits, rest) = more_inits(alloc, names, left, alone(alloc, first)?, rest)?;
    let (_end, rest) = expect(rest, Sign::Mark(Punct::Semicolon))?;
    Ok((Decl { specs, inits }, rest))
}
