//! Declarators, with a name or without one.

ghost use Rattle.c_grammar.specs.Tokens.{Gives};
ghost use Rattle.c_grammar.specs.Reading as spec;

use crate::exprs::cond;
use crate::types::specs;
use c_ast::{Abstract, Declarator, Expr, Param, Params, Star, Suffix};
use c_grammar::begins::{
    begins_declarator, begins_expr, begins_spec, begins_suffix, opens_group, void_params,
};
use c_grammar::either::Either;
use c_grammar::names::TypeNames;
use c_grammar::tokens::{Read, Sign, expect, next_is, next_is_name, take_name};
use c_lex::token::{Keyword, Punct, Token};
use c_nodes::attrs::stars;
use c_nodes::levels::{deep_if, no_either, no_nameless, opens_name};
use c_nodes::nodes::{abstract_around, alone, around, either_around, param_of};
use cm_base::List;
use sqlite_items::Boxed;
use std::alloc::Global;

/// declarator = stars ( NAME | "(" declarator ")" ) { suffix }
#[cycle(syntax)]
#[tactic(auto, using(c_nodes::proofs::LevelLaws::declarator_rules), unfolding(c_grammar::specs::Reading::read_declarator))]
pub fn declarator<'a>(
    alloc: Global,
    names: &TypeNames,
    left: usize,
    ts: &'a [Token],
) -> Read<'a, Declarator>
    ensures { Gives (λ x. (x.0, x.1.now)) result ((spec.levels names.now left).declarator ts.now) }
{
    if left == 0 {
        return Err(deep_if(begins_declarator(names, ts), ts));
    }
    let left = left - 1;
    let (before, rest) = stars(alloc, names, ts)?;
    if next_is_name(names, rest) {
        return plain_declarator(alloc, names, left, before, rest);
    }
    group_declarator(alloc, names, left, before, rest)
}

/// NAME { suffix }, after its stars.
#[cycle(syntax)]
#[tactic(auto, unfolding(c_grammar::specs::Reading::read_plain_declarator))]
fn plain_declarator<'a>(
    alloc: Global,
    names: &TypeNames,
    left: usize,
    before: List<Star>,
    ts: &'a [Token],
) -> Read<'a, Declarator>
    ensures { Gives (λ x. (x.0, x.1.now)) result (spec.read_plain_declarator names.now (spec.levels names.now left) before ts.now) }
{
    let (name, rest) = take_name(alloc, names, ts)?;
    let (after, rest) = suffixes(alloc, names, left, List::new(alloc), rest)?;
    Ok((
        Declarator {
            name,
            form: Abstract::Plain(before, after),
        },
        rest,
    ))
}

/// "(" declarator ")" { suffix }, after its stars.
#[cycle(syntax)]
#[tactic(auto, unfolding(c_grammar::specs::Reading::read_group_declarator))]
fn group_declarator<'a>(
    alloc: Global,
    names: &TypeNames,
    left: usize,
    before: List<Star>,
    ts: &'a [Token],
) -> Read<'a, Declarator>
    ensures { Gives (λ x. (x.0, x.1.now)) result (spec.read_group_declarator names.now (spec.levels names.now left) before ts.now) }
{
    let (place, rest) = expect(ts, Sign::Mark(Punct::ParenOpen))?;
    let (inner, rest) = declarator(alloc, names, left, rest)?;
    let (_close, rest) = expect(rest, Sign::Mark(Punct::ParenClose))?;
    let (after, rest) = suffixes(alloc, names, left, List::new(alloc), rest)?;
    Ok((around(alloc, before, place, inner, after)?, rest))
}

/// suffix, after others.
#[cycle(syntax)]
#[tactic(auto, unfolding(c_grammar::specs::Reading::read_suffix_item))]
fn suffix_item<'a>(
    alloc: Global,
    names: &TypeNames,
    left: usize,
    so_far: List<Suffix>,
    ts: &'a [Token],
) -> Read<'a, List<Suffix>>
    ensures { Gives (λ x. (x.0, x.1.now)) result (spec.read_suffix_item names.now (spec.levels names.now left) so_far ts.now) }
{
    let mut all = so_far;
    let (part, rest) = suffix(alloc, names, left, ts)?;
    all.push(part)?;
    Ok((all, rest))
}

/// { suffix }
#[cycle(syntax)]
#[tactic(auto, using(c_nodes::proofs::LevelLaws::repeat_rules), unfolding(c_grammar::specs::Reading::read_suffixes))]
fn suffixes<'a>(
    alloc: Global,
    names: &TypeNames,
    left: usize,
    so_far: List<Suffix>,
    ts: &'a [Token],
) -> Read<'a, List<Suffix>>
    ensures { Gives (λ x. (x.0, x.1.now)) result (spec.read_suffixes names.now (spec.levels names.now left) so_far ts.now) }
{
    let mut all = so_far;
    let mut rest = ts;
    for _ in 0..ts.len() {
        if !begins_suffix(rest) {
            return Ok((all, rest));
        }
        let (more, after) = suffix_item(alloc, names, left, all, rest)?;
        all = more;
        rest = after;
    }
    Ok((all, rest))
}

/// suffix = "[" [ cond ] "]" | "(" [ params ] ")"
#[cycle(syntax)]
#[tactic(auto, unfolding(c_grammar::specs::Reading::read_suffix))]
fn suffix<'a>(alloc: Global, names: &TypeNames, left: usize, ts: &'a [Token]) -> Read<'a, Suffix>
    ensures { Gives (λ x. (x.0, x.1.now)) result (spec.read_suffix names.now (spec.levels names.now left) ts.now) }
{
    if next_is(ts, Sign::Mark(Punct::BracketOpen)) {
        return array_suffix(alloc, names, left, ts);
    }
    params_suffix(alloc, names, left, ts)
}

/// "[" [ cond ] "]"
#[cycle(syntax)]
#[tactic(auto, unfolding(c_grammar::specs::Reading::read_array_suffix))]
fn array_suffix<'a>(
    alloc: Global,
    names: &TypeNames,
    left: usize,
    ts: &'a [Token],
) -> Read<'a, Suffix>
    ensures { Gives (λ x. (x.0, x.1.now)) result (spec.read_array_suffix names.now (spec.levels names.now left) ts.now) }
{
    let (place, rest) = expect(ts, Sign::Mark(Punct::BracketOpen))?;
    let (length, rest) = opt_cond(alloc, names, left, rest)?;
    let (_close, rest) = expect(rest, Sign::Mark(Punct::BracketClose))?;
    Ok((Suffix::Array(place, length), rest))
}

/// [ cond ]
#[cycle(syntax)]
#[tactic(auto, unfolding(c_grammar::specs::Reading::read_opt_cond))]
fn opt_cond<'a>(
    alloc: Global,
    names: &TypeNames,
    left: usize,
    ts: &'a [Token],
) -> Read<'a, Option<Boxed<Expr>>>
    ensures { Gives (λ x. (x.0, x.1.now)) result (spec.read_opt_cond names.now (spec.levels names.now left) ts.now) }
{
    if begins_expr(names, ts) {
        let (found, rest) = cond(alloc, names, left, ts)?;
        return Ok((Some(found), rest));
    }
    Ok((None, ts))
}

/// "(" [ params ] ")"
#[cycle(syntax)]
#[tactic(auto, unfolding(c_grammar::specs::Reading::read_params_suffix))]
fn params_suffix<'a>(
    alloc: Global,
    names: &TypeNames,
    left: usize,
    ts: &'a [Token],
) -> Read<'a, Suffix>
    ensures { Gives (λ x. (x.0, x.1.now)) result (spec.read_params_suffix names.now (spec.levels names.now left) ts.now) }
{
    let (place, rest) = expect(ts, Sign::Mark(Punct::ParenOpen))?;
    let (taken, rest) = params(alloc, names, left, rest)?;
    let (_close, rest) = expect(rest, Sign::Mark(Punct::ParenClose))?;
    Ok((Suffix::Params(place, taken), rest))
}

/// [ params ], where params = "void" | param { "," param }
#[cycle(syntax)]
#[tactic(auto, unfolding(c_grammar::specs::Reading::read_params))]
fn params<'a>(alloc: Global, names: &TypeNames, left: usize, ts: &'a [Token]) -> Read<'a, Params>
    ensures { Gives (λ x. (x.0, x.1.now)) result (spec.read_params names.now (spec.levels names.now left) ts.now) }
{
    if void_params(ts) {
        let (place, rest) = expect(ts, Sign::Word(Keyword::Void))?;
        return Ok((Params::Void(place), rest));
    }
    if begins_spec(names, ts) {
        return some_params(alloc, names, left, ts);
    }
    Ok((Params::Empty, ts))
}

/// param { "," param }
#[cycle(syntax)]
#[tactic(auto, unfolding(c_grammar::specs::Reading::read_some_params))]
fn some_params<'a>(
    alloc: Global,
    names: &TypeNames,
    left: usize,
    ts: &'a [Token],
) -> Read<'a, Params>
    ensures { Gives (λ x. (x.0, x.1.now)) result (spec.read_some_params names.now (spec.levels names.now left) ts.now) }
{
    let (first, rest) = param(alloc, names, left, ts)?;
    let (all, rest) = more_params(alloc, names, left, alone(alloc, first)?, rest)?;
    Ok((Params::List(all), rest))
}

/// "," param
#[cycle(syntax)]
#[tactic(auto, unfolding(c_grammar::specs::Reading::read_param_item))]
fn param_item<'a>(
    alloc: Global,
    names: &TypeNames,
    left: usize,
    so_far: List<Param>,
    ts: &'a [Token],
) -> Read<'a, List<Param>>
    ensures { Gives (λ x. (x.0, x.1.now)) result (spec.read_param_item names.now (spec.levels names.now left) so_far ts.now) }
{
    let mut all = so_far;
    let (_comma, rest) = expect(ts, Sign::Mark(Punct::Comma))?;
    let (part, rest) = param(alloc, names, left, rest)?;
    all.push(part)?;
    Ok((all, rest))
}

/// { "," param }
#[cycle(syntax)]
#[tactic(auto, using(c_nodes::proofs::LevelLaws::repeat_rules), unfolding(c_grammar::specs::Reading::read_more_params))]
fn more_params<'a>(
    alloc: Global,
    names: &TypeNames,
    left: usize,
    so_far: List<Param>,
    ts: &'a [Token],
) -> Read<'a, List<Param>>
    ensures { Gives (λ x. (x.0, x.1.now)) result (spec.read_more_params names.now (spec.levels names.now left) so_far ts.now) }
{
    let mut all = so_far;
    let mut rest = ts;
    for _ in 0..ts.len() {
        if !next_is(rest, Sign::Mark(Punct::Comma)) {
            return Ok((all, rest));
        }
        let (more, after) = param_item(alloc, names, left, all, rest)?;
        all = more;
        rest = after;
    }
    Ok((all, rest))
}

/// param = specs ( declarator | abstract )
#[cycle(syntax)]
#[tactic(auto, unfolding(c_grammar::specs::Reading::read_param))]
fn param<'a>(alloc: Global, names: &TypeNames, left: usize, ts: &'a [Token]) -> Read<'a, Param>
    ensures { Gives (λ x. (x.0, x.1.now)) result (spec.read_param names.now (spec.levels names.now left) ts.now) }
{
    let (specs, rest) = specs(alloc, names, left, ts)?;
    let (found, rest) = either(alloc, names, left, rest)?;
    Ok((param_of(specs, found), rest))
}

/// declarator | abstract
#[cycle(syntax)]
#[tactic(auto, using(c_nodes::proofs::LevelLaws::either_rules), unfolding(c_grammar::specs::Reading::read_either))]
fn either<'a>(alloc: Global, names: &TypeNames, left: usize, ts: &'a [Token]) -> Read<'a, Either>
    ensures { Gives (λ x. (x.0, x.1.now)) result ((spec.levels names.now left).either ts.now) }
{
    if left == 0 {
        return no_either(alloc, names, ts);
    }
    let left = left - 1;
    let (before, rest) = stars(alloc, names, ts)?;
    after_stars(alloc, names, left, before, rest)
}

/// declarator | abstract, after the stars.
#[cycle(syntax)]
#[tactic(auto, unfolding(c_grammar::specs::Reading::read_after_stars))]
fn after_stars<'a>(
    alloc: Global,
    names: &TypeNames,
    left: usize,
    before: List<Star>,
    ts: &'a [Token],
) -> Read<'a, Either>
    ensures { Gives (λ x. (x.0, x.1.now)) result (spec.read_after_stars names.now (spec.levels names.now left) before ts.now) }
{
    if next_is_name(names, ts) {
        return plain_either(alloc, names, left, before, ts);
    }
    if opens_name(names, ts) {
        return named_either(alloc, names, left, before, ts);
    }
    if opens_group(ts) {
        return group_either(alloc, names, left, before, ts);
    }
    bare_either(alloc, names, left, before, ts)
}

/// NAME { suffix }, after its stars.
#[cycle(syntax)]
#[tactic(auto, unfolding(c_grammar::specs::Reading::read_plain_either))]
fn plain_either<'a>(
    alloc: Global,
    names: &TypeNames,
    left: usize,
    before: List<Star>,
    ts: &'a [Token],
) -> Read<'a, Either>
    ensures { Gives (λ x. (x.0, x.1.now)) result (spec.read_plain_either names.now (spec.levels names.now left) before ts.now) }
{
    let (name, rest) = take_name(alloc, names, ts)?;
    let (after, rest) = suffixes(alloc, names, left, List::new(alloc), rest)?;
    Ok((
        Either::Named(Declarator {
            name,
            form: Abstract::Plain(before, after),
        }),
        rest,
    ))
}

/// "(" declarator ")" { suffix }, after its stars.
#[cycle(syntax)]
#[tactic(auto, unfolding(c_grammar::specs::Reading::read_named_either))]
fn named_either<'a>(
    alloc: Global,
    names: &TypeNames,
    left: usize,
    before: List<Star>,
    ts: &'a [Token],
) -> Read<'a, Either>
    ensures { Gives (λ x. (x.0, x.1.now)) result (spec.read_named_either names.now (spec.levels names.now left) before ts.now) }
{
    let (place, rest) = expect(ts, Sign::Mark(Punct::ParenOpen))?;
    let (inner, rest) = declarator(alloc, names, left, rest)?;
    let (_close, rest) = expect(rest, Sign::Mark(Punct::ParenClose))?;
    let (after, rest) = suffixes(alloc, names, left, List::new(alloc), rest)?;
    Ok((
        Either::Named(around(alloc, before, place, inner, after)?),
        rest,
    ))
}

/// "(" ( declarator | abstract ) ")" { suffix }, after its stars.
#[cycle(syntax)]
#[tactic(auto, unfolding(c_grammar::specs::Reading::read_group_either))]
fn group_either<'a>(
    alloc: Global,
    names: &TypeNames,
    left: usize,
    before: List<Star>,
    ts: &'a [Token],
) -> Read<'a, Either>
    ensures { Gives (λ x. (x.0, x.1.now)) result (spec.read_group_either names.now (spec.levels names.now left) before ts.now) }
{
    let (place, rest) = expect(ts, Sign::Mark(Punct::ParenOpen))?;
    let (inner, rest) = either(alloc, names, left, rest)?;
    let (_close, rest) = expect(rest, Sign::Mark(Punct::ParenClose))?;
    let (after, rest) = suffixes(alloc, names, left, List::new(alloc), rest)?;
    Ok((either_around(alloc, before, place, inner, after)?, rest))
}

/// { suffix }, after its stars.
#[cycle(syntax)]
#[tactic(auto, unfolding(c_grammar::specs::Reading::read_bare_either))]
fn bare_either<'a>(
    alloc: Global,
    names: &TypeNames,
    left: usize,
    before: List<Star>,
    ts: &'a [Token],
) -> Read<'a, Either>
    ensures { Gives (λ x. (x.0, x.1.now)) result (spec.read_bare_either names.now (spec.levels names.now left) before ts.now) }
{
    let (after, rest) = suffixes(alloc, names, left, List::new(alloc), ts)?;
    Ok((Either::Unnamed(Abstract::Plain(before, after)), rest))
}

/// abstract = stars [ "(" abstract ")" ] { suffix }
#[cycle(syntax)]
#[tactic(auto, using(c_nodes::proofs::LevelLaws::nameless_rules), unfolding(c_grammar::specs::Reading::read_nameless))]
pub fn nameless<'a>(
    alloc: Global,
    names: &TypeNames,
    left: usize,
    ts: &'a [Token],
) -> Read<'a, Abstract>
    ensures { Gives (λ x. (x.0, x.1.now)) result ((spec.levels names.now left).nameless ts.now) }
{
    if left == 0 {
        return no_nameless(alloc, ts);
    }
    let left = left - 1;
    let (before, rest) = stars(alloc, names, ts)?;
    if opens_group(rest) {
        return group_abstract(alloc, names, left, before, rest);
    }
    let (after, rest) = suffixes(alloc, names, left, List::new(alloc), rest)?;
    Ok((Abstract::Plain(before, after), rest))
}

/// "(" abstract ")" { suffix }, after its stars.
#[cycle(syntax)]
#[tactic(auto, unfolding(c_grammar::specs::Reading::read_group_abstract))]
fn group_abstract<'a>(
    alloc: Global,
    names: &TypeNames,
    left: usize,
    before: List<Star>,
    ts: &'a [Token],
) -> Read<'a, Abstract>
    ensures { Gives (λ x. (x.0, x.1.now)) result (spec.read_group_abstract names.now (spec.levels names.now left) before ts.now) }
{
    let (place, rest) = expect(ts, Sign::Mark(Punct::ParenOpen))?;
    let (inner, rest) = nameless(alloc, names, left, rest)?;
    let (_close, rest) = expect(rest, Sign::Mark(Punct::ParenClose))?;
    let (after, rest) = suffixes(alloc, names, left, List::new(alloc), rest)?;
    Ok((abstract_around(alloc, before, place, inner, after)?, rest))
}
