//! Attributes, and what stands before a declarator's name.

ghost use Rattle.c_grammar.specs.Tokens.{Gives};
ghost use Rattle.c_grammar.specs.Reading as spec;

use crate::nodes::alone;
use c_ast::{Attr, Name, One, Star};
use c_grammar::begins::begins_star;
use c_grammar::names::TypeNames;
use c_grammar::tokens::{Read, Sign, expect, next_is, take_name, take_string};
use c_lex::token::{Keyword, Punct, Token};
use cm_base::List;
use std::alloc::Global;

/// NAME "(" STRING ")", after its NAME.
#[tactic(auto, unfolding(c_grammar::specs::Reading::read_one_with))]
fn one_with<'a>(alloc: Global, names: &TypeNames, name: Name, ts: &'a [Token]) -> Read<'a, One>
    ensures { Gives (λ x. (x.0, x.1.now)) result (spec.read_one_with names.now name ts.now) }
{
    let (_open, rest) = expect(ts, Sign::Mark(Punct::ParenOpen))?;
    let (text, rest) = take_string(alloc, rest)?;
    let (_close, rest) = expect(rest, Sign::Mark(Punct::ParenClose))?;
    Ok((One::With(name, text.1), rest))
}

/// one = NAME [ "(" STRING ")" ]
#[tactic(auto, unfolding(c_grammar::specs::Reading::read_one))]
fn one<'a>(alloc: Global, names: &TypeNames, ts: &'a [Token]) -> Read<'a, One>
    ensures { Gives (λ x. (x.0, x.1.now)) result (spec.read_one names.now ts.now) }
{
    let (name, rest) = take_name(alloc, names, ts)?;
    if next_is(rest, Sign::Mark(Punct::ParenOpen)) {
        return one_with(alloc, names, name, rest);
    }
    Ok((One::Plain(name), rest))
}

/// "," one
#[tactic(auto, unfolding(c_grammar::specs::Reading::read_one_item))]
fn one_item<'a>(
    alloc: Global,
    names: &TypeNames,
    so_far: List<One>,
    ts: &'a [Token],
) -> Read<'a, List<One>>
    ensures { Gives (λ x. (x.0, x.1.now)) result (spec.read_one_item names.now so_far ts.now) }
{
    let mut all = so_far;
    let (_comma, rest) = expect(ts, Sign::Mark(Punct::Comma))?;
    let (part, rest) = one(alloc, names, rest)?;
    all.push(part)?;
    Ok((all, rest))
}

/// { "," one }
#[tactic(auto, using(crate::proofs::LevelLaws::repeat_rules), unfolding(c_grammar::specs::Reading::read_more_ones))]
fn more_ones<'a>(
    alloc: Global,
    names: &TypeNames,
    so_far: List<One>,
    ts: &'a [Token],
) -> Read<'a, List<One>>
    ensures { Gives (λ x. (x.0, x.1.now)) result (spec.read_more_ones names.now so_far ts.now) }
{
    let mut all = so_far;
    let mut rest = ts;
    for _ in 0..ts.len() {
        if !next_is(rest, Sign::Mark(Punct::Comma)) {
            return Ok((all, rest));
        }
        let (more, after) = one_item(alloc, names, all, rest)?;
        all = more;
        rest = after;
    }
    Ok((all, rest))
}

/// attr = "__attribute__" "(" "(" one { "," one } ")" ")"
#[tactic(auto, unfolding(c_grammar::specs::Reading::read_attr))]
pub fn attr<'a>(alloc: Global, names: &TypeNames, ts: &'a [Token]) -> Read<'a, Attr>
    ensures { Gives (λ x. (x.0, x.1.now)) result (spec.read_attr names.now ts.now) }
{
    let (place, rest) = expect(ts, Sign::Word(Keyword::Attribute))?;
    let (_open, rest) = expect(rest, Sign::Mark(Punct::ParenOpen))?;
    let (_open, rest) = expect(rest, Sign::Mark(Punct::ParenOpen))?;
    let (first, rest) = one(alloc, names, rest)?;
    let (list, rest) = more_ones(alloc, names, alone(alloc, first)?, rest)?;
    let (_close, rest) = expect(rest, Sign::Mark(Punct::ParenClose))?;
    let (_close, rest) = expect(rest, Sign::Mark(Punct::ParenClose))?;
    Ok((Attr { place, list }, rest))
}

/// attr, after others.
#[tactic(auto, unfolding(c_grammar::specs::Reading::read_attr_item))]
fn attr_item<'a>(
    alloc: Global,
    names: &TypeNames,
    so_far: List<Attr>,
    ts: &'a [Token],
) -> Read<'a, List<Attr>>
    ensures { Gives (λ x. (x.0, x.1.now)) result (spec.read_attr_item names.now so_far ts.now) }
{
    let mut all = so_far;
    let (part, rest) = attr(alloc, names, ts)?;
    all.push(part)?;
    Ok((all, rest))
}

/// { attr }
#[tactic(auto, using(crate::proofs::LevelLaws::repeat_rules), unfolding(c_grammar::specs::Reading::read_attrs))]
pub fn attrs<'a>(
    alloc: Global,
    names: &TypeNames,
    so_far: List<Attr>,
    ts: &'a [Token],
) -> Read<'a, List<Attr>>
    ensures { Gives (λ x. (x.0, x.1.now)) result (spec.read_attrs names.now so_far ts.now) }
{
    let mut all = so_far;
    let mut rest = ts;
    for _ in 0..ts.len() {
        if !next_is(rest, Sign::Word(Keyword::Attribute)) {
            return Ok((all, rest));
        }
        let (more, after) = attr_item(alloc, names, all, rest)?;
        all = more;
        rest = after;
    }
    Ok((all, rest))
}

/// attr, before the first "*".
#[tactic(auto, unfolding(c_grammar::specs::Reading::read_lead_item))]
fn lead_item<'a>(
    alloc: Global,
    names: &TypeNames,
    so_far: List<Star>,
    ts: &'a [Token],
) -> Read<'a, List<Star>>
    ensures { Gives (λ x. (x.0, x.1.now)) result (spec.read_lead_item names.now so_far ts.now) }
{
    let mut all = so_far;
    let (part, rest) = attr(alloc, names, ts)?;
    all.push(Star::Attr(part))?;
    Ok((all, rest))
}

/// { attr }, before the first "*".
#[tactic(auto, using(crate::proofs::LevelLaws::repeat_rules), unfolding(c_grammar::specs::Reading::read_lead_attrs))]
fn lead_attrs<'a>(
    alloc: Global,
    names: &TypeNames,
    so_far: List<Star>,
    ts: &'a [Token],
) -> Read<'a, List<Star>>
    ensures { Gives (λ x. (x.0, x.1.now)) result (spec.read_lead_attrs names.now so_far ts.now) }
{
    let mut all = so_far;
    let mut rest = ts;
    for _ in 0..ts.len() {
        if !next_is(rest, Sign::Word(Keyword::Attribute)) {
            return Ok((all, rest));
        }
        let (more, after) = lead_item(alloc, names, all, rest)?;
        all = more;
        rest = after;
    }
    Ok((all, rest))
}

/// "*" | "const" | "volatile" | attr
#[tactic(auto, unfolding(c_grammar::specs::Reading::read_star))]
fn star<'a>(alloc: Global, names: &TypeNames, ts: &'a [Token]) -> Read<'a, Star>
    ensures { Gives (λ x. (x.0, x.1.now)) result (spec.read_star names.now ts.now) }
{
    if next_is(ts, Sign::Mark(Punct::Star)) {
        let (place, rest) = expect(ts, Sign::Mark(Punct::Star))?;
        return Ok((Star::Star(place), rest));
    }
    if next_is(ts, Sign::Word(Keyword::Const)) {
        let (place, rest) = expect(ts, Sign::Word(Keyword::Const))?;
        return Ok((Star::Const(place), rest));
    }
    if next_is(ts, Sign::Word(Keyword::Volatile)) {
        let (place, rest) = expect(ts, Sign::Word(Keyword::Volatile))?;
        return Ok((Star::Volatile(place), rest));
    }
    let (attr, rest) = attr(alloc, names, ts)?;
    Ok((Star::Attr(attr), rest))
}

/// One of the stars, after others.
#[tactic(auto, unfolding(c_grammar::specs::Reading::read_star_item))]
fn star_item<'a>(
    alloc: Global,
    names: &TypeNames,
    so_far: List<Star>,
    ts: &'a [Token],
) -> Read<'a, List<Star>>
    ensures { Gives (λ x. (x.0, x.1.now)) result (spec.read_star_item names.now so_far ts.now) }
{
    let mut all = so_far;
    let (part, rest) = star(alloc, names, ts)?;
    all.push(part)?;
    Ok((all, rest))
}

/// { "*" | "const" | "volatile" | attr }
#[tactic(auto, using(crate::proofs::LevelLaws::repeat_rules), unfolding(c_grammar::specs::Reading::read_more_stars))]
fn more_stars<'a>(
    alloc: Global,
    names: &TypeNames,
    so_far: List<Star>,
    ts: &'a [Token],
) -> Read<'a, List<Star>>
    ensures { Gives (λ x. (x.0, x.1.now)) result (spec.read_more_stars names.now so_far ts.now) }
{
    let mut all = so_far;
    let mut rest = ts;
    for _ in 0..ts.len() {
        if !begins_star(rest) {
            return Ok((all, rest));
        }
        let (more, after) = star_item(alloc, names, all, rest)?;
        all = more;
        rest = after;
    }
    Ok((all, rest))
}

/// The first "*" of the stars, and those after it.
#[tactic(auto, unfolding(c_grammar::specs::Reading::read_some_stars))]
fn some_stars<'a>(
    alloc: Global,
    names: &TypeNames,
    so_far: List<Star>,
    ts: &'a [Token],
) -> Read<'a, List<Star>>
    ensures { Gives (λ x. (x.0, x.1.now)) result (spec.read_some_stars names.now so_far ts.now) }
{
    let mut all = so_far;
    let (place, rest) = expect(ts, Sign::Mark(Punct::Star))?;
    all.push(Star::Star(place))?;
    more_stars(alloc, names, all, rest)
}

/// stars = { "*" | "const" | "volatile" | attr }, where `const` and `volatile` follow a `*`.
#[tactic(auto, unfolding(c_grammar::specs::Reading::read_stars))]
pub fn stars<'a>(alloc: Global, names: &TypeNames, ts: &'a [Token]) -> Read<'a, List<Star>>
    ensures { Gives (λ x. (x.0, x.1.now)) result (spec.read_stars names.now ts.now) }
{
    let (lead, rest) = lead_attrs(alloc, names, List::new(alloc), ts)?;
    if next_is(rest, Sign::Mark(Punct::Star)) {
        return some_stars(alloc, names, lead, rest);
    }
    Ok((lead, rest))
}

/// [ "," ]
#[tactic(auto, unfolding(c_grammar::specs::Reading::read_opt_comma))]
pub fn opt_comma<'a>(ts: &'a [Token]) -> Read<'a, bool>
    ensures { Gives (λ x. (x.0, x.1.now)) result (spec.read_opt_comma ts.now) }
{
    if next_is(ts, Sign::Mark(Punct::Comma)) {
        let (_place, rest) = expect(ts, Sign::Mark(Punct::Comma))?;
        return Ok((true, rest));
    }
    Ok((false, ts))
}
