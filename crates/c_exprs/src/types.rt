//! Specifiers, and the types that they name.

ghost use Rattle.c_grammar.specs.Tokens.{Gives};
ghost use Rattle.c_grammar.specs.Reading as spec;

use crate::declarators::{declarator, nameless};
use crate::exprs::cond;
use c_ast::{Declarator, EnumSpec, Enumerator, Member, Name, Spec, StructSpec, TypeName};
use c_grammar::begins::{begins_spec, comma_more};
use c_grammar::names::TypeNames;
use c_grammar::operators::{has_spec_word, take_spec_word};
use c_grammar::tokens::{Read, Sign, expect, next_is, next_is_name, take_name, take_type};
use c_lex::token::{Keyword, Punct, Token};
use c_nodes::attrs::{attr, opt_comma};
use c_nodes::levels::deep_if;
use c_nodes::nodes::alone;
use cm_base::{List, Place};
use sqlite_items::Boxed;
use std::alloc::Global;

/// typename = specs abstract
#[cycle(syntax)]
#[tactic(auto, unfolding(c_grammar::specs::Reading::read_typename))]
pub fn typename<'a>(
    alloc: Global,
    names: &TypeNames,
    left: usize,
    ts: &'a [Token],
) -> Read<'a, Boxed<TypeName>>
    ensures { Gives (λ x. (x.0, x.1.now)) result (spec.read_typename names.now (spec.levels names.now left) ts.now) }
{
    let (specs, rest) = specs(alloc, names, left, ts)?;
    let (declarator, rest) = nameless(alloc, names, left, rest)?;
    let whole = TypeName { specs, declarator };
    Ok((Boxed::new(alloc, whole)?, rest))
}

/// specs = spec { spec }
#[cycle(syntax)]
#[tactic(auto, unfolding(c_grammar::specs::Reading::read_specs))]
pub fn specs<'a>(
    alloc: Global,
    names: &TypeNames,
    left: usize,
    ts: &'a [Token],
) -> Read<'a, List<Spec>>
    ensures { Gives (λ x. (x.0, x.1.now)) result (spec.read_specs names.now (spec.levels names.now left) ts.now) }
{
    let (first, rest) = spec(alloc, names, left, ts)?;
    more_specs(alloc, names, left, alone(alloc, first)?, rest)
}

/// spec, after others.
#[cycle(syntax)]
#[tactic(auto, unfolding(c_grammar::specs::Reading::read_spec_item))]
fn spec_item<'a>(
    alloc: Global,
    names: &TypeNames,
    left: usize,
    so_far: List<Spec>,
    ts: &'a [Token],
) -> Read<'a, List<Spec>>
    ensures { Gives (λ x. (x.0, x.1.now)) result (spec.read_spec_item names.now (spec.levels names.now left) so_far ts.now) }
{
    let mut all = so_far;
    let (part, rest) = spec(alloc, names, left, ts)?;
    all.push(part)?;
    Ok((all, rest))
}

/// { spec }
#[cycle(syntax)]
#[tactic(auto, using(c_nodes::proofs::LevelLaws::repeat_rules), unfolding(c_grammar::specs::Reading::read_more_specs))]
fn more_specs<'a>(
    alloc: Global,
    names: &TypeNames,
    left: usize,
    so_far: List<Spec>,
    ts: &'a [Token],
) -> Read<'a, List<Spec>>
    ensures { Gives (λ x. (x.0, x.1.now)) result (spec.read_more_specs names.now (spec.levels names.now left) so_far ts.now) }
{
    let mut all = so_far;
    let mut rest = ts;
    for _ in 0..ts.len() {
        if !begins_spec(names, rest) {
            return Ok((all, rest));
        }
        let (more, after) = spec_item(alloc, names, left, all, rest)?;
        all = more;
        rest = after;
    }
    Ok((all, rest))
}

/// spec = "typedef" | "extern" | "static" | "inline" | "const" | "volatile"
/// | "void" | "char" | "short" | "int" | "long" | "signed" | "unsigned"
/// | TYPENAME | struct | enum | attr
#[cycle(syntax)]
#[tactic(auto, unfolding(c_grammar::specs::Reading::read_spec))]
fn spec<'a>(alloc: Global, names: &TypeNames, left: usize, ts: &'a [Token]) -> Read<'a, Spec>
    ensures { Gives (λ x. (x.0, x.1.now)) result (spec.read_spec names.now (spec.levels names.now left) ts.now) }
{
    if has_spec_word(ts) {
        let (word, rest) = take_spec_word(ts)?;
        return Ok((Spec::Word(word.0, word.1), rest));
    }
    if next_is(ts, Sign::Word(Keyword::Struct)) {
        let (found, rest) = struct_spec(alloc, names, left, ts)?;
        return Ok((Spec::Struct(found), rest));
    }
    if next_is(ts, Sign::Word(Keyword::Enum)) {
        let (found, rest) = enum_spec(alloc, names, left, ts)?;
        return Ok((Spec::Enum(found), rest));
    }
    if next_is(ts, Sign::Word(Keyword::Attribute)) {
        let (found, rest) = attr(alloc, names, ts)?;
        return Ok((Spec::Attr(found), rest));
    }
    let (name, rest) = take_type(alloc, names, ts)?;
    Ok((Spec::TypeName(name), rest))
}

/// struct = "struct" [ NAME ] "{" member { member } "}" | "struct" NAME
#[cycle(syntax)]
#[tactic(auto, using(c_nodes::proofs::LevelLaws::structs_rules), unfolding(c_grammar::specs::Reading::read_structs))]
fn struct_spec<'a>(
    alloc: Global,
    names: &TypeNames,
    left: usize,
    ts: &'a [Token],
) -> Read<'a, Boxed<StructSpec>>
    ensures { Gives (λ x. (x.0, x.1.now)) result ((spec.levels names.now left).structs ts.now) }
{
    if left == 0 {
        return Err(deep_if(next_is(ts, Sign::Word(Keyword::Struct)), ts));
    }
    let left = left - 1;
    let (place, rest) = expect(ts, Sign::Word(Keyword::Struct))?;
    if next_is_name(names, rest) {
        return struct_named(alloc, names, left, place, rest);
    }
    let (all, rest) = members(alloc, names, left, rest)?;
    let whole = StructSpec::Body(place, None, all);
    Ok((Boxed::new(alloc, whole)?, rest))
}

/// NAME "{" member { member } "}" | NAME, after `struct`.
#[cycle(syntax)]
#[tactic(auto, unfolding(c_grammar::specs::Reading::read_struct_named))]
fn struct_named<'a>(
    alloc: Global,
    names: &TypeNames,
    left: usize,
    place: Place,
    ts: &'a [Token],
) -> Read<'a, Boxed<StructSpec>>
    ensures { Gives (λ x. (x.0, x.1.now)) result (spec.read_struct_named names.now (spec.levels names.now left) place ts.now) }
{
    let (tag, rest) = take_name(alloc, names, ts)?;
    if next_is(rest, Sign::Mark(Punct::BraceOpen)) {
        let (all, rest) = members(alloc, names, left, rest)?;
        let whole = StructSpec::Body(place, Some(tag), all);
        return Ok((Boxed::new(alloc, whole)?, rest));
    }
    Ok((Boxed::new(alloc, StructSpec::Tag(place, tag))?, rest))
}

/// "{" member { member } "}"
#[cycle(syntax)]
#[tactic(auto, unfolding(c_grammar::specs::Reading::read_members))]
fn members<'a>(
    alloc: Global,
    names: &TypeNames,
    left: usize,
    ts: &'a [Token],
) -> Read<'a, List<Member>>
    ensures { Gives (λ x. (x.0, x.1.now)) result (spec.read_members names.now (spec.levels names.now left) ts.now) }
{
    let (_open, rest) = expect(ts, Sign::Mark(Punct::BraceOpen))?;
    let (first, rest) = member(alloc, names, left, rest)?;
    let (all, rest) = more_members(alloc, names, left, alone(alloc, first)?, rest)?;
    let (_close, rest) = expect(rest, Sign::Mark(Punct::BraceClose))?;
    Ok((all, rest))
}

/// member, after others.
#[cycle(syntax)]
#[tactic(auto, unfolding(c_grammar::specs::Reading::read_member_item))]
fn member_item<'a>(
    alloc: Global,
    names: &TypeNames,
    left: usize,
    so_far: List<Member>,
    ts: &'a [Token],
) -> Read<'a, List<Member>>
    ensures { Gives (λ x. (x.0, x.1.now)) result (spec.read_member_item names.now (spec.levels names.now left) so_far ts.now) }
{
    let mut all = so_far;
    let (part, rest) = member(alloc, names, left, ts)?;
    all.push(part)?;
    Ok((all, rest))
}

/// { member }
#[cycle(syntax)]
#[tactic(auto, using(c_nodes::proofs::LevelLaws::repeat_rules), unfolding(c_grammar::specs::Reading::read_more_members))]
fn more_members<'a>(
    alloc: Global,
    names: &TypeNames,
    left: usize,
    so_far: List<Member>,
    ts: &'a [Token],
) -> Read<'a, List<Member>>
    ensures { Gives (λ x. (x.0, x.1.now)) result (spec.read_more_members names.now (spec.levels names.now left) so_far ts.now) }
{
    let mut all = so_far;
    let mut rest = ts;
    for _ in 0..ts.len() {
        if !begins_spec(names, rest) {
            return Ok((all, rest));
        }
        let (more, after) = member_item(alloc, names, left, all, rest)?;
        all = more;
        rest = after;
    }
    Ok((all, rest))
}

/// member = specs declarator { "," declarator } ";"
#[cycle(syntax)]
#[tactic(auto, unfolding(c_grammar::specs::Reading::read_member))]
fn member<'a>(alloc: Global, names: &TypeNames, left: usize, ts: &'a [Token]) -> Read<'a, Member>
    ensures { Gives (λ x. (x.0, x.1.now)) result (spec.read_member names.now (spec.levels names.now left) ts.now) }
{
    let (specs, rest) = specs(alloc, names, left, ts)?;
    let (first, rest) = declarator(alloc, names, left, rest)?;
    let (all, rest) = more_declarators(alloc, names, left, alone(alloc, first)?, rest)?;
    let (_end, rest) = expect(rest, Sign::Mark(Punct::Semicolon))?;
    Ok((Member::Declares(specs, all), rest))
}

/// "," declarator
#[cycle(syntax)]
#[tactic(auto, unfolding(c_grammar::specs::Reading::read_declarator_item))]
fn declarator_item<'a>(
    alloc: Global,
    names: &TypeNames,
    left: usize,
    so_far: List<Declarator>,
    ts: &'a [Token],
) -> Read<'a, List<Declarator>>
    ensures { Gives (λ x. (x.0, x.1.now)) result (spec.read_declarator_item names.now (spec.levels names.now left) so_far ts.now) }
{
    let mut all = so_far;
    let (_comma, rest) = expect(ts, Sign::Mark(Punct::Comma))?;
    let (part, rest) = declarator(alloc, names, left, rest)?;
    all.push(part)?;
    Ok((all, rest))
}

/// { "," declarator }
#[cycle(syntax)]
#[tactic(auto, using(c_nodes::proofs::LevelLaws::repeat_rules), unfolding(c_grammar::specs::Reading::read_more_declarators))]
fn more_declarators<'a>(
    alloc: Global,
    names: &TypeNames,
    left: usize,
    so_far: List<Declarator>,
    ts: &'a [Token],
) -> Read<'a, List<Declarator>>
    ensures { Gives (λ x. (x.0, x.1.now)) result (spec.read_more_declarators names.now (spec.levels names.now left) so_far ts.now) }
{
    let mut all = so_far;
    let mut rest = ts;
    for _ in 0..ts.len() {
        if !next_is(rest, Sign::Mark(Punct::Comma)) {
            return Ok((all, rest));
        }
        let (more, after) = declarator_item(alloc, names, left, all, rest)?;
        all = more;
        rest = after;
    }
    Ok((all, rest))
}

/// enum = "enum" [ NAME ] "{" enumr { "," enumr } [ "," ] "}" | "enum" NAME
#[cycle(syntax)]
#[tactic(auto, unfolding(c_grammar::specs::Reading::read_enums))]
fn enum_spec<'a>(
    alloc: Global,
    names: &TypeNames,
    left: usize,
    ts: &'a [Token],
) -> Read<'a, Boxed<EnumSpec>>
    ensures { Gives (λ x. (x.0, x.1.now)) result (spec.read_enums names.now (spec.levels names.now left) ts.now) }
{
    let (place, rest) = expect(ts, Sign::Word(Keyword::Enum))?;
    if next_is_name(names, rest) {
        return enum_named(alloc, names, left, place, rest);
    }
    let (all, rest) = enumrs(alloc, names, left, rest)?;
    let whole = EnumSpec::Body(place, None, all);
    Ok((Boxed::new(alloc, whole)?, rest))
}

/// NAME "{" enumr { "," enumr } [ "," ] "}" | NAME, after `enum`.
#[cycle(syntax)]
#[tactic(auto, unfolding(c_grammar::specs::Reading::read_enum_named))]
fn enum_named<'a>(
    alloc: Global,
    names: &TypeNames,
    left: usize,
    place: Place,
    ts: &'a [Token],
) -> Read<'a, Boxed<EnumSpec>>
    ensures { Gives (λ x. (x.0, x.1.now)) result (spec.read_enum_named names.now (spec.levels names.now left) place ts.now) }
{
    let (tag, rest) = take_name(alloc, names, ts)?;
    if next_is(rest, Sign::Mark(Punct::BraceOpen)) {
        let (all, rest) = enumrs(alloc, names, left, rest)?;
        let whole = EnumSpec::Body(place, Some(tag), all);
        return Ok((Boxed::new(alloc, whole)?, rest));
    }
    Ok((Boxed::new(alloc, EnumSpec::Tag(place, tag))?, rest))
}

/// "{" enumr { "," enumr } [ "," ] "}"
#[cycle(syntax)]
#[tactic(auto, unfolding(c_grammar::specs::Reading::read_enumrs))]
fn enumrs<'a>(
    alloc: Global,
    names: &TypeNames,
    left: usize,
    ts: &'a [Token],
) -> Read<'a, List<Enumerator>>
    ensures { Gives (λ x. (x.0, x.1.now)) result (spec.read_enumrs names.now (spec.levels names.now left) ts.now) }
{
    let (_open, rest) = expect(ts, Sign::Mark(Punct::BraceOpen))?;
    let (first, rest) = enumr(alloc, names, left, rest)?;
    let (all, rest) = more_enumrs(alloc, names, left, alone(alloc, first)?, rest)?;
    let (_comma, rest) = opt_comma(rest)?;
    let (_close, rest) = expect(rest, Sign::Mark(Punct::BraceClose))?;
    Ok((all, rest))
}

/// "," enumr
#[cycle(syntax)]
#[tactic(auto, unfolding(c_grammar::specs::Reading::read_enumr_item))]
fn enumr_item<'a>(
    alloc: Global,
    names: &TypeNames,
    left: usize,
    so_far: List<Enumerator>,
    ts: &'a [Token],
) -> Read<'a, List<Enumerator>>
    ensures { Gives (λ x. (x.0, x.1.now)) result (spec.read_enumr_item names.now (spec.levels names.now left) so_far ts.now) }
{
    let mut all = so_far;
    let (_comma, rest) = expect(ts, Sign::Mark(Punct::Comma))?;
    let (part, rest) = enumr(alloc, names, left, rest)?;
    all.push(part)?;
    Ok((all, rest))
}

/// { "," enumr }
#[cycle(syntax)]
#[tactic(auto, using(c_nodes::proofs::LevelLaws::repeat_rules), unfolding(c_grammar::specs::Reading::read_more_enumrs))]
fn more_enumrs<'a>(
    alloc: Global,
    names: &TypeNames,
    left: usize,
    so_far: List<Enumerator>,
    ts: &'a [Token],
) -> Read<'a, List<Enumerator>>
    ensures { Gives (λ x. (x.0, x.1.now)) result (spec.read_more_enumrs names.now (spec.levels names.now left) so_far ts.now) }
{
    let mut all = so_far;
    let mut rest = ts;
    for _ in 0..ts.len() {
        if !comma_more(rest) {
            return Ok((all, rest));
        }
        let (more, after) = enumr_item(alloc, names, left, all, rest)?;
        all = more;
        rest = after;
    }
    Ok((all, rest))
}

/// enumr = NAME [ "=" cond ]
#[cycle(syntax)]
#[tactic(auto, unfolding(c_grammar::specs::Reading::read_enumr))]
fn enumr<'a>(alloc: Global, names: &TypeNames, left: usize, ts: &'a [Token]) -> Read<'a, Enumerator>
    ensures { Gives (λ x. (x.0, x.1.now)) result (spec.read_enumr names.now (spec.levels names.now left) ts.now) }
{
    let (name, rest) = take_name(alloc, names, ts)?;
    if next_is(rest, Sign::Mark(Punct::Assign)) {
        return enumr_value(alloc, names, left, name, rest);
    }
    Ok((Enumerator { name, value: None }, rest))
}

/// "=" cond, after its NAME.
#[cycle(syntax)]
#[tactic(auto, unfolding(c_grammar::specs::Reading::read_enumr_value))]
fn enumr_value<'a>(
    alloc: Global,
    names: &TypeNames,
    left: usize,
    name: Name,
    ts: &'a [Token],
) -> Read<'a, Enumerator>
    ensures { Gives (λ x. (x.0, x.1.now)) result (spec.read_enumr_value names.now (spec.levels names.now left) name ts.now) }
{
    let (_assign, rest) = expect(ts, Sign::Mark(Punct::Assign))?;
    let (value, rest) = cond(alloc, names, left, rest)?;
    Ok((
        Enumerator {
            name,
            value: Some(value),
        },
        rest,
    ))
}
