//! Units.

ghost use Rattle.c_grammar.specs.Tokens.{Gives};
ghost use Rattle.c_grammar.specs.Reading as spec;

use crate::names::{add_declared, add_header};
use c_ast::{Attr, Decl, Declarator, External, Function, Spec};
use c_exprs::declarators::declarator;
use c_exprs::types::specs;
use c_grammar::names::TypeNames;
use c_grammar::tokens::{Read, Sign, expect, has_include, next_is, take_include};
use c_lex::token::{Punct, Token};
use c_nodes::attrs::attrs;
use c_nodes::nodes::alone;
use c_stmts::decls::{init_end, more_inits};
use c_stmts::stmts::block;
use cm_base::List;
use sqlite_items::Boxed;
use std::alloc::Global;

/// The names of types and the parts of a unit so far.
#[derive(Drop)]
pub struct SoFar {
    pub names: TypeNames,
    pub parts: List<External>,
}

/// block, after its specifiers, declarator and attributes.
#[tactic(auto, unfolding(c_grammar::specs::Reading::read_function_body))]
fn function_body<'a>(
    alloc: Global,
    names: &TypeNames,
    left: usize,
    specs: List<Spec>,
    declarator: Declarator,
    attrs: List<Attr>,
    ts: &'a [Token],
) -> Read<'a, External>
    ensures { Gives (λ x. (x.0, x.1.now)) result (spec.read_function_body names.now (spec.levels names.now left) specs declarator attrs ts.now) }
{
    let (body, rest) = block(alloc, names, left, ts)?;
    let whole = Function {
        specs,
        declarator,
        attrs,
        body,
    };
    Ok((External::Function(Boxed::new(alloc, whole)?), rest))
}

/// [ "=" initial ] { "," init } ";", after the first declarator and its attributes.
#[tactic(auto, unfolding(c_grammar::specs::Reading::read_other_inits))]
fn other_inits<'a>(
    alloc: Global,
    names: &TypeNames,
    left: usize,
    specs: List<Spec>,
    declarator: Declarator,
    attrs: List<Attr>,
    ts: &'a [Token],
) -> Read<'a, External>
    ensures { Gives (λ x. (x.0, x.1.now)) result (spec.read_other_inits names.now (spec.levels names.now left) specs declarator attrs ts.now) }
{
    let (first, rest) = init_end(alloc, names, left, declarator, attrs, ts)?;
    let (inits, rest) = more_inits(alloc, names, left, alone(alloc, first)?, rest)?;
    let (_end, rest) = expect(rest, Sign::Mark(Punct::Semicolon))?;
    Ok((External::Decl(Decl { specs, inits }), rest))
}

/// block | [ "=" initial ] { "," init } ";", after the first declarator and its attributes.
#[tactic(auto, unfolding(c_grammar::specs::Reading::read_after_attrs))]
fn after_attrs<'a>(
    alloc: Global,
    names: &TypeNames,
    left: usize,
    specs: List<Spec>,
    declarator: Declarator,
    attrs: List<Attr>,
    ts: &'a [Token],
) -> Read<'a, External>
    ensures { Gives (λ x. (x.0, x.1.now)) result (spec.read_after_attrs names.now (spec.levels names.now left) specs declarator attrs ts.now) }
{
    if next_is(ts, Sign::Mark(Punct::BraceOpen)) {
        return function_body(alloc, names, left, specs, declarator, attrs, ts);
    }
    other_inits(alloc, names, left, specs, declarator, attrs, ts)
}

/// declarator { attr } and what follows, after the specifiers.
#[tactic(auto, unfolding(c_grammar::specs::Reading::read_declared))]
fn declares<'a>(
    alloc: Global,
    names: &TypeNames,
    left: usize,
    specs: List<Spec>,
    ts: &'a [Token],
) -> Read<'a, External>
    ensures { Gives (λ x. (x.0, x.1.now)) result (spec.read_declared names.now (spec.levels names.now left) specs ts.now) }
{
    let (declarator, rest) = declarator(alloc, names, left, ts)?;
    let (attrs, rest) = attrs(alloc, names, List::new(alloc), rest)?;
    after_attrs(alloc, names, left, specs, declarator, attrs, rest)
}

/// ";", after the specifiers.
#[tactic(auto, unfolding(c_grammar::specs::Reading::read_bare))]
fn bare<'a>(alloc: Global, specs: List<Spec>, ts: &'a [Token]) -> Read<'a, External>
    ensures { Gives (λ x. (x.0, x.1.now)) result (spec.read_bare specs ts.now) }
{
    let (_end, rest) = expect(ts, Sign::Mark(Punct::Semicolon))?;
    Ok((
        External::Decl(Decl {
            specs,
            inits: List::new(alloc),
        }),
        rest,
    ))
}

/// ";" | declarator { attr } and what follows, after the specifiers.
#[tactic(auto, unfolding(c_grammar::specs::Reading::read_after_specs))]
fn after_specs<'a>(
    alloc: Global,
    names: &TypeNames,
    left: usize,
    specs: List<Spec>,
    ts: &'a [Token],
) -> Read<'a, External>
    ensures { Gives (λ x. (x.0, x.1.now)) result (spec.read_after_specs names.now (spec.levels names.now left) specs ts.now) }
{
    if next_is(ts, Sign::Mark(Punct::Semicolon)) {
        return bare(alloc, specs, ts);
    }
    declares(alloc, names, left, specs, ts)
}

/// decl | function, where function = specs declarator { attr } block
#[tactic(auto, unfolding(c_grammar::specs::Reading::read_external))]
fn external<'a>(
    alloc: Global,
    names: &TypeNames,
    left: usize,
    ts: &'a [Token],
) -> Read<'a, External>
    ensures { Gives (λ x. (x.0, x.1.now)) result (spec.read_external names.now (spec.levels names.now left) ts.now) }
{
    let (specs, rest) = specs(alloc, names, left, ts)?;
    after_specs(alloc, names, left, specs, rest)
}

/// INCLUDE, after other parts of a unit.
#[tactic(auto, unfolding(c_grammar::specs::Reading::read_include))]
fn include<'a>(alloc: Global, so_far: SoFar, ts: &'a [Token]) -> Read<'a, SoFar>
    ensures { Gives (λ x. ((x.0.names, x.0.parts), x.1.now)) result (spec.read_include (so_far.names, so_far.parts) ts.now) }
{
    let (header, rest) = take_include(ts)?;
    let SoFar {
        mut names,
        mut parts,
    } = so_far;
    add_header(&mut names, header.1, alloc)?;
    parts.push(External::Include(header.0, header.1))?;
    Ok((SoFar { names, parts }, rest))
}

/// decl | function, after other parts of a unit.
#[tactic(auto, unfolding(c_grammar::specs::Reading::read_no_include))]
fn no_include<'a>(alloc: Global, left: usize, so_far: SoFar, ts: &'a [Token]) -> Read<'a, SoFar>
    ensures { Gives (λ x. ((x.0.names, x.0.parts), x.1.now)) result (spec.read_no_include left (so_far.names, so_far.parts) ts.now) }
{
    let SoFar {
        mut names,
        mut parts,
    } = so_far;
    let (part, rest) = external(alloc, &names, left, ts)?;
    add_declared(&mut names, &part, alloc)?;
    parts.push(part)?;
    Ok((SoFar { names, parts }, rest))
}

/// INCLUDE | decl | function, after other parts of a unit.
#[tactic(auto, unfolding(c_grammar::specs::Reading::read_part_of_unit))]
fn part_of_unit<'a>(alloc: Global, left: usize, so_far: SoFar, ts: &'a [Token]) -> Read<'a, SoFar>
    ensures { Gives (λ x. ((x.0.names, x.0.parts), x.1.now)) result (spec.read_part_of_unit left (so_far.names, so_far.parts) ts.now) }
{
    if has_include(ts) {
        return include(alloc, so_far, ts);
    }
    no_include(alloc, left, so_far, ts)
}

/// unit = { INCLUDE | decl | function }
#[tactic(auto, using(c_nodes::proofs::LevelLaws::repeat_rules), unfolding(c_grammar::specs::Reading::read_unit))]
pub fn unit<'a>(alloc: Global, left: usize, ts: &'a [Token]) -> Read<'a, SoFar>
    ensures { Gives (λ x. ((x.0.names, x.0.parts), x.1.now)) result (spec.read_unit left ts.now) }
{
    let mut all = SoFar {
        names: TypeNames::new(alloc),
        parts: List::new(alloc),
    };
    let mut rest = ts;
    for _ in 0..ts.len() {
        if rest.is_empty() {
            return Ok((all, rest));
        }
        let (more, after) = part_of_unit(alloc, left, all, rest)?;
        all = more;
        rest = after;
    }
    Ok((all, rest))
}
