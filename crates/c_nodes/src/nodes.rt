//! Trees, each made of its parts.

ghost use Rattle.std.specs.Prelude.{◌≡◌, [], ◌∷◌, IfOk};
ghost use Rattle.c_ast.specs.declared.expr.Abstract.TheVariants as abstracts;
ghost use Rattle.c_grammar.specs.Grammar as grammar;
ghost use Rattle.c_grammar.specs.Reading as spec;

use c_ast::{Abstract, Access, Declarator, Expr, Link, Next, Param, Spec, Star, Suffix};
use c_grammar::either::Either;
use cm_base::{List, NoMemory, Place};
use sqlite_items::Boxed;
use std::alloc::{AllocError, Global};

/// The list of one part.
pub fn alone<T: Drop>(alloc: Global, part: T) -> Result<List<T>, NoMemory>
    ensures { IfOk result (λ all. all ≡ part ∷ []) }
{
    let mut all = List::new(alloc);
    all.push(part)?;
    Ok(all)
}

/// The expressions joined by `,`, or the first one where it stands alone.
#[tactic(auto, using(crate::proofs::Chains::chains))]
pub fn commas(
    alloc: Global,
    first: Boxed<Expr>,
    more: List<Next>,
) -> Result<Boxed<Expr>, AllocError>
    ensures { IfOk result (λ e. e ≡ grammar.commas first more) }
{
    if more.is_empty() {
        return Ok(first);
    }
    Boxed::new(alloc, Expr::Comma(first, more))
}

/// An expression and what is done to it, or the expression alone.
#[tactic(auto, using(crate::proofs::Chains::chains))]
pub fn accessed(
    alloc: Global,
    first: Boxed<Expr>,
    more: List<Access>,
) -> Result<Boxed<Expr>, AllocError>
    ensures { IfOk result (λ e. e ≡ grammar.accessed first more) }
{
    if more.is_empty() {
        return Ok(first);
    }
    Boxed::new(alloc, Expr::Postfix(first, more))
}

/// The first operand and those joined to it, or the first one alone.
#[tactic(auto, using(crate::proofs::Chains::chains))]
pub fn joined(
    alloc: Global,
    first: Boxed<Expr>,
    more: List<Link>,
) -> Result<Boxed<Expr>, AllocError>
    ensures { IfOk result (λ e. e ≡ grammar.joined first more) }
{
    if more.is_empty() {
        return Ok(first);
    }
    Boxed::new(alloc, Expr::Binary(first, more))
}

/// The stars, the declarator in parentheses and the suffixes as an abstract declarator.
pub fn abstract_around(
    alloc: Global,
    before: List<Star>,
    place: Place,
    inner: Abstract,
    after: List<Suffix>,
) -> Result<Abstract, AllocError>
    ensures { IfOk result (λ it. it ≡ abstracts.Group before place inner after) }
{
    Ok(Abstract::Group(before, place, Boxed::new(alloc, inner)?, after))
}

/// The stars, the declarator in parentheses and the suffixes as a declarator of the same name.
pub fn around(
    alloc: Global,
    before: List<Star>,
    place: Place,
    inner: Declarator,
    after: List<Suffix>,
) -> Result<Declarator, AllocError>
    ensures { IfOk result (λ it. it ≡ record { name = inner.name; form = abstracts.Group before place inner.form after }) }
{
    let Declarator { name, form } = inner;
    let form = abstract_around(alloc, before, place, form, after)?;
    Ok(Declarator { name, form })
}

/// The same with a name or without one.
pub fn either_around(
    alloc: Global,
    before: List<Star>,
    place: Place,
    inner: Either,
    after: List<Suffix>,
) -> Result<Either, AllocError>
    ensures { IfOk result (λ it. it ≡ spec.grouped_either before place inner after) }
{
    match inner {
        Either::Named(inner) => Ok(Either::Named(around(alloc, before, place, inner, after)?)),
        Either::Unnamed(inner) => Ok(Either::Unnamed(abstract_around(
            alloc, before, place, inner, after,
        )?)),
    }
}

/// A parameter of these specifiers, with a name or without one.
pub fn param_of(specs: List<Spec>, found: Either) -> Param
    ensures { result ≡ spec.param_of specs found }
{
    match found {
        Either::Named(declarator) => Param::Named(specs, declarator),
        Either::Unnamed(declarator) => Param::Unnamed(specs, declarator),
    }
}
