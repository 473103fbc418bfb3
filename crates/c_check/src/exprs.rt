//! Expressions: operands from left to right, and then their operator.

ghost use Rattle.std.specs.Prelude.{◌≡◌};
ghost use Rattle.c_scope.specs.Steps.{Leaves};
ghost use Rattle.c_check.specs.Typed as spec;

use crate::around::Around;
use crate::operands::{
    Operand, argument, arrow_operand, assigned_operand, called_operand, cast_operand,
    character_operand, chosen_operand, element_operand, followed, in_parentheses, joined,
    member_operand, named_operand, number_operand, sized_operand, sized_type, stepped_operand,
    unary_operand,
};
use crate::types::type_name;
use c_ast::{Access, Expr as Tree, Link, Next};
use c_rows::{Arg, TypeFault, at};
use c_scope::Tables;
use c_tree::Expr;
use cm_base::{List, Shared};
use std::alloc::Global;

/// What an expression is: its typed tree, or the name of a call of arm_cmse.h.
#[cycle(syntax)]
pub fn expr(
    alloc: Global,
    e: &Tree,
    tables: &mut Tables,
    around: Around,
) -> Result<Operand, TypeFault>
    ensures { Leaves result tables.new (spec.typed e.now around tables.old) }
{
    match e {
        Tree::Name(name) => named_operand(alloc, tables, name),
        Tree::Number(place, n, ty) => Ok(number_operand(alloc, *place, *n, *ty)?),
        Tree::Char(place, c) => Ok(character_operand(alloc, *place, *c)?),
        Tree::Str(place, _) => Err(at(29, *place)),
        Tree::Group(place, inner) => {
            let o = expr(alloc, inner.get(), tables, around)?;
            Ok(in_parentheses(*place, o))
        }
        Tree::Postfix(first, more) => {
            let o = expr(alloc, first.get(), tables, around)?;
            accesses(alloc, more.as_slice(), tables, around, o)
        }
        Tree::Step(place, op, e) => {
            let o = expr(alloc, e.get(), tables, around)?;
            stepped_operand(alloc, *op, *place, false, *place, o)
        }
        Tree::Unary(place, op, e) => {
            let o = expr(alloc, e.get(), tables, around)?;
            unary_operand(alloc, *op, *place, o)
        }
        Tree::SizeofExpr(place, e) => {
            let o = expr(alloc, e.get(), tables, around)?;
            sized_operand(alloc, *place, o)
        }
        Tree::SizeofType(place, name) => {
            let to = type_name(alloc, name.get(), tables, around)?;
            sized_type(alloc, *place, &to)
        }
        Tree::Cast(place, name, e) => {
            let to = type_name(alloc, name.get(), tables, around)?;
            let o = expr(alloc, e.get(), tables, around)?;
            cast_operand(alloc, *place, &to, o)
        }
        Tree::Binary(first, more) => {
            let o = expr(alloc, first.get(), tables, around)?;
            links(alloc, more.as_slice(), tables, around, o)
        }
        Tree::Choice(place, c, a, b) => {
            let c = expr(alloc, c.get(), tables, around)?;
            let first = c.first;
            let c = c.value(alloc)?;
            let a = expr(alloc, a.get(), tables, around)?.value(alloc)?;
            let b = expr(alloc, b.get(), tables, around)?;
            chosen_operand(alloc, *place, first, c, a, b)
        }
        Tree::Assign(place, op, to, v) => {
            let to = expr(alloc, to.get(), tables, around)?;
            let first = to.first;
            let to = to.tree()?;
            let v = expr(alloc, v.get(), tables, around)?;
            assigned_operand(alloc, *op, *place, first, to, v)
        }
        Tree::Comma(first, more) => {
            let o = expr(alloc, first.get(), tables, around)?;
            commas(alloc, more.as_slice(), tables, around, o)
        }
    }
}

/// An expression's value.
pub fn value(
    alloc: Global,
    e: &Tree,
    tables: &mut Tables,
    around: Around,
) -> Result<Shared<Expr>, TypeFault>
    ensures { Leaves result tables.new (spec.value e.now around tables.old) }
{
    expr(alloc, e, tables, around)?.value(alloc)
}

/// Operands joined from left to right, behind the value of the first.
#[cycle(syntax)]
#[tactic(auto, using(crate::proofs::Parts::links_cons))]
fn links(
    alloc: Global,
    more: &[Link],
    tables: &mut Tables,
    around: Around,
    start: Operand,
) -> Result<Operand, TypeFault>
    ensures { Leaves result tables.new (spec.links_after around start more.now tables.old) }
{
    let first = start.first;
    let mut left = start.value(alloc)?;
    for link in more {
        let right = expr(alloc, &link.operand, tables, around)?;
        left = joined(alloc, link.op, link.place, left, right)?;
    }
    Ok(Operand::new(first, left))
}

/// What stands behind commas, after the value of the first expression.
#[cycle(syntax)]
#[tactic(auto, using(crate::proofs::Parts::commas_cons))]
fn commas(
    alloc: Global,
    more: &[Next],
    tables: &mut Tables,
    around: Around,
    start: Operand,
) -> Result<Operand, TypeFault>
    ensures { Leaves result tables.new (spec.commas_after around start more.now tables.old) }
{
    let first = start.first;
    let mut left = start.value(alloc)?;
    for next in more {
        let right = expr(alloc, &next.value, tables, around)?;
        left = followed(alloc, next.place, left, right)?;
    }
    Ok(Operand::new(first, left))
}

/// What stands behind a primary, from left to right.
#[cycle(syntax)]
fn accesses(
    alloc: Global,
    more: &[Access],
    tables: &mut Tables,
    around: Around,
    first: Operand,
) -> Result<Operand, TypeFault>
    ensures { Leaves result tables.new (spec.accesses around first more.now tables.old) }
{
    let mut left = first;
    for access in more {
        left = access_one(alloc, access, tables, around, left)?;
    }
    Ok(left)
}

#[cycle(syntax)]
fn access_one(
    alloc: Global,
    access: &Access,
    tables: &mut Tables,
    around: Around,
    left: Operand,
) -> Result<Operand, TypeFault>
    ensures { Leaves result tables.new (spec.reach_of access.now around left tables.old) }
{
    match access {
        Access::Index(place, i) => {
            let first = left.first;
            let a = left.value(alloc)?;
            let i = expr(alloc, i.get(), tables, around)?;
            element_operand(alloc, *place, first, a, i)
        }
        Access::Call(place, args) => {
            let args = arguments(alloc, args.as_slice(), tables, around)?;
            called_operand(alloc, *place, around.in_entry, left, args.as_slice())
        }
        Access::Member(place, name) => member_operand(alloc, tables, *place, name, left),
        Access::Arrow(place, name) => arrow_operand(alloc, tables, *place, name, left),
        Access::Step(place, op) => {
            let first = left.first;
            stepped_operand(alloc, *op, *place, true, first, left)
        }
    }
}

#[cycle(syntax)]
fn arguments(
    alloc: Global,
    args: &[Tree],
    tables: &mut Tables,
    around: Around,
) -> Result<List<Arg>, TypeFault>
    ensures { Leaves result tables.new (spec.arguments around args.now tables.old) }
{
    let mut done = List::new(alloc);
    for e in args {
        let o = expr(alloc, e, tables, around)?;
        done.push(argument(alloc, o)?)?;
    }
    Ok(done)
}
