//! Expressions.

ghost use Rattle.std.specs.Prelude.{◌≤◌};
ghost use Rattle.c_grammar.specs.Tokens.{Gives};
ghost use Rattle.c_grammar.specs.Reading as spec;

use crate::types::typename;
use c_ast::{Access, Expr, Link, Next};
use c_grammar::begins::{begins_access, begins_expr, begins_step, type_follows};
use c_grammar::names::TypeNames;
use c_grammar::operators::{
    has_assign_op, has_op, has_step_op, has_un_op, take_assign_op, take_op, take_step_op,
    take_un_op,
};
use c_grammar::tokens::{
    Read, Sign, expect, has_char, has_number, has_string, next_is, next_is_name, take_char,
    take_name, take_number, take_string,
};
use c_lex::token::{Keyword, Punct, Token};
use c_nodes::levels::deep_if;
use c_nodes::nodes::{accessed, alone, commas, joined};
use cm_base::{List, Place};
use sqlite_items::Boxed;
use std::alloc::Global;

/// expr = assign { "," assign }
#[cycle(syntax)]
#[tactic(auto, unfolding(c_grammar::specs::Reading::read_expr))]
pub fn expr<'a>(
    alloc: Global,
    names: &TypeNames,
    left: usize,
    ts: &'a [Token],
) -> Read<'a, Boxed<Expr>>
    ensures { Gives (λ x. (x.0, x.1.now)) result (spec.read_expr names.now (spec.levels names.now left) ts.now) }
{
    let (first, rest) = assign(alloc, names, left, ts)?;
    let (more, rest) = more_commas(alloc, names, left, List::new(alloc), rest)?;
    Ok((commas(alloc, first, more)?, rest))
}

/// "," assign, with the place of the comma.
#[cycle(syntax)]
#[tactic(auto, unfolding(c_grammar::specs::Reading::read_comma_item))]
fn comma_item<'a>(
    alloc: Global,
    names: &TypeNames,
    left: usize,
    so_far: List<Next>,
    ts: &'a [Token],
) -> Read<'a, List<Next>>
    ensures { Gives (λ x. (x.0, x.1.now)) result (spec.read_comma_item names.now (spec.levels names.now left) so_far ts.now) }
{
    let mut all = so_far;
    let (place, rest) = expect(ts, Sign::Mark(Punct::Comma))?;
    let (part, rest) = assign(alloc, names, left, rest)?;
    all.push(Next {
        place,
        value: part.into_inner(),
    })?;
    Ok((all, rest))
}

/// { "," assign }, with the places of the commas.
#[cycle(syntax)]
#[tactic(auto, using(c_nodes::proofs::LevelLaws::repeat_rules), unfolding(c_grammar::specs::Reading::read_more_commas))]
fn more_commas<'a>(
    alloc: Global,
    names: &TypeNames,
    left: usize,
    so_far: List<Next>,
    ts: &'a [Token],
) -> Read<'a, List<Next>>
    ensures { Gives (λ x. (x.0, x.1.now)) result (spec.read_more_commas names.now (spec.levels names.now left) so_far ts.now) }
{
    let mut all = so_far;
    let mut rest = ts;
    for _ in 0..ts.len() {
        if !next_is(rest, Sign::Mark(Punct::Comma)) {
            return Ok((all, rest));
        }
        let (more, after) = comma_item(alloc, names, left, all, rest)?;
        all = more;
        rest = after;
    }
    Ok((all, rest))
}

/// "," assign
#[cycle(syntax)]
#[tactic(auto, unfolding(c_grammar::specs::Reading::read_expr_item))]
fn expr_item<'a>(
    alloc: Global,
    names: &TypeNames,
    left: usize,
    so_far: List<Expr>,
    ts: &'a [Token],
) -> Read<'a, List<Expr>>
    ensures { Gives (λ x. (x.0, x.1.now)) result (spec.read_expr_item names.now (spec.levels names.now left) so_far ts.now) }
{
    let mut all = so_far;
    let (_comma, rest) = expect(ts, Sign::Mark(Punct::Comma))?;
    let (part, rest) = assign(alloc, names, left, rest)?;
    all.push(part.into_inner())?;
    Ok((all, rest))
}

/// { "," assign }
#[cycle(syntax)]
#[tactic(auto, using(c_nodes::proofs::LevelLaws::repeat_rules), unfolding(c_grammar::specs::Reading::read_more_exprs))]
fn more_exprs<'a>(
    alloc: Global,
    names: &TypeNames,
    left: usize,
    so_far: List<Expr>,
    ts: &'a [Token],
) -> Read<'a, List<Expr>>
    ensures { Gives (λ x. (x.0, x.1.now)) result (spec.read_more_exprs names.now (spec.levels names.now left) so_far ts.now) }
{
    let mut all = so_far;
    let mut rest = ts;
    for _ in 0..ts.len() {
        if !next_is(rest, Sign::Mark(Punct::Comma)) {
            return Ok((all, rest));
        }
        let (more, after) = expr_item(alloc, names, left, all, rest)?;
        all = more;
        rest = after;
    }
    Ok((all, rest))
}

/// assign = cond [ aop assign ]
#[cycle(syntax)]
#[tactic(auto, using(c_nodes::proofs::LevelLaws::assign_rules), unfolding(c_grammar::specs::Reading::read_assign))]
pub fn assign<'a>(
    alloc: Global,
    names: &TypeNames,
    left: usize,
    ts: &'a [Token],
) -> Read<'a, Boxed<Expr>>
    ensures { Gives (λ x. (x.0, x.1.now)) result ((spec.levels names.now left).assign ts.now) }
{
    if left == 0 {
        return Err(deep_if(begins_expr(names, ts), ts));
    }
    let left = left - 1;
    let (first, rest) = cond(alloc, names, left, ts)?;
    if has_assign_op(rest) {
        return assigned(alloc, names, left, first, rest);
    }
    Ok((first, rest))
}

/// aop assign, after its cond.
#[cycle(syntax)]
#[tactic(auto, unfolding(c_grammar::specs::Reading::read_assigned))]
fn assigned<'a>(
    alloc: Global,
    names: &TypeNames,
    left: usize,
    to: Boxed<Expr>,
    ts: &'a [Token],
) -> Read<'a, Boxed<Expr>>
    ensures { Gives (λ x. (x.0, x.1.now)) result (spec.read_assigned names.now (spec.levels names.now left) to ts.now) }
{
    let (op, rest) = take_assign_op(ts)?;
    let (value, rest) = assign(alloc, names, left, rest)?;
    let whole = Expr::Assign(op.0, op.1, to, value);
    Ok((Boxed::new(alloc, whole)?, rest))
}

/// cond = binary [ "?" expr ":" cond ]
#[cycle(syntax)]
#[tactic(auto, using(c_nodes::proofs::LevelLaws::cond_rules), unfolding(c_grammar::specs::Reading::read_cond))]
pub fn cond<'a>(
    alloc: Global,
    names: &TypeNames,
    left: usize,
    ts: &'a [Token],
) -> Read<'a, Boxed<Expr>>
    ensures { Gives (λ x. (x.0, x.1.now)) result ((spec.levels names.now left).cond ts.now) }
{
    if left == 0 {
        return Err(deep_if(begins_expr(names, ts), ts));
    }
    let left = left - 1;
    let (test, rest) = binary(alloc, names, left, 10, ts)?;
    if next_is(rest, Sign::Mark(Punct::Question)) {
        return chosen(alloc, names, left, test, rest);
    }
    Ok((test, rest))
}

/// "?" expr ":" cond, after its test.
#[cycle(syntax)]
#[tactic(auto, unfolding(c_grammar::specs::Reading::read_chosen))]
fn chosen<'a>(
    alloc: Global,
    names: &TypeNames,
    left: usize,
    test: Boxed<Expr>,
    ts: &'a [Token],
) -> Read<'a, Boxed<Expr>>
    ensures { Gives (λ x. (x.0, x.1.now)) result (spec.read_chosen names.now (spec.levels names.now left) test ts.now) }
{
    let (place, rest) = expect(ts, Sign::Mark(Punct::Question))?;
    let (holds, rest) = expr(alloc, names, left, rest)?;
    let (_colon, rest) = expect(rest, Sign::Mark(Punct::Colon))?;
    let (fails, rest) = cond(alloc, names, left, rest)?;
    let whole = Expr::Choice(place, test, holds, fails);
    Ok((Boxed::new(alloc, whole)?, rest))
}

/// An operator of this level and its operand.
#[cycle(syntax)]
#[tactic(auto, unfolding(c_grammar::specs::Reading::read_op_item))]
fn op_item<'a>(
    alloc: Global,
    names: &TypeNames,
    left: usize,
    level: usize,
    so_far: List<Link>,
    ts: &'a [Token],
) -> Read<'a, List<Link>>
    requires { level ≤ 10 }
    ensures { Gives (λ x. (x.0, x.1.now)) result (spec.read_op_item (spec.read_binary (spec.levels names.now left) level) level so_far ts.now) }
{
    let mut all = so_far;
    let (op, rest) = take_op(level, ts)?;
    let (operand, rest) = binary(alloc, names, left, level, rest)?;
    all.push(Link {
        place: op.0,
        op: op.1,
        operand: operand.into_inner(),
    })?;
    Ok((all, rest))
}

/// { operator operand }, the operators being of this level.
#[cycle(syntax)]
#[tactic(auto, using(c_nodes::proofs::LevelLaws::repeat_rules), unfolding(c_grammar::specs::Reading::read_more_ops))]
fn more_ops<'a>(
    alloc: Global,
    names: &TypeNames,
    left: usize,
    level: usize,
    so_far: List<Link>,
    ts: &'a [Token],
) -> Read<'a, List<Link>>
    requires { level ≤ 10 }
    ensures { Gives (λ x. (x.0, x.1.now)) result (spec.read_more_ops (spec.read_binary (spec.levels names.now left) level) level so_far ts.now) }
{
    let mut all = so_far;
    let mut rest = ts;
    for _ in 0..ts.len() {
        if !has_op(level, rest) {
            return Ok((all, rest));
        }
        let (more, after) = op_item(alloc, names, left, level, all, rest)?;
        all = more;
        rest = after;
    }
    Ok((all, rest))
}

/// binary: operands joined by left-associative operators; at level 0 a cast, and above it binaries of the level below,
/// joined by `* / %` at level 1, and so on up to `||` at level 10.
#[cycle(syntax)]
#[tactic(auto, using(c_nodes::proofs::LevelLaws::binary_rules), unfolding(c_grammar::specs::Reading::read_binary))]
fn binary<'a>(
    alloc: Global,
    names: &TypeNames,
    left: usize,
    level: usize,
    ts: &'a [Token],
) -> Read<'a, Boxed<Expr>>
    requires { level ≤ 10 }
    ensures { Gives (λ x. (x.0, x.1.now)) result (spec.read_binary (spec.levels names.now left) level ts.now) }
{
    if level == 0 {
        return cast(alloc, names, left, ts);
    }
    let level = level - 1;
    let (first, rest) = binary(alloc, names, left, level, ts)?;
    let (more, rest) = more_ops(alloc, names, left, level, List::new(alloc), rest)?;
    Ok((joined(alloc, first, more)?, rest))
}

/// cast = "(" typename ")" cast | unary
#[cycle(syntax)]
#[tactic(auto, using(c_nodes::proofs::LevelLaws::cast_rules), unfolding(c_grammar::specs::Reading::read_cast))]
fn cast<'a>(alloc: Global, names: &TypeNames, left: usize, ts: &'a [Token]) -> Read<'a, Boxed<Expr>>
    ensures { Gives (λ x. (x.0, x.1.now)) result ((spec.levels names.now left).cast ts.now) }
{
    if left == 0 {
        return Err(deep_if(begins_expr(names, ts), ts));
    }
    let left = left - 1;
    if type_follows(names, ts) {
        return converted(alloc, names, left, ts);
    }
    unary(alloc, names, left, ts)
}

/// "(" typename ")" cast
#[cycle(syntax)]
#[tactic(auto, unfolding(c_grammar::specs::Reading::read_converted))]
fn converted<'a>(
    alloc: Global,
    names: &TypeNames,
    left: usize,
    ts: &'a [Token],
) -> Read<'a, Boxed<Expr>>
    ensures { Gives (λ x. (x.0, x.1.now)) result (spec.read_converted names.now (spec.levels names.now left) ts.now) }
{
    let (place, rest) = expect(ts, Sign::Mark(Punct::ParenOpen))?;
    let (to, rest) = typename(alloc, names, left, rest)?;
    let (_close, rest) = expect(rest, Sign::Mark(Punct::ParenClose))?;
    let (value, rest) = cast(alloc, names, left, rest)?;
    Ok((Boxed::new(alloc, Expr::Cast(place, to, value))?, rest))
}

/// unary = ( "++" | "--" ) unary | ( "&" | "*" | "+" | "-" | "~" | "!" ) cast
/// | "sizeof" ( unary | "(" typename ")" ) | postfix
#[cycle(syntax)]
#[tactic(auto, unfolding(c_grammar::specs::Reading::read_unary))]
fn unary<'a>(
    alloc: Global,
    names: &TypeNames,
    left: usize,
    ts: &'a [Token],
) -> Read<'a, Boxed<Expr>>
    ensures { Gives (λ x. (x.0, x.1.now)) result (spec.read_unary names.now (spec.levels names.now left) ts.now) }
{
    if begins_step(ts) {
        return stepped(alloc, names, left, ts);
    }
    if has_un_op(ts) {
        return prefixed(alloc, names, left, ts);
    }
    postfix(alloc, names, left, ts)
}

/// ( "&" | "*" | "+" | "-" | "~" | "!" ) cast
#[cycle(syntax)]
#[tactic(auto, unfolding(c_grammar::specs::Reading::read_prefixed))]
fn prefixed<'a>(
    alloc: Global,
    names: &TypeNames,
    left: usize,
    ts: &'a [Token],
) -> Read<'a, Boxed<Expr>>
    ensures { Gives (λ x. (x.0, x.1.now)) result (spec.read_prefixed names.now (spec.levels names.now left) ts.now) }
{
    let (op, rest) = take_un_op(ts)?;
    let (operand, rest) = cast(alloc, names, left, rest)?;
    Ok((Boxed::new(alloc, Expr::Unary(op.0, op.1, operand))?, rest))
}

/// ( "++" | "--" ) unary | "sizeof" ( unary | "(" typename ")" )
#[cycle(syntax)]
#[tactic(auto, using(c_nodes::proofs::LevelLaws::stepped_rules), unfolding(c_grammar::specs::Reading::read_stepped))]
fn stepped<'a>(
    alloc: Global,
    names: &TypeNames,
    left: usize,
    ts: &'a [Token],
) -> Read<'a, Boxed<Expr>>
    ensures { Gives (λ x. (x.0, x.1.now)) result ((spec.levels names.now left).stepped ts.now) }
{
    if left == 0 {
        return Err(deep_if(begins_step(ts), ts));
    }
    let left = left - 1;
    if has_step_op(ts) {
        return step_before(alloc, names, left, ts);
    }
    size_of(alloc, names, left, ts)
}

/// ( "++" | "--" ) unary
#[cycle(syntax)]
#[tactic(auto, unfolding(c_grammar::specs::Reading::read_step_before))]
fn step_before<'a>(
    alloc: Global,
    names: &TypeNames,
    left: usize,
    ts: &'a [Token],
) -> Read<'a, Boxed<Expr>>
    ensures { Gives (λ x. (x.0, x.1.now)) result (spec.read_step_before names.now (spec.levels names.now left) ts.now) }
{
    let (op, rest) = take_step_op(ts)?;
    let (operand, rest) = unary(alloc, names, left, rest)?;
    Ok((Boxed::new(alloc, Expr::Step(op.0, op.1, operand))?, rest))
}

/// "sizeof" ( unary | "(" typename ")" )
#[cycle(syntax)]
#[tactic(auto, unfolding(c_grammar::specs::Reading::read_size_of))]
fn size_of<'a>(
    alloc: Global,
    names: &TypeNames,
    left: usize,
    ts: &'a [Token],
) -> Read<'a, Boxed<Expr>>
    ensures { Gives (λ x. (x.0, x.1.now)) result (spec.read_size_of names.now (spec.levels names.now left) ts.now) }
{
    let (place, rest) = expect(ts, Sign::Word(Keyword::Sizeof))?;
    if type_follows(names, rest) {
        return sizeof_type(alloc, names, left, place, rest);
    }
    sizeof_expr(alloc, names, left, place, rest)
}

/// "(" typename ")", after `sizeof`.
#[cycle(syntax)]
#[tactic(auto, unfolding(c_grammar::specs::Reading::read_sizeof_type))]
fn sizeof_type<'a>(
    alloc: Global,
    names: &TypeNames,
    left: usize,
    place: Place,
    ts: &'a [Token],
) -> Read<'a, Boxed<Expr>>
    ensures { Gives (λ x. (x.0, x.1.now)) result (spec.read_sizeof_type names.now (spec.levels names.now left) place ts.now) }
{
    let (_open, rest) = expect(ts, Sign::Mark(Punct::ParenOpen))?;
    let (of, rest) = typename(alloc, names, left, rest)?;
    let (_close, rest) = expect(rest, Sign::Mark(Punct::ParenClose))?;
    Ok((Boxed::new(alloc, Expr::SizeofType(place, of))?, rest))
}

/// unary, after `sizeof`.
#[cycle(syntax)]
#[tactic(auto, unfolding(c_grammar::specs::Reading::read_sizeof_expr))]
fn sizeof_expr<'a>(
    alloc: Global,
    names: &TypeNames,
    left: usize,
    place: Place,
    ts: &'a [Token],
) -> Read<'a, Boxed<Expr>>
    ensures { Gives (λ x. (x.0, x.1.now)) result (spec.read_sizeof_expr names.now (spec.levels names.now left) place ts.now) }
{
    let (of, rest) = unary(alloc, names, left, ts)?;
    Ok((Boxed::new(alloc, Expr::SizeofExpr(place, of))?, rest))
}

/// postfix = primary { "[" expr "]" | "(" [ assign { "," assign } ] ")" | "." NAME | "->" NAME | "++" | "--" }
#[cycle(syntax)]
#[tactic(auto, unfolding(c_grammar::specs::Reading::read_postfix))]
fn postfix<'a>(
    alloc: Global,
    names: &TypeNames,
    left: usize,
    ts: &'a [Token],
) -> Read<'a, Boxed<Expr>>
    ensures { Gives (λ x. (x.0, x.1.now)) result (spec.read_postfix names.now (spec.levels names.now left) ts.now) }
{
    let (first, rest) = primary(alloc, names, left, ts)?;
    let (more, rest) = accesses(alloc, names, left, List::new(alloc), rest)?;
    Ok((accessed(alloc, first, more)?, rest))
}

/// What is done to an expression, after others.
#[cycle(syntax)]
#[tactic(auto, unfolding(c_grammar::specs::Reading::read_access_item))]
fn access_item<'a>(
    alloc: Global,
    names: &TypeNames,
    left: usize,
    so_far: List<Access>,
    ts: &'a [Token],
) -> Read<'a, List<Access>>
    ensures { Gives (λ x. (x.0, x.1.now)) result (spec.read_access_item names.now (spec.levels names.now left) so_far ts.now) }
{
    let mut all = so_far;
    let (part, rest) = access(alloc, names, left, ts)?;
    all.push(part)?;
    Ok((all, rest))
}

/// { "[" expr "]" | "(" [ assign { "," assign } ] ")" | "." NAME | "->" NAME | "++" | "--" }
#[cycle(syntax)]
#[tactic(auto, using(c_nodes::proofs::LevelLaws::repeat_rules), unfolding(c_grammar::specs::Reading::read_accesses))]
fn accesses<'a>(
    alloc: Global,
    names: &TypeNames,
    left: usize,
    so_far: List<Access>,
    ts: &'a [Token],
) -> Read<'a, List<Access>>
    ensures { Gives (λ x. (x.0, x.1.now)) result (spec.read_accesses names.now (spec.levels names.now left) so_far ts.now) }
{
    let mut all = so_far;
    let mut rest = ts;
    for _ in 0..ts.len() {
        if !begins_access(rest) {
            return Ok((all, rest));
        }
        let (more, after) = access_item(alloc, names, left, all, rest)?;
        all = more;
        rest = after;
    }
    Ok((all, rest))
}

/// "[" expr "]" | "(" [ assign { "," assign } ] ")" | "." NAME | "->" NAME | "++" | "--"
#[cycle(syntax)]
#[tactic(auto, unfolding(c_grammar::specs::Reading::read_access))]
fn access<'a>(alloc: Global, names: &TypeNames, left: usize, ts: &'a [Token]) -> Read<'a, Access>
    ensures { Gives (λ x. (x.0, x.1.now)) result (spec.read_access names.now (spec.levels names.now left) ts.now) }
{
    if next_is(ts, Sign::Mark(Punct::BracketOpen)) {
        return indexed(alloc, names, left, ts);
    }
    if next_is(ts, Sign::Mark(Punct::ParenOpen)) {
        return called(alloc, names, left, ts);
    }
    if next_is(ts, Sign::Mark(Punct::Dot)) {
        let (place, rest) = expect(ts, Sign::Mark(Punct::Dot))?;
        let (name, rest) = take_name(alloc, names, rest)?;
        return Ok((Access::Member(place, name), rest));
    }
    if next_is(ts, Sign::Mark(Punct::Arrow)) {
        let (place, rest) = expect(ts, Sign::Mark(Punct::Arrow))?;
        let (name, rest) = take_name(alloc, names, rest)?;
        return Ok((Access::Arrow(place, name), rest));
    }
    let (op, rest) = take_step_op(ts)?;
    Ok((Access::Step(op.0, op.1), rest))
}

/// "[" expr "]"
#[cycle(syntax)]
#[tactic(auto, unfolding(c_grammar::specs::Reading::read_indexed))]
fn indexed<'a>(alloc: Global, names: &TypeNames, left: usize, ts: &'a [Token]) -> Read<'a, Access>
    ensures { Gives (λ x. (x.0, x.1.now)) result (spec.read_indexed names.now (spec.levels names.now left) ts.now) }
{
    let (place, rest) = expect(ts, Sign::Mark(Punct::BracketOpen))?;
    let (at, rest) = expr(alloc, names, left, rest)?;
    let (_close, rest) = expect(rest, Sign::Mark(Punct::BracketClose))?;
    Ok((Access::Index(place, at), rest))
}

/// "(" [ assign { "," assign } ] ")"
#[cycle(syntax)]
#[tactic(auto, unfolding(c_grammar::specs::Reading::read_called))]
fn called<'a>(alloc: Global, names: &TypeNames, left: usize, ts: &'a [Token]) -> Read<'a, Access>
    ensures { Gives (λ x. (x.0, x.1.now)) result (spec.read_called names.now (spec.levels names.now left) ts.now) }
{
    let (place, rest) = expect(ts, Sign::Mark(Punct::ParenOpen))?;
    let (given, rest) = args(alloc, names, left, rest)?;
    let (_close, rest) = expect(rest, Sign::Mark(Punct::ParenClose))?;
    Ok((Access::Call(place, given), rest))
}

/// [ assign { "," assign } ]
#[cycle(syntax)]
#[tactic(auto, unfolding(c_grammar::specs::Reading::read_args))]
fn args<'a>(alloc: Global, names: &TypeNames, left: usize, ts: &'a [Token]) -> Read<'a, List<Expr>>
    ensures { Gives (λ x. (x.0, x.1.now)) result (spec.read_args names.now (spec.levels names.now left) ts.now) }
{
    if begins_expr(names, ts) {
        return some_args(alloc, names, left, ts);
    }
    Ok((List::new(alloc), ts))
}

/// assign { "," assign }
#[cycle(syntax)]
#[tactic(auto, unfolding(c_grammar::specs::Reading::read_some_args))]
fn some_args<'a>(
    alloc: Global,
    names: &TypeNames,
    left: usize,
    ts: &'a [Token],
) -> Read<'a, List<Expr>>
    ensures { Gives (λ x. (x.0, x.1.now)) result (spec.read_some_args names.now (spec.levels names.now left) ts.now) }
{
    let (first, rest) = assign(alloc, names, left, ts)?;
    more_exprs(alloc, names, left, alone(alloc, first.into_inner())?, rest)
}

/// primary = NAME | NUMBER | CHAR | STRING | "(" expr ")"
#[cycle(syntax)]
#[tactic(auto, unfolding(c_grammar::specs::Reading::read_primary))]
fn primary<'a>(
    alloc: Global,
    names: &TypeNames,
    left: usize,
    ts: &'a [Token],
) -> Read<'a, Boxed<Expr>>
    ensures { Gives (λ x. (x.0, x.1.now)) result (spec.read_primary names.now (spec.levels names.now left) ts.now) }
{
    if next_is_name(names, ts) {
        let (name, rest) = take_name(alloc, names, ts)?;
        return Ok((Boxed::new(alloc, Expr::Name(name))?, rest));
    }
    if has_number(ts) {
        let (number, rest) = take_number(ts)?;
        return Ok((Boxed::new(alloc, number)?, rest));
    }
    if has_char(ts) {
        let (char, rest) = take_char(ts)?;
        return Ok((Boxed::new(alloc, char)?, rest));
    }
    if has_string(ts) {
        let (text, rest) = take_string(alloc, ts)?;
        return Ok((Boxed::new(alloc, Expr::Str(text.0, text.1))?, rest));
    }
    grouped(alloc, names, left, ts)
}

/// "(" expr ")"
#[cycle(syntax)]
#[tactic(auto, unfolding(c_grammar::specs::Reading::read_grouped))]
fn grouped<'a>(
    alloc: Global,
    names: &TypeNames,
    left: usize,
    ts: &'a [Token],
) -> Read<'a, Boxed<Expr>>
    ensures { Gives (λ x. (x.0, x.1.now)) result (spec.read_grouped names.now (spec.levels names.now left) ts.now) }
{
    let (place, rest) = expect(ts, Sign::Mark(Punct::ParenOpen))?;
    let (inner, rest) = expr(alloc, names, left, rest)?;
    let (_close, rest) = expect(rest, Sign::Mark(Punct::ParenClose))?;
    Ok((Boxed::new(alloc, Expr::Group(place, inner))?, rest))
}
