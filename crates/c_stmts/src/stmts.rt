//! Statements.

ghost use Rattle.c_grammar.specs.Tokens.{Gives};
ghost use Rattle.c_grammar.specs.Reading as spec;
ghost use Rattle.c_stmts.specs.Parts as parts_of;

use crate::decls::decl;
use c_ast::{Block, Expr, First, ForHead, Item, Label, Part, Stmt};
use c_exprs::exprs::{cond, expr};
use c_grammar::begins::{begins_expr, begins_label, begins_spec, begins_stmt};
use c_grammar::names::TypeNames;
use c_grammar::tokens::{Read, Sign, expect, next_is};
use c_lex::token::{Keyword, Punct, Token};
use c_nodes::levels::{deep_if, in_braces};
use cm_base::{List, Place};
use sqlite_items::Boxed;
use std::alloc::Global;

/// [ expr ]
#[tactic(auto, unfolding(c_grammar::specs::Reading::read_opt_expr))]
fn opt_expr<'a>(
    alloc: Global,
    names: &TypeNames,
    left: usize,
    ts: &'a [Token],
) -> Read<'a, Option<Boxed<Expr>>>
    ensures { Gives (λ x. (x.0, x.1.now)) result (spec.read_opt_expr names.now (spec.levels names.now left) ts.now) }
{
    if begins_expr(names, ts) {
        let (found, rest) = expr(alloc, names, left, ts)?;
        return Ok((Some(found), rest));
    }
    Ok((None, ts))
}

/// decl | [ expr ] ";"
#[tactic(auto, unfolding(c_grammar::specs::Reading::read_first))]
fn first<'a>(
    alloc: Global,
    names: &TypeNames,
    left: usize,
    ts: &'a [Token],
) -> Read<'a, Boxed<First>>
    ensures { Gives (λ x. (x.0, x.1.now)) result (spec.read_first names.now (spec.levels names.now left) ts.now) }
{
    if begins_spec(names, ts) {
        let (found, rest) = decl(alloc, names, left, ts)?;
        return Ok((Boxed::new(alloc, First::Decl(found))?, rest));
    }
    let (found, rest) = opt_expr(alloc, names, left, ts)?;
    let (_end, rest) = expect(rest, Sign::Mark(Punct::Semicolon))?;
    Ok((Boxed::new(alloc, First::Expr(found))?, rest))
}

/// "case" cond ":"
#[tactic(auto, unfolding(c_grammar::specs::Reading::read_case_label))]
fn case_label<'a>(alloc: Global, names: &TypeNames, left: usize, ts: &'a [Token]) -> Read<'a, Label>
    ensures { Gives (λ x. (x.0, x.1.now)) result (spec.read_case_label names.now (spec.levels names.now left) ts.now) }
{
    let (place, rest) = expect(ts, Sign::Word(Keyword::Case))?;
    let (value, rest) = cond(alloc, names, left, rest)?;
    let (_colon, rest) = expect(rest, Sign::Mark(Punct::Colon))?;
    Ok((Label::Case(place, value), rest))
}

/// label = "case" cond ":" | "default" ":"
#[tactic(auto, unfolding(c_grammar::specs::Reading::read_label))]
fn label<'a>(alloc: Global, names: &TypeNames, left: usize, ts: &'a [Token]) -> Read<'a, Label>
    ensures { Gives (λ x. (x.0, x.1.now)) result (spec.read_label names.now (spec.levels names.now left) ts.now) }
{
    if next_is(ts, Sign::Word(Keyword::Case)) {
        return case_label(alloc, names, left, ts);
    }
    let (place, rest) = expect(ts, Sign::Word(Keyword::Default))?;
    let (_colon, rest) = expect(rest, Sign::Mark(Punct::Colon))?;
    Ok((Label::Default(place), rest))
}

/// block = "{" { decl | stmt } "}"
#[cycle(stmts)]
#[tactic(auto, unfolding(c_grammar::specs::Reading::read_block))]
pub fn block<'a>(alloc: Global, names: &TypeNames, left: usize, ts: &'a [Token]) -> Read<'a, Block>
    ensures { Gives (λ x. (x.0, x.1.now)) result (spec.read_block names.now (spec.levels names.now left) ts.now) }
{
    let (place, rest) = expect(ts, Sign::Mark(Punct::BraceOpen))?;
    let (items, rest) = items(alloc, names, left, List::new(alloc), rest)?;
    let (_close, rest) = expect(rest, Sign::Mark(Punct::BraceClose))?;
    Ok((Block { place, items }, rest))
}

/// decl | stmt, after others.
#[cycle(stmts)]
#[tactic(auto, unfolding(c_grammar::specs::Reading::read_item_item))]
fn item_item<'a>(
    alloc: Global,
    names: &TypeNames,
    left: usize,
    so_far: List<Item>,
    ts: &'a [Token],
) -> Read<'a, List<Item>>
    ensures { Gives (λ x. (x.0, x.1.now)) result (spec.read_item_item names.now (spec.levels names.now left) so_far ts.now) }
{
    let mut all = so_far;
    let (part, rest) = item(alloc, names, left, ts)?;
    all.push(part)?;
    Ok((all, rest))
}

/// { decl | stmt }
#[cycle(stmts)]
#[tactic(auto, using(c_nodes::proofs::LevelLaws::repeat_rules), unfolding(c_grammar::specs::Reading::read_items))]
fn items<'a>(
    alloc: Global,
    names: &TypeNames,
    left: usize,
    so_far: List<Item>,
    ts: &'a [Token],
) -> Read<'a, List<Item>>
    ensures { Gives (λ x. (x.0, x.1.now)) result (spec.read_items names.now (spec.levels names.now left) so_far ts.now) }
{
    let mut all = so_far;
    let mut rest = ts;
    for _ in 0..ts.len() {
        if !in_braces(rest) {
            return Ok((all, rest));
        }
        let (more, after) = item_item(alloc, names, left, all, rest)?;
        all = more;
        rest = after;
    }
    Ok((all, rest))
}

/// decl | stmt
#[cycle(stmts)]
#[tactic(auto, unfolding(c_grammar::specs::Reading::read_item))]
fn item<'a>(alloc: Global, names: &TypeNames, left: usize, ts: &'a [Token]) -> Read<'a, Item>
    ensures { Gives (λ x. (x.0, x.1.now)) result (spec.read_item names.now (spec.levels names.now left) ts.now) }
{
    if begins_spec(names, ts) {
        let (found, rest) = decl(alloc, names, left, ts)?;
        return Ok((Item::Decl(found), rest));
    }
    let (found, rest) = stmt(alloc, names, left, ts)?;
    Ok((Item::Stmt(found.into_inner()), rest))
}

/// stmt = block | ";" | expr ";" | "return" [ expr ] ";" | "break" ";" | "continue" ";"
/// | "if" "(" expr ")" stmt [ "else" stmt ] | "while" "(" expr ")" stmt
/// | "do" stmt "while" "(" expr ")" ";"
/// | "for" "(" ( decl | [ expr ] ";" ) [ expr ] ";" [ expr ] ")" stmt
/// | "switch" "(" expr ")" "{" { label | decl | stmt } "}"
#[cycle(stmts)]
#[tactic(auto, using(c_nodes::proofs::LevelLaws::stmts_rules))]
fn stmt<'a>(alloc: Global, names: &TypeNames, left: usize, ts: &'a [Token]) -> Read<'a, Boxed<Stmt>>
    ensures { Gives (λ x. (x.0, x.1.now)) result ((spec.levels names.now left).stmts ts.now) }
{
    if left == 0 {
        return Err(deep_if(begins_stmt(names, ts), ts));
    }
    let left = left - 1;
    stmt_below(alloc, names, left, ts)
}

/// The alternatives of stmt.
#[cycle(stmts)]
#[tactic(auto, unfolding(c_grammar::specs::Reading::read_stmt))]
fn stmt_below<'a>(
    alloc: Global,
    names: &TypeNames,
    left: usize,
    ts: &'a [Token],
) -> Read<'a, Boxed<Stmt>>
    ensures { Gives (λ x. (x.0, x.1.now)) result (spec.read_stmt names.now (spec.levels names.now left) ts.now) }
{
    if next_is(ts, Sign::Mark(Punct::BraceOpen)) {
        let (found, rest) = block(alloc, names, left, ts)?;
        return Ok((Boxed::new(alloc, Stmt::Block(found))?, rest));
    }
    if next_is(ts, Sign::Mark(Punct::Semicolon)) {
        let (place, rest) = expect(ts, Sign::Mark(Punct::Semicolon))?;
        return Ok((Boxed::new(alloc, Stmt::Empty(place))?, rest));
    }
    if next_is(ts, Sign::Word(Keyword::Return)) {
        return return_stmt(alloc, names, left, ts);
    }
    if next_is(ts, Sign::Word(Keyword::Break)) {
        return break_stmt(alloc, ts);
    }
    if next_is(ts, Sign::Word(Keyword::Continue)) {
        return continue_stmt(alloc, ts);
    }
    if next_is(ts, Sign::Word(Keyword::If)) {
        return if_stmt(alloc, names, left, ts);
    }
    if next_is(ts, Sign::Word(Keyword::While)) {
        return while_stmt(alloc, names, left, ts);
    }
    if next_is(ts, Sign::Word(Keyword::Do)) {
        return do_stmt(alloc, names, left, ts);
    }
    if next_is(ts, Sign::Word(Keyword::For)) {
        return for_stmt(alloc, names, left, ts);
    }
    if next_is(ts, Sign::Word(Keyword::Switch)) {
        return switch_stmt(alloc, names, left, ts);
    }
    expr_stmt(alloc, names, left, ts)
}

/// "break" ";"
fn break_stmt<'a>(alloc: Global, ts: &'a [Token]) -> Read<'a, Boxed<Stmt>>
    ensures { Gives (λ x. (x.0, x.1.now)) result (parts_of.read_break ts.now) }
{
    let (place, rest) = expect(ts, Sign::Word(Keyword::Break))?;
    let (_end, rest) = expect(rest, Sign::Mark(Punct::Semicolon))?;
    Ok((Boxed::new(alloc, Stmt::Break(place))?, rest))
}

/// "continue" ";"
fn continue_stmt<'a>(alloc: Global, ts: &'a [Token]) -> Read<'a, Boxed<Stmt>>
    ensures { Gives (λ x. (x.0, x.1.now)) result (parts_of.read_continue ts.now) }
{
    let (place, rest) = expect(ts, Sign::Word(Keyword::Continue))?;
    let (_end, rest) = expect(rest, Sign::Mark(Punct::Semicolon))?;
    Ok((Boxed::new(alloc, Stmt::Continue(place))?, rest))
}

/// expr ";"
fn expr_stmt<'a>(
    alloc: Global,
    names: &TypeNames,
    left: usize,
    ts: &'a [Token],
) -> Read<'a, Boxed<Stmt>>
    ensures { Gives (λ x. (x.0, x.1.now)) result (parts_of.read_expr_stmt names.now (spec.levels names.now left) ts.now) }
{
    let (found, rest) = expr(alloc, names, left, ts)?;
    let (_end, rest) = expect(rest, Sign::Mark(Punct::Semicolon))?;
    Ok((Boxed::new(alloc, Stmt::Expr(found.into_inner()))?, rest))
}

/// "return" [ expr ] ";"
#[tactic(auto, unfolding(c_grammar::specs::Reading::read_return_stmt))]
fn return_stmt<'a>(
    alloc: Global,
    names: &TypeNames,
    left: usize,
    ts: &'a [Token],
) -> Read<'a, Boxed<Stmt>>
    ensures { Gives (λ x. (x.0, x.1.now)) result (spec.read_return_stmt names.now (spec.levels names.now left) ts.now) }
{
    let (place, rest) = expect(ts, Sign::Word(Keyword::Return))?;
    let (value, rest) = opt_expr(alloc, names, left, rest)?;
    let (_end, rest) = expect(rest, Sign::Mark(Punct::Semicolon))?;
    let whole = Stmt::Return(place, value);
    Ok((Boxed::new(alloc, whole)?, rest))
}

/// "if" "(" expr ")" stmt [ "else" stmt ]
#[cycle(stmts)]
#[tactic(auto, unfolding(c_grammar::specs::Reading::read_if_stmt))]
fn if_stmt<'a>(
    alloc: Global,
    names: &TypeNames,
    left: usize,
    ts: &'a [Token],
) -> Read<'a, Boxed<Stmt>>
    ensures { Gives (λ x. (x.0, x.1.now)) result (spec.read_if_stmt names.now (spec.levels names.now left) ts.now) }
{
    let (place, rest) = expect(ts, Sign::Word(Keyword::If))?;
    let (_open, rest) = expect(rest, Sign::Mark(Punct::ParenOpen))?;
    let (test, rest) = expr(alloc, names, left, rest)?;
    let (_close, rest) = expect(rest, Sign::Mark(Punct::ParenClose))?;
    let (holds, rest) = stmt(alloc, names, left, rest)?;
    if next_is(rest, Sign::Word(Keyword::Else)) {
        return if_else(alloc, names, left, place, test, holds, rest);
    }
    let whole = Stmt::If(place, test, holds, None);
    Ok((Boxed::new(alloc, whole)?, rest))
}

/// "else" stmt, after the rest of its `if`.
#[cycle(stmts)]
#[tactic(auto, unfolding(c_grammar::specs::Reading::read_if_else))]
fn if_else<'a>(
    alloc: Global,
    names: &TypeNames,
    left: usize,
    place: Place,
    test: Boxed<Expr>,
    holds: Boxed<Stmt>,
    ts: &'a [Token],
) -> Read<'a, Boxed<Stmt>>
    ensures { Gives (λ x. (x.0, x.1.now)) result (spec.read_if_else names.now (spec.levels names.now left) place test holds ts.now) }
{
    let (_else, rest) = expect(ts, Sign::Word(Keyword::Else))?;
    let (fails, rest) = stmt(alloc, names, left, rest)?;
    let whole = Stmt::If(place, test, holds, Some(fails));
    Ok((Boxed::new(alloc, whole)?, rest))
}

/// "while" "(" expr ")" stmt
#[cycle(stmts)]
#[tactic(auto, unfolding(c_grammar::specs::Reading::read_while_stmt))]
fn while_stmt<'a>(
    alloc: Global,
    names: &TypeNames,
    left: usize,
    ts: &'a [Token],
) -> Read<'a, Boxed<Stmt>>
    ensures { Gives (λ x. (x.0, x.1.now)) result (spec.read_while_stmt names.now (spec.levels names.now left) ts.now) }
{
    let (place, rest) = expect(ts, Sign::Word(Keyword::While))?;
    let (_open, rest) = expect(rest, Sign::Mark(Punct::ParenOpen))?;
    let (test, rest) = expr(alloc, names, left, rest)?;
    let (_close, rest) = expect(rest, Sign::Mark(Punct::ParenClose))?;
    let (body, rest) = stmt(alloc, names, left, rest)?;
    let whole = Stmt::While(place, test, body);
    Ok((Boxed::new(alloc, whole)?, rest))
}

/// "do" stmt "while" "(" expr ")" ";"
#[cycle(stmts)]
#[tactic(auto, unfolding(c_grammar::specs::Reading::read_do_stmt))]
fn do_stmt<'a>(
    alloc: Global,
    names: &TypeNames,
    left: usize,
    ts: &'a [Token],
) -> Read<'a, Boxed<Stmt>>
    ensures { Gives (λ x. (x.0, x.1.now)) result (spec.read_do_stmt names.now (spec.levels names.now left) ts.now) }
{
    let (place, rest) = expect(ts, Sign::Word(Keyword::Do))?;
    let (body, rest) = stmt(alloc, names, left, rest)?;
    let (_while, rest) = expect(rest, Sign::Word(Keyword::While))?;
    let (_open, rest) = expect(rest, Sign::Mark(Punct::ParenOpen))?;
    let (test, rest) = expr(alloc, names, left, rest)?;
    let (_close, rest) = expect(rest, Sign::Mark(Punct::ParenClose))?;
    let (_end, rest) = expect(rest, Sign::Mark(Punct::Semicolon))?;
    let whole = Stmt::DoWhile(place, body, test);
    Ok((Boxed::new(alloc, whole)?, rest))
}

/// "for" "(" ( decl | [ expr ] ";" ) [ expr ] ";" [ expr ] ")" stmt
#[cycle(stmts)]
#[tactic(auto, unfolding(c_grammar::specs::Reading::read_for_stmt))]
fn for_stmt<'a>(
    alloc: Global,
    names: &TypeNames,
    left: usize,
    ts: &'a [Token],
) -> Read<'a, Boxed<Stmt>>
    ensures { Gives (λ x. (x.0, x.1.now)) result (spec.read_for_stmt names.now (spec.levels names.now left) ts.now) }
{
    let (place, rest) = expect(ts, Sign::Word(Keyword::For))?;
    let (_open, rest) = expect(rest, Sign::Mark(Punct::ParenOpen))?;
    let (first, rest) = first(alloc, names, left, rest)?;
    let (test, rest) = opt_expr(alloc, names, left, rest)?;
    let (_end, rest) = expect(rest, Sign::Mark(Punct::Semicolon))?;
    let (step, rest) = opt_expr(alloc, names, left, rest)?;
    let (_close, rest) = expect(rest, Sign::Mark(Punct::ParenClose))?;
    let (body, rest) = stmt(alloc, names, left, rest)?;
    let head = ForHead { first, test, step };
    let whole = Stmt::For(place, head, body);
    Ok((Boxed::new(alloc, whole)?, rest))
}

/// "switch" "(" expr ")" "{" { label | decl | stmt } "}"
#[cycle(stmts)]
#[tactic(auto, unfolding(c_grammar::specs::Reading::read_switch_stmt))]
fn switch_stmt<'a>(
    alloc: Global,
    names: &TypeNames,
    left: usize,
    ts: &'a [Token],
) -> Read<'a, Boxed<Stmt>>
    ensures { Gives (λ x. (x.0, x.1.now)) result (spec.read_switch_stmt names.now (spec.levels names.now left) ts.now) }
{
    let (place, rest) = expect(ts, Sign::Word(Keyword::Switch))?;
    let (_open, rest) = expect(rest, Sign::Mark(Punct::ParenOpen))?;
    let (value, rest) = expr(alloc, names, left, rest)?;
    let (_close, rest) = expect(rest, Sign::Mark(Punct::ParenClose))?;
    let (_open, rest) = expect(rest, Sign::Mark(Punct::BraceOpen))?;
    let (all, rest) = parts(alloc, names, left, List::new(alloc), rest)?;
    let (_close, rest) = expect(rest, Sign::Mark(Punct::BraceClose))?;
    let whole = Stmt::Switch(place, value, all);
    Ok((Boxed::new(alloc, whole)?, rest))
}

/// label | decl | stmt, after others.
#[cycle(stmts)]
#[tactic(auto, unfolding(c_grammar::specs::Reading::read_part_item))]
fn part_item<'a>(
    alloc: Global,
    names: &TypeNames,
    left: usize,
    so_far: List<Part>,
    ts: &'a [Token],
) -> Read<'a, List<Part>>
    ensures { Gives (λ x. (x.0, x.1.now)) result (spec.read_part_item names.now (spec.levels names.now left) so_far ts.now) }
{
    let mut all = so_far;
    let (part, rest) = part(alloc, names, left, ts)?;
    all.push(part)?;
    Ok((all, rest))
}

/// { label | decl | stmt }
#[cycle(stmts)]
#[tactic(auto, using(c_nodes::proofs::LevelLaws::repeat_rules), unfolding(c_grammar::specs::Reading::read_parts))]
fn parts<'a>(
    alloc: Global,
    names: &TypeNames,
    left: usize,
    so_far: List<Part>,
    ts: &'a [Token],
) -> Read<'a, List<Part>>
    ensures { Gives (λ x. (x.0, x.1.now)) result (spec.read_parts names.now (spec.levels names.now left) so_far ts.now) }
{
    let mut all = so_far;
    let mut rest = ts;
    for _ in 0..ts.len() {
        if !in_braces(rest) {
            return Ok((all, rest));
        }
        let (more, after) = part_item(alloc, names, left, all, rest)?;
        all = more;
        rest = after;
    }
    Ok((all, rest))
}

/// label | decl | stmt
#[cycle(stmts)]
#[tactic(auto, unfolding(c_grammar::specs::Reading::read_part))]
fn part<'a>(alloc: Global, names: &TypeNames, left: usize, ts: &'a [Token]) -> Read<'a, Part>
    ensures { Gives (λ x. (x.0, x.1.now)) result (spec.read_part names.now (spec.levels names.now left) ts.now) }
{
    if begins_label(ts) {
        let (found, rest) = label(alloc, names, left, ts)?;
        return Ok((Part::Label(found), rest));
    }
    if begins_spec(names, ts) {
        let (found, rest) = decl(alloc, names, left, ts)?;
        return Ok((Part::Decl(found), rest));
    }
    let (found, rest) = stmt(alloc, names, left, ts)?;
    Ok((Part::Stmt(found.into_inner()), rest))
}
