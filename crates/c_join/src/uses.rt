//! The earliest use of a name that no unit defines.
ghost use Rattle.std.specs.Prelude.{◌≡◌};
ghost use Rattle.join_laws.specs.Uses as spec;

use crate::earliest::Earliest;
use c_tree::{Expr, ExprKind, Extern, Item, Part, Stmt, TFunction};
use cm_base::{Place, Shared};

/// Notes the use of an extern, if there is one and no unit defines it.
fn note<'a>(
    own: Option<u32>,
    place: Place,
    numbers: &[Option<usize>],
    externs: &'a [Extern],
    first: &mut Earliest<'a>,
)
    ensures { first.new ≡ spec.noted numbers.now externs.now first.old (spec.own_use own place) }
{
    if let Some(n) = own {
        if !is_defined(numbers, n as usize) {
            first.offer(name_of(externs, n as usize), place);
        }
    }
}

fn is_defined(numbers: &[Option<usize>], n: usize) -> bool
    ensures { result ≡ spec.is_defined numbers.now n }
{
    match numbers.get(n) {
        Some(number) => number.is_some(),
        None => false,
    }
}

fn name_of(externs: &[Extern], n: usize) -> &[u8]
    ensures { result.now ≡ spec.name_at externs.now n }
{
    match externs.get(n) {
        Some(x) => x.name.as_slice(),
        None => &[],
    }
}

/// The extern that an expression of this kind names itself.
fn own_number(kind: &ExprKind) -> Option<u32>
    ensures { result ≡ spec.own_of kind.now }
{
    match kind {
        ExprKind::Global(n) | ExprKind::Call(n, _) => Some(*n),
        _ => None,
    }
}

#[cycle(uses)]
fn note_expr<'a>(
    e: &Expr,
    numbers: &[Option<usize>],
    externs: &'a [Extern],
    first: &mut Earliest<'a>,
)
    ensures { first.new ≡ spec.noted numbers.now externs.now first.old (spec.uses e.now) }
{
    note(own_number(&e.kind), e.place, numbers, externs, first);
    note_kind(&e.kind, numbers, externs, first);
}

#[cycle(uses)]
fn note_kind<'a>(
    kind: &ExprKind,
    numbers: &[Option<usize>],
    externs: &'a [Extern],
    first: &mut Earliest<'a>,
)
    ensures { first.new ≡ spec.noted numbers.now externs.now first.old (spec.inner_of kind.now) }
{
    match kind {
        ExprKind::Const(_) | ExprKind::Local(_) | ExprKind::Global(_) | ExprKind::NsCaller => {}
        ExprKind::Deref(a)
        | ExprKind::Member(a, _)
        | ExprKind::Addr(a)
        | ExprKind::Convert(a)
        | ExprKind::Unary(_, a)
        | ExprKind::Step(a, _, _)
        | ExprKind::NsCreate(a)
        | ExprKind::NsTest(a) => note_expr(a.get(), numbers, externs, first),
        ExprKind::Binary(_, a, b)
        | ExprKind::PtrAdd(a, b, _)
        | ExprKind::PtrDiff(a, b, _)
        | ExprKind::And(a, b)
        | ExprKind::Or(a, b)
        | ExprKind::Assign(a, b)
        | ExprKind::AssignOp(_, a, b)
        | ExprKind::Comma(a, b) => {
            note_expr(a.get(), numbers, externs, first);
            note_expr(b.get(), numbers, externs, first);
        }
        ExprKind::Cond(a, b, c) | ExprKind::Range(a, b, c) => {
            note_expr(a.get(), numbers, externs, first);
            note_expr(b.get(), numbers, externs, first);
            note_expr(c.get(), numbers, externs, first);
        }
        ExprKind::Call(_, args) => note_all(args.as_slice(), numbers, externs, first),
        ExprKind::NsCall(p, args) => {
            note_expr(p.get(), numbers, externs, first);
            note_all(args.as_slice(), numbers, externs, first);
        }
    }
}

#[cycle(uses)]
fn note_all<'a>(
    es: &[Shared<Expr>],
    numbers: &[Option<usize>],
    externs: &'a [Extern],
    first: &mut Earliest<'a>,
)
    ensures { first.new ≡ spec.noted numbers.now externs.now first.old (spec.all_uses es.now) }
{
    for e in es {
        note_expr(e.get(), numbers, externs, first);
    }
}

fn note_or<'a>(
    e: &Option<Shared<Expr>>,
    numbers: &[Option<usize>],
    externs: &'a [Extern],
    first: &mut Earliest<'a>,
)
    ensures { first.new ≡ spec.noted numbers.now externs.now first.old (spec.uses_or e.now) }
{
    if let Some(e) = e {
        note_expr(e.get(), numbers, externs, first);
    }
}

fn note_items<'a>(
    items: &[Item],
    numbers: &[Option<usize>],
    externs: &'a [Extern],
    first: &mut Earliest<'a>,
)
    ensures { first.new ≡ spec.noted numbers.now externs.now first.old (spec.items_uses items.now) }
{
    for item in items {
        note_expr(item.value.get(), numbers, externs, first);
    }
}

#[cycle(stmts)]
fn note_stmt<'a>(
    s: &Stmt,
    numbers: &[Option<usize>],
    externs: &'a [Extern],
    first: &mut Earliest<'a>,
)
    ensures { first.new ≡ spec.noted numbers.now externs.now first.old (spec.stmt_uses s.now) }
{
    match s {
        Stmt::Empty | Stmt::Break | Stmt::Continue => {}
        Stmt::Expr(e) => note_expr(e.get(), numbers, externs, first),
        Stmt::Declare { items, .. } => note_items(items.as_slice(), numbers, externs, first),
        Stmt::Block(list) => note_stmts(list.as_slice(), numbers, externs, first),
        Stmt::If { test, yes, no } => {
            note_expr(test.get(), numbers, externs, first);
            note_stmt(yes.get(), numbers, externs, first);
            note_stmt_or(no, numbers, externs, first);
        }
        Stmt::While { test, body } => {
            note_expr(test.get(), numbers, externs, first);
            note_stmt(body.get(), numbers, externs, first);
        }
        Stmt::DoWhile { body, test } => {
            note_stmt(body.get(), numbers, externs, first);
            note_expr(test.get(), numbers, externs, first);
        }
        Stmt::For {
            first: init,
            test,
            next,
            body,
        } => {
            note_stmts(init.as_slice(), numbers, externs, first);
            note_or(test, numbers, externs, first);
            note_or(next, numbers, externs, first);
            note_stmt(body.get(), numbers, externs, first);
        }
        Stmt::Switch { value, parts } => {
            note_expr(value.get(), numbers, externs, first);
            note_parts(parts.as_slice(), numbers, externs, first);
        }
        Stmt::Return(value) => note_or(value, numbers, externs, first),
    }
}

#[cycle(stmts)]
fn note_stmt_or<'a>(
    s: &Option<Shared<Stmt>>,
    numbers: &[Option<usize>],
    externs: &'a [Extern],
    first: &mut Earliest<'a>,
)
    ensures { first.new ≡ spec.noted numbers.now externs.now first.old (spec.stmt_uses_or s.now) }
{
    if let Some(s) = s {
        note_stmt(s.get(), numbers, externs, first);
    }
}

#[cycle(stmts)]
fn note_stmts<'a>(
    list: &[Shared<Stmt>],
    numbers: &[Option<usize>],
    externs: &'a [Extern],
    first: &mut Earliest<'a>,
)
    ensures { first.new ≡ spec.noted numbers.now externs.now first.old (spec.stmts_uses list.now) }
{
    for s in list {
        note_stmt(s.get(), numbers, externs, first);
    }
}

#[cycle(stmts)]
fn note_part<'a>(
    part: &Part,
    numbers: &[Option<usize>],
    externs: &'a [Extern],
    first: &mut Earliest<'a>,
)
    ensures { first.new ≡ spec.noted numbers.now externs.now first.old (spec.part_uses part.now) }
{
    match part {
        Part::Case(_) | Part::Default => {}
        Part::Stmt(s) => note_stmt(s.get(), numbers, externs, first),
    }
}

#[cycle(stmts)]
fn note_parts<'a>(
    parts: &[Part],
    numbers: &[Option<usize>],
    externs: &'a [Extern],
    first: &mut Earliest<'a>,
)
    ensures { first.new ≡ spec.noted numbers.now externs.now first.old (spec.parts_uses parts.now) }
{
    for part in parts {
        note_part(part, numbers, externs, first);
    }
}

/// Notes the uses of functions, where the externs of their unit have these numbers in the program.
pub fn note_functions<'a>(
    functions: &[TFunction],
    numbers: &[Option<usize>],
    externs: &'a [Extern],
    first: &mut Earliest<'a>,
)
    ensures { first.new ≡ spec.noted numbers.now externs.now first.old (spec.functions_uses functions.now) }
{
    for f in functions {
        note_stmt(f.body.get(), numbers, externs, first);
    }
}
