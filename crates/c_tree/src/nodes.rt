//! How many nodes a tree has.
ghost use Rattle.std.specs.Prelude.{◌≡◌};
ghost use Rattle.c_tree.specs.Limits.{capped};
ghost use Rattle.c_tree.specs.Nodes as spec;

use crate::expr::{Expr, ExprKind};
use crate::program::{TFunction, TGlobal};
use crate::stmt::{Item, Part, Stmt};
use cm_base::Shared;

#[cycle(nodes)]
fn nodes(e: &Expr) -> u64
    ensures { result ≡ capped (spec.nodes e.now) }
{
    kind_nodes(&e.kind).saturating_add(1)
}

#[cycle(nodes)]
fn kind_nodes(kind: &ExprKind) -> u64
    ensures { result ≡ capped (spec.kind_nodes kind.now) }
{
    match kind {
        ExprKind::Const(_) | ExprKind::Local(_) | ExprKind::Global(_) | ExprKind::NsCaller => 0,
        ExprKind::Deref(a)
        | ExprKind::Member(a, _)
        | ExprKind::Addr(a)
        | ExprKind::Convert(a)
        | ExprKind::Unary(_, a)
        | ExprKind::Step(a, _, _)
        | ExprKind::NsCreate(a)
        | ExprKind::NsTest(a) => nodes(a.get()),
        ExprKind::Binary(_, a, b)
        | ExprKind::PtrAdd(a, b, _)
        | ExprKind::PtrDiff(a, b, _)
        | ExprKind::And(a, b)
        | ExprKind::Or(a, b)
        | ExprKind::Assign(a, b)
        | ExprKind::AssignOp(_, a, b)
        | ExprKind::Comma(a, b) => nodes(a.get()).saturating_add(nodes(b.get())),
        ExprKind::Cond(a, b, c) | ExprKind::Range(a, b, c) => nodes(a.get())
            .saturating_add(nodes(b.get()))
            .saturating_add(nodes(c.get())),
        ExprKind::Call(_, args) => all_nodes(args.as_slice()),
        ExprKind::NsCall(p, args) => nodes(p.get()).saturating_add(all_nodes(args.as_slice())),
    }
}

#[cycle(nodes)]
fn all_nodes(es: &[Shared<Expr>]) -> u64
    ensures { result ≡ capped (spec.all_nodes es.now) }
{
    let mut n: u64 = 0;
    for e in es {
        n = n.saturating_add(nodes(e.get()));
    }
    n
}

fn nodes_or(e: &Option<Shared<Expr>>) -> u64
    ensures { result ≡ capped (spec.nodes_or e.now) }
{
    match e {
        Some(e) => nodes(e.get()),
        None => 0,
    }
}

fn items_nodes(items: &[Item]) -> u64
    ensures { result ≡ capped (spec.items_nodes items.now) }
{
    let mut n: u64 = 0;
    for item in items {
        n = n.saturating_add(nodes(item.value.get())).saturating_add(1);
    }
    n
}

#[cycle(stmts)]
fn stmt_nodes(s: &Stmt) -> u64
    ensures { result ≡ capped (spec.stmt_nodes s.now) }
{
    match s {
        Stmt::Empty | Stmt::Break | Stmt::Continue => 1,
        Stmt::Expr(e) => nodes(e.get()).saturating_add(1),
        Stmt::Declare { items, .. } => items_nodes(items.as_slice()).saturating_add(1),
        Stmt::Block(list) => stmts_nodes(list.as_slice()).saturating_add(1),
        Stmt::If { test, yes, no } => nodes(test.get())
            .saturating_add(stmt_nodes(yes.get()))
            .saturating_add(stmt_nodes_or(no))
            .saturating_add(1),
        Stmt::While { test, body } => nodes(test.get())
            .saturating_add(stmt_nodes(body.get()))
            .saturating_add(1),
        Stmt::DoWhile { body, test } => stmt_nodes(body.get())
            .saturating_add(nodes(test.get()))
            .saturating_add(1),
        Stmt::For {
            first,
            test,
            next,
            body,
        } => stmts_nodes(first.as_slice())
            .saturating_add(nodes_or(test))
            .saturating_add(nodes_or(next))
            .saturating_add(stmt_nodes(body.get()))
            .saturating_add(1),
        Stmt::Switch { value, parts } => nodes(value.get())
            .saturating_add(parts_nodes(parts.as_slice()))
            .saturating_add(1),
        Stmt::Return(value) => nodes_or(value).saturating_add(1),
    }
}

#[cycle(stmts)]
fn stmt_nodes_or(s: &Option<Shared<Stmt>>) -> u64
    ensures { result ≡ capped (spec.stmt_nodes_or s.now) }
{
    match s {
        Some(s) => stmt_nodes(s.get()),
        None => 0,
    }
}

#[cycle(stmts)]
fn stmts_nodes(list: &[Shared<Stmt>]) -> u64
    ensures { result ≡ capped (spec.stmts_nodes list.now) }
{
    let mut n: u64 = 0;
    for s in list {
        n = n.saturating_add(stmt_nodes(s.get()));
    }
    n
}

#[cycle(stmts)]
fn part_nodes(part: &Part) -> u64
    ensures { result ≡ capped (spec.part_nodes part.now) }
{
    match part {
        Part::Case(_) | Part::Default => 1,
        Part::Stmt(s) => stmt_nodes(s.get()),
    }
}

#[cycle(stmts)]
fn parts_nodes(parts: &[Part]) -> u64
    ensures { result ≡ capped (spec.parts_nodes parts.now) }
{
    let mut n: u64 = 0;
    for part in parts {
        n = n.saturating_add(part_nodes(part));
    }
    n
}

/// The nodes of a function, at most as many as a u64 counts: itself, its parameters and locals, statements, case labels,
/// expressions, and the elements that initialisers of locals set.
pub fn function_nodes(f: &TFunction) -> u64
    ensures { result ≡ capped (spec.function_nodes f.now) }
{
    (f.params.len() as u64)
        .saturating_add(f.locals.len() as u64)
        .saturating_add(stmt_nodes(f.body.get()))
        .saturating_add(1)
}

/// The nodes of a program with these functions and globals, at most as many as a u64 counts.
pub fn program_nodes(functions: &[TFunction], globals: &[TGlobal]) -> u64
    ensures { result ≡ capped (spec.program_nodes functions.now globals.now) }
{
    let mut n: u64 = 0;
    for f in functions {
        n = n.saturating_add(function_nodes(f));
    }
    n.saturating_add(globals.len() as u64)
}
