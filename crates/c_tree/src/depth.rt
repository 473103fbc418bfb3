//! How many values an expression holds at once.
ghost use Rattle.std.specs.Prelude.{◌≡◌, ◌≤◌};
ghost use Rattle.c_tree.specs.Limits.{capped};
ghost use Rattle.c_tree.specs.Depth as spec;

use crate::expr::{Expr, ExprKind};
use crate::program::TFunction;
use crate::stmt::{Item, Part, Stmt};
use cm_base::Shared;

#[cycle(depth)]
fn depth(e: &Expr) -> u64
    ensures { result ≡ capped (spec.depth e.now) }
{
    kind_depth(&e.kind)
}

#[cycle(depth)]
fn kind_depth(kind: &ExprKind) -> u64
    ensures { result ≡ capped (spec.kind_depth kind.now) }
{
    match kind {
        ExprKind::Const(_) | ExprKind::Local(_) | ExprKind::Global(_) | ExprKind::NsCaller => 1,
        ExprKind::Deref(a)
        | ExprKind::Member(a, _)
        | ExprKind::Addr(a)
        | ExprKind::Convert(a)
        | ExprKind::Unary(_, a)
        | ExprKind::Step(a, _, _)
        | ExprKind::NsCreate(a)
        | ExprKind::NsTest(a) => depth(a.get()),
        ExprKind::Binary(_, a, b)
        | ExprKind::PtrAdd(a, b, _)
        | ExprKind::PtrDiff(a, b, _)
        | ExprKind::Assign(a, b)
        | ExprKind::AssignOp(_, a, b) => depth(a.get()).max(depth(b.get()).saturating_add(1)),
        ExprKind::And(a, b) | ExprKind::Or(a, b) | ExprKind::Comma(a, b) => {
            depth(a.get()).max(depth(b.get()))
        }
        ExprKind::Cond(a, b, c) => depth(a.get()).max(depth(b.get())).max(depth(c.get())),
        ExprKind::Range(a, b, c) => depth(a.get())
            .max(depth(b.get()).saturating_add(1))
            .max(depth(c.get()).saturating_add(2)),
        ExprKind::Call(_, args) => args_depth(args.as_slice(), 0),
        ExprKind::NsCall(p, args) => depth(p.get()).max(args_depth(args.as_slice(), 1)),
    }
}

/// So many operands stand before these.
#[cycle(depth)]
fn args_depth(args: &[Shared<Expr>], before: u64) -> u64
    requires { before ≤ 1 }
    ensures { result ≡ capped (spec.args_depth before args.now) }
{
    let mut most: u64 = 1;
    let mut held = before;
    for arg in args {
        most = most.max(depth(arg.get()).saturating_add(held));
        held += 1;
    }
    most
}

fn depth_or(e: &Option<Shared<Expr>>) -> u64
    ensures { result ≡ capped (spec.depth_or e.now) }
{
    match e {
        Some(e) => depth(e.get()),
        None => 0,
    }
}

fn items_depth(items: &[Item]) -> u64
    ensures { result ≡ capped (spec.items_depth items.now) }
{
    let mut most: u64 = 0;
    for item in items {
        most = most.max(depth(item.value.get()).saturating_add(1));
    }
    most
}

#[cycle(stmts)]
fn stmt_depth(s: &Stmt) -> u64
    ensures { result ≡ capped (spec.stmt_depth s.now) }
{
    match s {
        Stmt::Empty | Stmt::Break | Stmt::Continue => 0,
        Stmt::Expr(e) => depth(e.get()),
        Stmt::Declare { items, .. } => items_depth(items.as_slice()),
        Stmt::Block(list) => stmts_depth(list.as_slice()),
        Stmt::If { test, yes, no } => depth(test.get())
            .max(stmt_depth(yes.get()))
            .max(stmt_depth_or(no)),
        Stmt::While { test, body } => depth(test.get()).max(stmt_depth(body.get())),
        Stmt::DoWhile { body, test } => stmt_depth(body.get()).max(depth(test.get())),
        Stmt::For {
            first,
            test,
            next,
            body,
        } => stmts_depth(first.as_slice())
            .max(depth_or(test))
            .max(depth_or(next))
            .max(stmt_depth(body.get())),
        Stmt::Switch { value, parts } => depth(value.get()).max(parts_depth(parts.as_slice())),
        Stmt::Return(value) => depth_or(value),
    }
}

#[cycle(stmts)]
fn stmt_depth_or(s: &Option<Shared<Stmt>>) -> u64
    ensures { result ≡ capped (spec.stmt_depth_or s.now) }
{
    match s {
        Some(s) => stmt_depth(s.get()),
        None => 0,
    }
}

#[cycle(stmts)]
fn stmts_depth(list: &[Shared<Stmt>]) -> u64
    ensures { result ≡ capped (spec.stmts_depth list.now) }
{
    let mut most: u64 = 0;
    for s in list {
        most = most.max(stmt_depth(s.get()));
    }
    most
}

#[cycle(stmts)]
fn part_depth(part: &Part) -> u64
    ensures { result ≡ capped (spec.part_depth part.now) }
{
    match part {
        Part::Case(_) | Part::Default => 0,
        Part::Stmt(s) => stmt_depth(s.get()),
    }
}

#[cycle(stmts)]
fn parts_depth(parts: &[Part]) -> u64
    ensures { result ≡ capped (spec.parts_depth parts.now) }
{
    let mut most: u64 = 0;
    for part in parts {
        most = most.max(part_depth(part));
    }
    most
}

/// The greatest depth of an expression of a function, at most as much as a u64 counts.
pub fn function_depth(f: &TFunction) -> u64
    ensures { result ≡ capped (spec.function_depth f.now) }
{
    stmt_depth(f.body.get())
}
