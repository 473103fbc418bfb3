//! The locals whose address is taken.
ghost use Rattle.std.specs.Prelude.{◌≡◌, ◌<◌, [], false, length, slice_index_or};
ghost use Rattle.c_tree.specs.Placed as spec;

use c_tree::{Expr, ExprKind, Item, Part, Stmt};
use cm_base::Shared;

/// One mark for each local that a function within the limit on nodes can have.
#[derive(Drop)]
pub struct Marks {
    pub set: [bool; 2048],
}

impl Marks {
    /// No mark.
    fn none() -> Marks
        ensures many { length result.set ≡ 2048 }
        ensures clear { spec.AreMarks result.set [] }
    {
        Marks { set: [false; 2048] }
    }

    /// Marks a local, if there is one.
    fn mark(&mut self, local: Option<u32>)
        ensures { self.new.set ≡ spec.marked self.old.set (spec.listed local) }
    {
        if let Some(n) = local {
            if (n as usize) < 2048 {
                self.set[n as usize] = true;
            }
        }
    }

    /// Whether a local is marked.
    pub fn has(&self, n: usize) -> bool
        requires { n < 2048 }
        ensures { result ≡ slice_index_or self.now.set n false }
    {
        self.set[n]
    }
}

/// Marks the locals whose address an expression takes, and answers the local that it is, or is a part of.
#[cycle(marks)]
fn mark_expr(e: &Expr, marks: &mut Marks) -> Option<u32>
    ensures base { result ≡ spec.base_of e.now }
    ensures marks { marks.new.set ≡ spec.marked marks.old.set (spec.taken e.now) }
{
    mark_kind(&e.kind, marks)
}

#[cycle(marks)]
fn mark_kind(kind: &ExprKind, marks: &mut Marks) -> Option<u32>
    ensures base { result ≡ spec.kind_base kind.now }
    ensures marks { marks.new.set ≡ spec.marked marks.old.set (spec.kind_taken kind.now) }
{
    match kind {
        ExprKind::Const(_) | ExprKind::Global(_) | ExprKind::NsCaller => None,
        ExprKind::Local(n) => Some(*n),
        ExprKind::Member(a, _) => mark_expr(a.get(), marks),
        ExprKind::Addr(a) => {
            let base = mark_expr(a.get(), marks);
            marks.mark(base);
            None
        }
        ExprKind::Deref(a)
        | ExprKind::Convert(a)
        | ExprKind::Unary(_, a)
        | ExprKind::Step(a, _, _)
        | ExprKind::NsCreate(a)
        | ExprKind::NsTest(a) => {
            let _ = mark_expr(a.get(), marks);
            None
        }
        ExprKind::Binary(_, a, b)
        | ExprKind::PtrAdd(a, b, _)
        | ExprKind::PtrDiff(a, b, _)
        | ExprKind::And(a, b)
        | ExprKind::Or(a, b)
        | ExprKind::Assign(a, b)
        | ExprKind::AssignOp(_, a, b)
        | ExprKind::Comma(a, b) => {
            let _ = mark_expr(a.get(), marks);
            let _ = mark_expr(b.get(), marks);
            None
        }
        ExprKind::Cond(a, b, c) | ExprKind::Range(a, b, c) => {
            let _ = mark_expr(a.get(), marks);
            let _ = mark_expr(b.get(), marks);
            let _ = mark_expr(c.get(), marks);
            None
        }
        ExprKind::Call(_, args) => {
            mark_exprs(args.as_slice(), marks);
            None
        }
        ExprKind::NsCall(p, args) => {
            let _ = mark_expr(p.get(), marks);
            mark_exprs(args.as_slice(), marks);
            None
        }
    }
}

#[cycle(marks)]
fn mark_exprs(es: &[Shared<Expr>], marks: &mut Marks)
    ensures { marks.new.set ≡ spec.marked marks.old.set (spec.all_taken es.now) }
{
    for e in es {
        let _ = mark_expr(e.get(), marks);
    }
}

fn mark_or(e: &Option<Shared<Expr>>, marks: &mut Marks)
    ensures { marks.new.set ≡ spec.marked marks.old.set (spec.taken_or e.now) }
{
    if let Some(e) = e {
        let _ = mark_expr(e.get(), marks);
    }
}

fn mark_items(items: &[Item], marks: &mut Marks)
    ensures { marks.new.set ≡ spec.marked marks.old.set (spec.items_taken items.now) }
{
    for item in items {
        let _ = mark_expr(item.value.get(), marks);
    }
}

#[cycle(stmts)]
fn mark_stmt(s: &Stmt, marks: &mut Marks)
    ensures { marks.new.set ≡ spec.marked marks.old.set (spec.stmt_taken s.now) }
{
    match s {
        Stmt::Empty | Stmt::Break | Stmt::Continue => {}
        Stmt::Expr(e) => {
            let _ = mark_expr(e.get(), marks);
        }
        Stmt::Declare { items, .. } => mark_items(items.as_slice(), marks),
        Stmt::Block(list) => mark_stmts(list.as_slice(), marks),
        Stmt::If { test, yes, no } => {
            let _ = mark_expr(test.get(), marks);
            mark_stmt(yes.get(), marks);
            mark_stmt_or(no, marks);
        }
        Stmt::While { test, body } => {
            let _ = mark_expr(test.get(), marks);
            mark_stmt(body.get(), marks);
        }
        Stmt::DoWhile { body, test } => {
            mark_stmt(body.get(), marks);
            let _ = mark_expr(test.get(), marks);
        }
        Stmt::For {
            first,
            test,
            next,
            body,
        } => {
            mark_stmts(first.as_slice(), marks);
            mark_or(test, marks);
            mark_or(next, marks);
            mark_stmt(body.get(), marks);
        }
        Stmt::Switch { value, parts } => {
            let _ = mark_expr(value.get(), marks);
            mark_parts(parts.as_slice(), marks);
        }
        Stmt::Return(value) => mark_or(value, marks),
    }
}

#[cycle(stmts)]
fn mark_stmt_or(s: &Option<Shared<Stmt>>, marks: &mut Marks)
    ensures { marks.new.set ≡ spec.marked marks.old.set (spec.stmt_taken_or s.now) }
{
    if let Some(s) = s {
        mark_stmt(s.get(), marks);
    }
}

#[cycle(stmts)]
fn mark_stmts(list: &[Shared<Stmt>], marks: &mut Marks)
    ensures { marks.new.set ≡ spec.marked marks.old.set (spec.stmts_taken list.now) }
{
    for s in list {
        mark_stmt(s.get(), marks);
    }
}

#[cycle(stmts)]
fn mark_part(part: &Part, marks: &mut Marks)
    ensures { marks.new.set ≡ spec.marked marks.old.set (spec.part_taken part.now) }
{
    match part {
        Part::Case(_) | Part::Default => {}
        Part::Stmt(s) => mark_stmt(s.get(), marks),
    }
}

#[cycle(stmts)]
fn mark_parts(parts: &[Part], marks: &mut Marks)
    ensures { marks.new.set ≡ spec.marked marks.old.set (spec.parts_taken parts.now) }
{
    for part in parts {
        mark_part(part, marks);
    }
}

/// The locals whose address a statement takes are marked, and no others.
pub fn marks_of(body: &Stmt) -> Marks
    ensures { spec.AreMarks result.set (spec.stmt_taken body.now) }
{
    let mut marks = Marks::none();
    mark_stmt(body, &mut marks);
    marks
}
