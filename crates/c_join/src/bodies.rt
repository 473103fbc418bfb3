//! Statements with the numbers of the program.
ghost use Rattle.std.specs.Prelude.{◌≡◌, IfOk};
ghost use Rattle.join_laws.specs.Renumber as spec;

use crate::renumber::{renumber_items, renumber_or, renumber_shared};
use c_tree::{Part, Stmt};
use cm_base::{List, NoMemory, Shared};
use std::alloc::Global;

/// A statement as a node.
fn node(alloc: Global, s: Stmt) -> Result<Shared<Stmt>, NoMemory>
    ensures { IfOk result (λ r. r ≡ s) }
{
    Shared::new(alloc, s)
}

/// The statement anew. Its expressions are shared where they don't change.
pub fn renumber_stmt(
    alloc: Global,
    s: &Stmt,
    numbers: &[Option<u32>],
) -> Result<Shared<Stmt>, NoMemory>
    ensures { IfOk result (λ r. r ≡ spec.renumbered_stmt numbers.now s.now) }
{
    node(alloc, stmt_anew(alloc, s, numbers)?)
}

#[cycle(stmts)]
fn stmt_anew(alloc: Global, s: &Stmt, numbers: &[Option<u32>]) -> Result<Stmt, NoMemory>
    ensures { IfOk result (λ r. r ≡ spec.renumbered_stmt numbers.now s.now) }
{
    match s {
        Stmt::Empty => Ok(Stmt::Empty),
        Stmt::Break => Ok(Stmt::Break),
        Stmt::Continue => Ok(Stmt::Continue),
        Stmt::Expr(e) => Ok(Stmt::Expr(renumber_shared(alloc, e, numbers)?)),
        Stmt::Declare { local, items } => Ok(Stmt::Declare {
            local: *local,
            items: renumber_items(alloc, items.as_slice(), numbers)?,
        }),
        Stmt::Block(list) => Ok(Stmt::Block(renumber_stmts(alloc, list.as_slice(), numbers)?)),
        Stmt::If { test, yes, no } => Ok(Stmt::If {
            test: renumber_shared(alloc, test, numbers)?,
            yes: node(alloc, stmt_anew(alloc, yes.get(), numbers)?)?,
            no: renumber_stmt_or(alloc, no, numbers)?,
        }),
        Stmt::While { test, body } => Ok(Stmt::While {
            test: renumber_shared(alloc, test, numbers)?,
            body: node(alloc, stmt_anew(alloc, body.get(), numbers)?)?,
        }),
        Stmt::DoWhile { body, test } => Ok(Stmt::DoWhile {
            body: node(alloc, stmt_anew(alloc, body.get(), numbers)?)?,
            test: renumber_shared(alloc, test, numbers)?,
        }),
        Stmt::For {
            first,
            test,
            next,
            body,
        } => Ok(Stmt::For {
            first: renumber_stmts(alloc, first.as_slice(), numbers)?,
            test: renumber_or(alloc, test, numbers)?,
            next: renumber_or(alloc, next, numbers)?,
            body: node(alloc, stmt_anew(alloc, body.get(), numbers)?)?,
        }),
        Stmt::Switch { value, parts } => Ok(Stmt::Switch {
            value: renumber_shared(alloc, value, numbers)?,
            parts: renumber_parts(alloc, parts.as_slice(), numbers)?,
        }),
        Stmt::Return(value) => Ok(Stmt::Return(renumber_or(alloc, value, numbers)?)),
    }
}

#[cycle(stmts)]
fn renumber_stmt_or(
    alloc: Global,
    s: &Option<Shared<Stmt>>,
    numbers: &[Option<u32>],
) -> Result<Option<Shared<Stmt>>, NoMemory>
    ensures { IfOk result (λ r. r ≡ spec.renumbered_stmt_or numbers.now s.now) }
{
    match s {
        None => Ok(None),
        Some(s) => Ok(Some(node(alloc, stmt_anew(alloc, s.get(), numbers)?)?)),
    }
}

#[cycle(stmts)]
fn renumber_stmts(
    alloc: Global,
    list: &[Shared<Stmt>],
    numbers: &[Option<u32>],
) -> Result<List<Shared<Stmt>>, NoMemory>
    ensures { IfOk result (λ r. r ≡ spec.renumbered_stmts numbers.now list.now) }
{
    let mut done = List::new(alloc);
    for s in list {
        done.push(node(alloc, stmt_anew(alloc, s.get(), numbers)?)?)?;
    }
    Ok(done)
}

#[cycle(stmts)]
fn renumber_part(alloc: Global, part: &Part, numbers: &[Option<u32>]) -> Result<Part, NoMemory>
    ensures { IfOk result (λ r. r ≡ spec.renumbered_part numbers.now part.now) }
{
    match part {
        Part::Case(v) => Ok(Part::Case(*v)),
        Part::Default => Ok(Part::Default),
        Part::Stmt(s) => Ok(Part::Stmt(node(alloc, stmt_anew(alloc, s.get(), numbers)?)?)),
    }
}

#[cycle(stmts)]
fn renumber_parts(
    alloc: Global,
    parts: &[Part],
    numbers: &[Option<u32>],
) -> Result<List<Part>, NoMemory>
    ensures { IfOk result (λ r. r ≡ spec.renumbered_parts numbers.now parts.now) }
{
    let mut done = List::new(alloc);
    for part in parts {
        done.push(renumber_part(alloc, part, numbers)?)?;
    }
    Ok(done)
}
