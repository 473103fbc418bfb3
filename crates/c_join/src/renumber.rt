//! Expressions with the numbers of the program. What doesn't change is shared.
ghost use Rattle.std.specs.Prelude.{◌≡◌, IfOk, unwrap_or};
ghost use Rattle.join_laws.specs.Renumber as spec;

use c_tree::{Expr, ExprKind, Item};
use cm_base::{List, NoMemory, Shared};
use std::alloc::Global;

/// The number in the program, which is the old one where no unit defines the extern.
fn number(numbers: &[Option<u32>], n: u32) -> u32
    ensures { result ≡ spec.renumber numbers.now n }
{
    match numbers.get(n as usize) {
        Some(new) => new.unwrap_or(n),
        None => n,
    }
}

/// A new node, or the old one once more.
pub fn or_same(new: Option<Shared<Expr>>, old: &Shared<Expr>) -> Result<Shared<Expr>, NoMemory>
    ensures { IfOk result (λ r. r ≡ unwrap_or new old.now) }
{
    match new {
        Some(new) => Ok(new),
        None => old.share(),
    }
}

/// Both operands, or None where neither changes.
fn both(
    x: Option<Shared<Expr>>,
    y: Option<Shared<Expr>>,
    a: &Shared<Expr>,
    b: &Shared<Expr>,
) -> Result<Option<(Shared<Expr>, Shared<Expr>)>, NoMemory>
    ensures { IfOk result (λ r. unwrap_or r (a.now, b.now) ≡ (unwrap_or x a.now, unwrap_or y b.now)) }
{
    if x.is_none() && y.is_none() {
        return Ok(None);
    }
    Ok(Some((or_same(x, a)?, or_same(y, b)?)))
}

/// All three operands, or None where none changes.
fn all_three(
    x: Option<Shared<Expr>>,
    y: Option<Shared<Expr>>,
    z: Option<Shared<Expr>>,
    a: &Shared<Expr>,
    b: &Shared<Expr>,
    c: &Shared<Expr>,
) -> Result<Option<(Shared<Expr>, Shared<Expr>, Shared<Expr>)>, NoMemory>
    ensures { IfOk result (λ r. unwrap_or r (a.now, b.now, c.now) ≡ (unwrap_or x a.now, unwrap_or y b.now, unwrap_or z c.now)) }
{
    if x.is_none() && y.is_none() && z.is_none() {
        return Ok(None);
    }
    Ok(Some((or_same(x, a)?, or_same(y, b)?, or_same(z, c)?)))
}

/// None where nothing changes.
#[cycle(renumber)]
pub fn renumber(
    alloc: Global,
    e: &Expr,
    numbers: &[Option<u32>],
) -> Result<Option<Shared<Expr>>, NoMemory>
    ensures { IfOk result (λ r. unwrap_or r e.now ≡ spec.renumbered numbers.now e.now) }
{
    match renumber_kind(alloc, &e.kind, numbers)? {
        None => Ok(None),
        Some(kind) => {
            let ctype = e.ctype.share(alloc)?;
            let place = e.place;
            Ok(Some(Shared::new(alloc, Expr { kind, ctype, place })?))
        }
    }
}

/// None where nothing changes.
#[cycle(renumber)]
fn renumber_kind(
    alloc: Global,
    kind: &ExprKind,
    numbers: &[Option<u32>],
) -> Result<Option<ExprKind>, NoMemory>
    ensures { IfOk result (λ r. unwrap_or r kind.now ≡ spec.renumbered_kind numbers.now kind.now) }
{
    match kind {
        ExprKind::Const(_) | ExprKind::Local(_) | ExprKind::NsCaller => Ok(None),
        ExprKind::Global(n) => Ok(Some(ExprKind::Global(number(numbers, *n)))),
        ExprKind::Deref(a) => match renumber(alloc, a.get(), numbers)? {
            None => Ok(None),
            Some(a) => Ok(Some(ExprKind::Deref(a))),
        },
        ExprKind::Member(a, offset) => match renumber(alloc, a.get(), numbers)? {
            None => Ok(None),
            Some(a) => Ok(Some(ExprKind::Member(a, *offset))),
        },
        ExprKind::Addr(a) => match renumber(alloc, a.get(), numbers)? {
            None => Ok(None),
            Some(a) => Ok(Some(ExprKind::Addr(a))),
        },
        ExprKind::Convert(a) => match renumber(alloc, a.get(), numbers)? {
            None => Ok(None),
            Some(a) => Ok(Some(ExprKind::Convert(a))),
        },
        ExprKind::Unary(op, a) => match renumber(alloc, a.get(), numbers)? {
            None => Ok(None),
            Some(a) => Ok(Some(ExprKind::Unary(*op, a))),
        },
        ExprKind::Binary(op, a, b) => match both(
            renumber(alloc, a.get(), numbers)?,
            renumber(alloc, b.get(), numbers)?,
            a,
            b,
        )? {
            None => Ok(None),
            Some((a, b)) => Ok(Some(ExprKind::Binary(*op, a, b))),
        },
        ExprKind::PtrAdd(a, b, size) => match both(
            renumber(alloc, a.get(), numbers)?,
            renumber(alloc, b.get(), numbers)?,
            a,
            b,
        )? {
            None => Ok(None),
            Some((a, b)) => Ok(Some(ExprKind::PtrAdd(a, b, *size))),
        },
        ExprKind::PtrDiff(a, b, size) => match both(
            renumber(alloc, a.get(), numbers)?,
            renumber(alloc, b.get(), numbers)?,
            a,
            b,
        )? {
            None => Ok(None),
            Some((a, b)) => Ok(Some(ExprKind::PtrDiff(a, b, *size))),
        },
        ExprKind::And(a, b) => match both(
            renumber(alloc, a.get(), numbers)?,
            renumber(alloc, b.get(), numbers)?,
            a,
            b,
        )? {
            None => Ok(None),
            Some((a, b)) => Ok(Some(ExprKind::And(a, b))),
        },
        ExprKind::Or(a, b) => match both(
            renumber(alloc, a.get(), numbers)?,
            renumber(alloc, b.get(), numbers)?,
            a,
            b,
        )? {
            None => Ok(None),
            Some((a, b)) => Ok(Some(ExprKind::Or(a, b))),
        },
        ExprKind::Cond(a, b, c) => match all_three(
            renumber(alloc, a.get(), numbers)?,
            renumber(alloc, b.get(), numbers)?,
            renumber(alloc, c.get(), numbers)?,
            a,
            b,
            c,
        )? {
            None => Ok(None),
            Some((a, b, c)) => Ok(Some(ExprKind::Cond(a, b, c))),
        },
        ExprKind::Assign(a, b) => match both(
            renumber(alloc, a.get(), numbers)?,
            renumber(alloc, b.get(), numbers)?,
            a,
            b,
        )? {
            None => Ok(None),
            Some((a, b)) => Ok(Some(ExprKind::Assign(a, b))),
        },
        ExprKind::AssignOp(op, a, b) => match both(
            renumber(alloc, a.get(), numbers)?,
            renumber(alloc, b.get(), numbers)?,
            a,
            b,
        )? {
            None => Ok(None),
            Some((a, b)) => Ok(Some(ExprKind::AssignOp(*op, a, b))),
        },
        ExprKind::Step(a, by, old) => match renumber(alloc, a.get(), numbers)? {
            None => Ok(None),
            Some(a) => Ok(Some(ExprKind::Step(a, *by, *old))),
        },
        ExprKind::Comma(a, b) => match both(
            renumber(alloc, a.get(), numbers)?,
            renumber(alloc, b.get(), numbers)?,
            a,
            b,
        )? {
            None => Ok(None),
            Some((a, b)) => Ok(Some(ExprKind::Comma(a, b))),
        },
        ExprKind::Call(f, args) => {
            let args = renumber_all(alloc, args.as_slice(), numbers)?;
            Ok(Some(ExprKind::Call(number(numbers, *f), args)))
        }
        ExprKind::NsCall(p, args) => {
            let new = renumber(alloc, p.get(), numbers)?;
            let p = or_same(new, p)?;
            let args = renumber_all(alloc, args.as_slice(), numbers)?;
            Ok(Some(ExprKind::NsCall(p, args)))
        }
        ExprKind::Range(a, b, c) => match all_three(
            renumber(alloc, a.get(), numbers)?,
            renumber(alloc, b.get(), numbers)?,
            renumber(alloc, c.get(), numbers)?,
            a,
            b,
            c,
        )? {
            None => Ok(None),
            Some((a, b, c)) => Ok(Some(ExprKind::Range(a, b, c))),
        },
        ExprKind::NsCreate(a) => match renumber(alloc, a.get(), numbers)? {
            None => Ok(None),
            Some(a) => Ok(Some(ExprKind::NsCreate(a))),
        },
        ExprKind::NsTest(a) => match renumber(alloc, a.get(), numbers)? {
            None => Ok(None),
            Some(a) => Ok(Some(ExprKind::NsTest(a))),
        },
    }
}

/// All expressions of a list, each of them new or shared.
#[cycle(renumber)]
fn renumber_all(
    alloc: Global,
    es: &[Shared<Expr>],
    numbers: &[Option<u32>],
) -> Result<List<Shared<Expr>>, NoMemory>
    ensures { IfOk result (λ r. r ≡ spec.all_renumbered numbers.now es.now) }
{
    let mut done = List::new(alloc);
    for e in es {
        let new = renumber(alloc, e.get(), numbers)?;
        done.push(or_same(new, e)?)?;
    }
    Ok(done)
}

/// An expression, new or shared.
pub fn renumber_shared(
    alloc: Global,
    e: &Shared<Expr>,
    numbers: &[Option<u32>],
) -> Result<Shared<Expr>, NoMemory>
    ensures { IfOk result (λ r. r ≡ spec.renumbered numbers.now e.now) }
{
    or_same(renumber(alloc, e.get(), numbers)?, e)
}

/// An expression that may be left out.
pub fn renumber_or(
    alloc: Global,
    e: &Option<Shared<Expr>>,
    numbers: &[Option<u32>],
) -> Result<Option<Shared<Expr>>, NoMemory>
    ensures { IfOk result (λ r. r ≡ spec.renumbered_or numbers.now e.now) }
{
    match e {
        None => Ok(None),
        Some(e) => Ok(Some(renumber_shared(alloc, e, numbers)?)),
    }
}

/// The elements of an initialiser.
pub fn renumber_items(
    alloc: Global,
    items: &[Item],
    numbers: &[Option<u32>],
) -> Result<List<Item>, NoMemory>
    ensures { IfOk result (λ r. r ≡ spec.renumbered_items numbers.now items.now) }
{
    let mut done = List::new(alloc);
    for item in items {
        let value = renumber_shared(alloc, &item.value, numbers)?;
        let offset = item.offset;
        done.push(Item { offset, value })?;
    }
    Ok(done)
}
