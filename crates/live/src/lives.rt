//! What is live at the points of a function.
ghost use Rattle.std.specs.Prelude.{◌≡◌, [], ◌∷◌, ◌++◌, IfOk, map, reverse};
ghost use Rattle.mid_ir.specs.Uses.{operands, reads};
ghost use Rattle.mid_ir.specs.declared.stmt.MidStmt.{out-MidStmt};
ghost use Rattle.live.specs.Live as spec;
ghost use Rattle.live.specs.Sets.{with_all};

use crate::sets::{join, members, nothing, put, put_all, put_first};
use cm_base::{List, NoMemory};
use mid_ir::{MidFn, MidStmt, SetOp};
use std::alloc::Global;

/// The variables that are live before a statement and after it, ascending.
#[derive(Drop)]
pub struct Point {
    pub before: List<u32>,
    pub after: List<u32>,
}

/// A member for each statement of a function's body, in preorder.
#[derive(Drop)]
pub struct Lives {
    pub list: List<Point>,
}

/// Puts the variables that a statement reads into a set, those of the statements in it aside.
fn put_reads(xs: &mut List<bool>, s: &MidStmt)
    ensures { xs.new ≡ with_all xs.old (reads s.now) }
{
    match s {
        MidStmt::Set(_, op, a, b) => put_operands(xs, *op, *a, *b),
        MidStmt::Load(_, a, _, _) => put(xs, *a as usize, true),
        MidStmt::Store(a, _, v) => put_all(xs, &[*a, *v]),
        MidStmt::Call(_, _, args) => put_all(xs, args.as_slice()),
        MidStmt::NsCall(_, target, args, _) => {
            put(xs, *target as usize, true);
            put_all(xs, args.as_slice());
        }
        MidStmt::Range(_, p, n, flags) => put_all(xs, &[*p, *n, *flags]),
        MidStmt::If(v, _, _) | MidStmt::Return(v) => put(xs, *v as usize, true),
        MidStmt::Seq(_)
        | MidStmt::Const(_, _)
        | MidStmt::Home(_, _)
        | MidStmt::Caller(_)
        | MidStmt::Loop(_)
        | MidStmt::Block(_)
        | MidStmt::Break(_) => {}
    }
}

/// Puts the variables that an operator looks at into a set.
fn put_operands(xs: &mut List<bool>, op: SetOp, a: u32, b: u32)
    ensures { xs.new ≡ with_all xs.old (operands op a b) }
{
    put(xs, a as usize, true);
    match op {
        SetOp::Copy | SetOp::Sext8 | SetOp::Sext16 | SetOp::Zext8 | SetOp::Zext16 => {}
        _ => put(xs, b as usize, true),
    }
}

/// What is live before a simple statement.
fn simply(alloc: Global, s: &MidStmt, after: &[bool]) -> Result<List<bool>, NoMemory>
    ensures { IfOk result (λ xs. xs ≡ spec.simply (out-MidStmt s.now) after.now) }
{
    let mut xs = List::from_slice(alloc, after)?;
    if let Some(v) = s.sets() {
        put(&mut xs, v as usize, false);
    }
    put_reads(&mut xs, s);
    Ok(xs)
}

/// What is live behind the loop or block that a Break leaves.
fn behind(
    alloc: Global,
    k: u32,
    after: &[bool],
    around: &List<List<bool>>,
) -> Result<List<bool>, NoMemory>
    ensures { IfOk result (λ xs. xs ≡ spec.behind k after.now around.now) }
{
    let many = around.len();
    if (k as usize) < many {
        match around.get(many - 1 - k as usize) {
            Some(xs) => xs.try_clone(alloc),
            None => nothing(alloc, after.len()),
        }
    } else {
        nothing(alloc, after.len())
    }
}

/// What is live before a statement.
#[cycle(backwards)]
fn before(
    alloc: Global,
    s: &MidStmt,
    after: &[bool],
    around: &mut List<List<bool>>,
) -> Result<List<bool>, NoMemory>
    ensures { IfOk result (λ xs. (xs ≡ spec.live_before s.now after.now around.old) × (around.new ≡ around.old)) }
{
    match s {
        MidStmt::Seq(list) => {
            let xs = before_all(alloc, list.as_slice(), after, around)?;
            Ok(xs)
        }
        MidStmt::If(v, a, b) => {
            let mut xs = before(alloc, a.get(), after, around)?;
            let ys = before(alloc, b.get(), after, around)?;
            join(&mut xs, ys.as_slice());
            put(&mut xs, *v as usize, true);
            Ok(xs)
        }
        MidStmt::Loop(a) => {
            let ends = nothing(alloc, after.len())?;
            before_in(alloc, a.get(), ends.as_slice(), after, around)
        }
        MidStmt::Block(a) => before_in(alloc, a.get(), after, after, around),
        MidStmt::Break(k) => behind(alloc, *k, after, around),
        MidStmt::Return(v) => {
            let mut xs = nothing(alloc, after.len())?;
            put(&mut xs, *v as usize, true);
            Ok(xs)
        }
        _ => simply(alloc, s, after),
    }
}

/// The same of statements one after the other.
#[cycle(backwards)]
fn before_all(
    alloc: Global,
    list: &[MidStmt],
    after: &[bool],
    around: &mut List<List<bool>>,
) -> Result<List<bool>, NoMemory>
    ensures { IfOk result (λ xs. (xs ≡ spec.before_all (map spec.walk list.now) after.now around.old) × (around.new ≡ around.old)) }
{
    let mut xs = List::from_slice(alloc, after)?;
    for k in 0..list.len() {
        xs = before(alloc, &list[list.len() - 1 - k], xs.as_slice(), around)?;
    }
    Ok(xs)
}

/// The same of a statement in a loop or a block, behind which this is live.
#[cycle(backwards)]
fn before_in(
    alloc: Global,
    s: &MidStmt,
    after: &[bool],
    behind: &[bool],
    around: &mut List<List<bool>>,
) -> Result<List<bool>, NoMemory>
    ensures { IfOk result (λ xs. (xs ≡ spec.live_before s.now after.now (around.old ++ behind.now ∷ [])) × (around.new ≡ around.old)) }
{
    around.push(List::from_slice(alloc, behind)?)?;
    let xs = before(alloc, s, after, around)?;
    around.pop();
    Ok(xs)
}

/// The point before a statement that sets this variable, if any, and the one after it.
fn point_at(
    alloc: Global,
    sets: Option<u32>,
    before: &[bool],
    after: &[bool],
) -> Result<Point, NoMemory>
    ensures { IfOk result (λ p. p ≡ spec.point sets before.now after.now) }
{
    let mut behind = List::from_slice(alloc, after)?;
    if let Some(v) = sets {
        put(&mut behind, v as usize, true);
    }
    Ok(Point {
        before: members(alloc, before)?,
        after: members(alloc, behind.as_slice())?,
    })
}

/// What is live before a statement. The points of the statements in it are added, the last one first.
#[cycle(points)]
#[tactic(auto, using(crate::proofs::Orders::both_ways))]
fn inner(
    alloc: Global,
    s: &MidStmt,
    after: &[bool],
    around: &mut List<List<bool>>,
    done: &mut List<Point>,
) -> Result<List<bool>, NoMemory>
    ensures { IfOk result (λ xs. (xs ≡ spec.live_before s.now after.now around.old) × (around.new ≡ around.old)
        × (done.new ≡ done.old ++ reverse (spec.inner s.now after.now around.old))) }
{
    match s {
        MidStmt::Seq(list) => {
            let xs = inner_all(alloc, list.as_slice(), after, around, done)?;
            Ok(xs)
        }
        MidStmt::If(v, a, b) => {
            let ys = one(alloc, b.get(), after, around, done)?;
            let mut xs = one(alloc, a.get(), after, around, done)?;
            join(&mut xs, ys.as_slice());
            put(&mut xs, *v as usize, true);
            Ok(xs)
        }
        MidStmt::Loop(a) => {
            let ends = nothing(alloc, after.len())?;
            let turn = before_in(alloc, a.get(), ends.as_slice(), after, around)?;
            one_in(alloc, a.get(), turn.as_slice(), after, around, done)?;
            Ok(turn)
        }
        MidStmt::Block(a) => one_in(alloc, a.get(), after, after, around, done),
        _ => before(alloc, s, after, around),
    }
}

/// The same, with the statement's own points behind those in it.
#[cycle(points)]
fn one(
    alloc: Global,
    s: &MidStmt,
    after: &[bool],
    around: &mut List<List<bool>>,
    done: &mut List<Point>,
) -> Result<List<bool>, NoMemory>
    ensures { IfOk result (λ xs. (xs ≡ spec.live_before s.now after.now around.old) × (around.new ≡ around.old)
        × (done.new ≡ done.old ++ reverse (spec.points s.now after.now around.old))) }
{
    let xs = inner(alloc, s, after, around, done)?;
    done.push(point_at(alloc, s.sets(), xs.as_slice(), after)?)?;
    Ok(xs)
}

/// The same of a statement in a loop or a block, behind which this is live.
#[cycle(points)]
fn one_in(
    alloc: Global,
    s: &MidStmt,
    after: &[bool],
    behind: &[bool],
    around: &mut List<List<bool>>,
    done: &mut List<Point>,
) -> Result<List<bool>, NoMemory>
    ensures { IfOk result (λ xs. (xs ≡ spec.live_before s.now after.now (around.old ++ behind.now ∷ [])) × (around.new ≡ around.old)
        × (done.new ≡ done.old ++ reverse (spec.points s.now after.now (around.old ++ behind.now ∷ [])))) }
{
    around.push(List::from_slice(alloc, behind)?)?;
    let xs = one(alloc, s, after, around, done)?;
    around.pop();
    Ok(xs)
}

/// The same of statements one after the other.
#[cycle(points)]
#[tactic(auto, using(crate::proofs::Orders::back_all_is))]
fn inner_all(
    alloc: Global,
    list: &[MidStmt],
    after: &[bool],
    around: &mut List<List<bool>>,
    done: &mut List<Point>,
) -> Result<List<bool>, NoMemory>
    ensures { IfOk result (λ xs. (xs ≡ spec.before_all (map spec.walk list.now) after.now around.old) × (around.new ≡ around.old)
        × (done.new ≡ done.old ++ reverse (spec.points_all (map spec.walk list.now) after.now around.old))) }
{
    let mut xs = List::from_slice(alloc, after)?;
    for k in 0..list.len() {
        xs = one(
            alloc,
            &list[list.len() - 1 - k],
            xs.as_slice(),
            around,
            done,
        )?;
    }
    Ok(xs)
}

/// What is live at each point of a function.
pub fn live_sets(alloc: Global, f: &MidFn) -> Result<Lives, NoMemory>
    ensures { IfOk result (λ it. it.list ≡ spec.lives f.now) }
{
    let end = nothing(alloc, f.vars as usize)?;
    let mut around = List::new(alloc);
    let mut done = List::new(alloc);
    let mut xs = inner(alloc, &f.body, end.as_slice(), &mut around, &mut done)?;
    put_first(&mut xs, f.narrow.len());
    done.push(point_at(alloc, f.body.sets(), xs.as_slice(), end.as_slice())?)?;
    let mut list = done.into_vec();
    list.reverse();
    Ok(Lives {
        list: List::from_vec(list),
    })
}
