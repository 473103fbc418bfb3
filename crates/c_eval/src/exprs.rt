//! Expressions.

ghost use Rattle.std.specs.Prelude.{◌≡◌, map};
ghost use Rattle.c_eval.specs.Steps as spec;
ghost use Rattle.c_mean.specs.Exprs.{sense};
ghost use Rattle.c_tree.specs.declared.expr.ExprKind.TheOpen as k;
ghost use Rattle.c_world.specs.Seen as world;

use crate::boundary::ns_value;
use crate::calls::call_value;
use c_const::{is_signed, operate_one};
use c_memory::align;
use c_tree::{BinOp, Expr, ExprKind};
use c_types::CType;
use c_world::{
    At, Halt, Live, Plan, Setup, Spot, address, caller, change, checked_range, converted,
    difference, local_spot, moved, operated, pointer_sum, read, step, tested, truth, write,
};
use cm_base::{List, Shared};
use std::alloc::Global;

/// How many calls of the evaluator may nest in one that may have this many.
pub fn less(left: u64) -> Result<u64, Halt>
    ensures { spec.IsLess result left }
{
    if left == 0 {
        return Err(Halt::NoMemory);
    }
    Ok(left - 1)
}

/// The value of an expression.
#[cycle(run)]
#[tactic(auto, using(crate::proofs::Steps::steps))]
pub fn value(
    alloc: Global,
    setup: &Setup<'_>,
    plan: &Plan,
    at: &At,
    left: u64,
    live: &mut Live,
    locals: &mut List<u32>,
    e: &Expr,
) -> Result<u32, Halt>
    ensures { world.Leaves result locals.new (world.seen setup.now.script live.new)
        (spec.value_at setup.now plan.now at.now e.now locals.old (world.seen setup.now.script live.old)) }
{
    let left = less(left)?;
    match &e.kind {
        ExprKind::Const(n) => Ok(*n),
        ExprKind::Local(n) => {
            let spot = local_spot(plan, at, *n)?;
            read(live, locals.as_slice(), &e.ctype, spot)
        },
        ExprKind::Global(n) => read(live, locals.as_slice(), &e.ctype, Spot::At(setup.home(*n))),
        ExprKind::Deref(a) => {
            let x = value(alloc, setup, plan, at, left, live, locals, a.get())?;
            read(live, locals.as_slice(), &e.ctype, Spot::At(x))
        },
        ExprKind::Member(a, offset) => {
            let spot = place(alloc, setup, plan, at, left, live, locals, a.get())?;
            read(live, locals.as_slice(), &e.ctype, moved(spot, *offset))
        },
        ExprKind::Addr(a) => {
            let spot = place(alloc, setup, plan, at, left, live, locals, a.get())?;
            Ok(address(spot))
        },
        ExprKind::Convert(a) => {
            let x = value(alloc, setup, plan, at, left, live, locals, a.get())?;
            Ok(converted(&e.ctype, x))
        },
        ExprKind::Unary(op, a) => {
            let x = value(alloc, setup, plan, at, left, live, locals, a.get())?;
            Ok(operate_one(*op, x))
        },
        ExprKind::Comma(a, b) => {
            let _x = value(alloc, setup, plan, at, left, live, locals, a.get())?;
            value(alloc, setup, plan, at, left, live, locals, b.get())
        },
        ExprKind::NsCreate(a) => {
            let x = value(alloc, setup, plan, at, left, live, locals, a.get())?;
            Ok(align(2, x))
        },
        ExprKind::NsTest(a) => {
            let x = value(alloc, setup, plan, at, left, live, locals, a.get())?;
            Ok(truth(x % 2 == 0))
        },
        ExprKind::NsCaller => Ok(caller(at)),
        ExprKind::Binary(op, a, b) => binary(
            alloc,
            setup,
            plan,
            at,
            left,
            live,
            locals,
            *op,
            a.get(),
            b.get(),
        ),
        ExprKind::PtrAdd(a, b, size) => moved_pointer(
            alloc,
            setup,
            plan,
            at,
            left,
            live,
            locals,
            a.get(),
            b.get(),
            *size,
        ),
        ExprKind::PtrDiff(a, b, size) => pointer_difference(
            alloc,
            setup,
            plan,
            at,
            left,
            live,
            locals,
            a.get(),
            b.get(),
            *size,
        ),
        ExprKind::And(a, b) => both(alloc, setup, plan, at, left, live, locals, a.get(), b.get()),
        ExprKind::Or(a, b) => either(alloc, setup, plan, at, left, live, locals, a.get(), b.get()),
        ExprKind::Cond(c, a, b) => chosen(
            alloc,
            setup,
            plan,
            at,
            left,
            live,
            locals,
            c.get(),
            a.get(),
            b.get(),
        ),
        ExprKind::Assign(to, a) => assigned(
            alloc,
            setup,
            plan,
            at,
            left,
            live,
            locals,
            &e.ctype,
            to.get(),
            a.get(),
        ),
        ExprKind::AssignOp(op, to, a) => changed(
            alloc,
            setup,
            plan,
            at,
            left,
            live,
            locals,
            &e.ctype,
            *op,
            to.get(),
            a.get(),
        ),
        ExprKind::Step(to, by, old) => stepped(
            alloc,
            setup,
            plan,
            at,
            left,
            live,
            locals,
            &e.ctype,
            to.get(),
            *by,
            *old,
        ),
        ExprKind::Call(n, args) => call(
            alloc,
            setup,
            plan,
            at,
            left,
            live,
            locals,
            *n,
            args.as_slice(),
        ),
        ExprKind::NsCall(p, args) => ns_call(
            alloc,
            setup,
            plan,
            at,
            left,
            live,
            locals,
            &e.ctype,
            p.get(),
            args.as_slice(),
        ),
        ExprKind::Range(a, b, c) => range(
            alloc,
            setup,
            plan,
            at,
            left,
            live,
            locals,
            a.get(),
            b.get(),
            c.get(),
        ),
    }
}

/// The place that an expression is.
#[cycle(run)]
#[tactic(auto, using(crate::proofs::Steps::steps))]
fn place(
    alloc: Global,
    setup: &Setup<'_>,
    plan: &Plan,
    at: &At,
    left: u64,
    live: &mut Live,
    locals: &mut List<u32>,
    e: &Expr,
) -> Result<Spot, Halt>
    ensures { world.Places result locals.new (world.seen setup.now.script live.new)
        (spec.place_at setup.now plan.now at.now e.now locals.old (world.seen setup.now.script live.old)) }
{
    let left = less(left)?;
    match &e.kind {
        ExprKind::Local(n) => local_spot(plan, at, *n),
        ExprKind::Global(n) => Ok(Spot::At(setup.home(*n))),
        ExprKind::Deref(a) => {
            let x = value(alloc, setup, plan, at, left, live, locals, a.get())?;
            Ok(Spot::At(x))
        }
        ExprKind::Member(a, offset) => {
            let spot = place(alloc, setup, plan, at, left, live, locals, a.get())?;
            Ok(moved(spot, *offset))
        }
        _ => Ok(Spot::At(0)),
    }
}

/// An operator on two operands.
#[cycle(run)]
#[tactic(auto, using(crate::proofs::Steps::steps))]
fn binary(
    alloc: Global,
    setup: &Setup<'_>,
    plan: &Plan,
    at: &At,
    left: u64,
    live: &mut Live,
    locals: &mut List<u32>,
    op: BinOp,
    a: &Expr,
    b: &Expr,
) -> Result<u32, Halt>
    ensures { world.Leaves result locals.new (world.seen setup.now.script live.new)
        (spec.any_at setup.now plan.now at.now (k.Binary op (sense a.now) (sense b.now)) locals.old (world.seen setup.now.script live.old)) }
{
    let x = value(alloc, setup, plan, at, left, live, locals, a)?;
    let y = value(alloc, setup, plan, at, left, live, locals, b)?;
    operated(live, op, is_signed(&a.ctype), x, y)
}

/// A pointer so many objects of a size on.
#[cycle(run)]
#[tactic(auto, using(crate::proofs::Steps::steps))]
fn moved_pointer(
    alloc: Global,
    setup: &Setup<'_>,
    plan: &Plan,
    at: &At,
    left: u64,
    live: &mut Live,
    locals: &mut List<u32>,
    a: &Expr,
    b: &Expr,
    size: u32,
) -> Result<u32, Halt>
    ensures { world.Leaves result locals.new (world.seen setup.now.script live.new)
        (spec.any_at setup.now plan.now at.now (k.PtrAdd (sense a.now) (sense b.now) size) locals.old (world.seen setup.now.script live.old)) }
{
    let x = value(alloc, setup, plan, at, left, live, locals, a)?;
    let y = value(alloc, setup, plan, at, left, live, locals, b)?;
    Ok(pointer_sum(size, x, y))
}

/// How many objects of a size two pointers are apart.
#[cycle(run)]
#[tactic(auto, using(crate::proofs::Steps::steps))]
fn pointer_difference(
    alloc: Global,
    setup: &Setup<'_>,
    plan: &Plan,
    at: &At,
    left: u64,
    live: &mut Live,
    locals: &mut List<u32>,
    a: &Expr,
    b: &Expr,
    size: u32,
) -> Result<u32, Halt>
    ensures { world.Leaves result locals.new (world.seen setup.now.script live.new)
        (spec.any_at setup.now plan.now at.now (k.PtrDiff (sense a.now) (sense b.now) size) locals.old (world.seen setup.now.script live.old)) }
{
    let x = value(alloc, setup, plan, at, left, live, locals, a)?;
    let y = value(alloc, setup, plan, at, left, live, locals, b)?;
    difference(live, x, y, size)
}

/// `&&`.
#[cycle(run)]
#[tactic(auto, using(crate::proofs::Steps::steps))]
fn both(
    alloc: Global,
    setup: &Setup<'_>,
    plan: &Plan,
    at: &At,
    left: u64,
    live: &mut Live,
    locals: &mut List<u32>,
    a: &Expr,
    b: &Expr,
) -> Result<u32, Halt>
    ensures { world.Leaves result locals.new (world.seen setup.now.script live.new)
        (spec.any_at setup.now plan.now at.now (k.And (sense a.now) (sense b.now)) locals.old (world.seen setup.now.script live.old)) }
{
    let x = value(alloc, setup, plan, at, left, live, locals, a)?;
    if x == 0 {
        return Ok(0);
    }
    let y = value(alloc, setup, plan, at, left, live, locals, b)?;
    Ok(tested(y))
}

/// `||`.
#[cycle(run)]
#[tactic(auto, using(crate::proofs::Steps::steps))]
fn either(
    alloc: Global,
    setup: &Setup<'_>,
    plan: &Plan,
    at: &At,
    left: u64,
    live: &mut Live,
    locals: &mut List<u32>,
    a: &Expr,
    b: &Expr,
) -> Result<u32, Halt>
    ensures { world.Leaves result locals.new (world.seen setup.now.script live.new)
        (spec.any_at setup.now plan.now at.now (k.Or (sense a.now) (sense b.now)) locals.old (world.seen setup.now.script live.old)) }
{
    let x = value(alloc, setup, plan, at, left, live, locals, a)?;
    if x != 0 {
        return Ok(1);
    }
    let y = value(alloc, setup, plan, at, left, live, locals, b)?;
    Ok(tested(y))
}

/// `? :`.
#[cycle(run)]
#[tactic(auto, using(crate::proofs::Steps::steps))]
fn chosen(
    alloc: Global,
    setup: &Setup<'_>,
    plan: &Plan,
    at: &At,
    left: u64,
    live: &mut Live,
    locals: &mut List<u32>,
    c: &Expr,
    a: &Expr,
    b: &Expr,
) -> Result<u32, Halt>
    ensures { world.Leaves result locals.new (world.seen setup.now.script live.new)
        (spec.any_at setup.now plan.now at.now (k.Cond (sense c.now) (sense a.now) (sense b.now)) locals.old (world.seen setup.now.script live.old)) }
{
    let x = value(alloc, setup, plan, at, left, live, locals, c)?;
    if x == 0 {
        return value(alloc, setup, plan, at, left, live, locals, b);
    }
    value(alloc, setup, plan, at, left, live, locals, a)
}

/// `=`.
#[cycle(run)]
#[tactic(auto, using(crate::proofs::Steps::steps))]
fn assigned(
    alloc: Global,
    setup: &Setup<'_>,
    plan: &Plan,
    at: &At,
    left: u64,
    live: &mut Live,
    locals: &mut List<u32>,
    t: &CType,
    to: &Expr,
    a: &Expr,
) -> Result<u32, Halt>
    ensures { world.Leaves result locals.new (world.seen setup.now.script live.new)
        (spec.kind_at setup.now plan.now at.now (k.Assign (sense to.now) (sense a.now)) t.now locals.old (world.seen setup.now.script live.old)) }
{
    let spot = place(alloc, setup, plan, at, left, live, locals, to)?;
    let x = value(alloc, setup, plan, at, left, live, locals, a)?;
    write(live, locals, t, spot, x)
}

/// `op=`: the old value is read after the right operand.
#[cycle(run)]
#[tactic(auto, using(crate::proofs::Steps::steps))]
fn changed(
    alloc: Global,
    setup: &Setup<'_>,
    plan: &Plan,
    at: &At,
    left: u64,
    live: &mut Live,
    locals: &mut List<u32>,
    t: &CType,
    op: BinOp,
    to: &Expr,
    a: &Expr,
) -> Result<u32, Halt>
    ensures { world.Leaves result locals.new (world.seen setup.now.script live.new)
        (spec.kind_at setup.now plan.now at.now (k.AssignOp op (sense to.now) (sense a.now)) t.now locals.old (world.seen setup.now.script live.old)) }
{
    let spot = place(alloc, setup, plan, at, left, live, locals, to)?;
    let y = value(alloc, setup, plan, at, left, live, locals, a)?;
    change(live, locals, op, t, &a.ctype, spot, y)
}

/// `++` and `--`.
#[cycle(run)]
#[tactic(auto, using(crate::proofs::Steps::steps))]
fn stepped(
    alloc: Global,
    setup: &Setup<'_>,
    plan: &Plan,
    at: &At,
    left: u64,
    live: &mut Live,
    locals: &mut List<u32>,
    t: &CType,
    to: &Expr,
    by: u32,
    old: bool,
) -> Result<u32, Halt>
    ensures { world.Leaves result locals.new (world.seen setup.now.script live.new)
        (spec.kind_at setup.now plan.now at.now (k.Step (sense to.now) by old) t.now locals.old (world.seen setup.now.script live.old)) }
{
    let spot = place(alloc, setup, plan, at, left, live, locals, to)?;
    step(live, locals, t, spot, by, old)
}

/// A call of a function by its number.
#[cycle(run)]
#[tactic(auto, using(crate::proofs::Steps::steps))]
fn call(
    alloc: Global,
    setup: &Setup<'_>,
    plan: &Plan,
    at: &At,
    left: u64,
    live: &mut Live,
    locals: &mut List<u32>,
    n: u32,
    args: &[Shared<Expr>],
) -> Result<u32, Halt>
    ensures { world.Leaves result locals.new (world.seen setup.now.script live.new)
        (spec.any_at setup.now plan.now at.now (k.Call n (map sense args.now)) locals.old (world.seen setup.now.script live.old)) }
{
    let xs = values(alloc, setup, plan, at, left, live, locals, args)?;
    call_value(alloc, setup, plan, at, left, live, n, xs.as_slice())
}

/// A Non-secure call. The pointer comes before its arguments.
#[cycle(run)]
#[tactic(auto, using(crate::proofs::Steps::steps))]
fn ns_call(
    alloc: Global,
    setup: &Setup<'_>,
    plan: &Plan,
    at: &At,
    left: u64,
    live: &mut Live,
    locals: &mut List<u32>,
    t: &CType,
    p: &Expr,
    args: &[Shared<Expr>],
) -> Result<u32, Halt>
    ensures { world.Leaves result locals.new (world.seen setup.now.script live.new)
        (spec.kind_at setup.now plan.now at.now (k.NsCall (sense p.now) (map sense args.now)) t.now locals.old (world.seen setup.now.script live.old)) }
{
    let x = value(alloc, setup, plan, at, left, live, locals, p)?;
    let xs = values(alloc, setup, plan, at, left, live, locals, args)?;
    ns_value(alloc, setup, plan, at, left, live, t, align(2, x), xs)
}

/// The check of an address range.
#[cycle(run)]
#[tactic(auto, using(crate::proofs::Steps::steps))]
fn range(
    alloc: Global,
    setup: &Setup<'_>,
    plan: &Plan,
    at: &At,
    left: u64,
    live: &mut Live,
    locals: &mut List<u32>,
    a: &Expr,
    b: &Expr,
    c: &Expr,
) -> Result<u32, Halt>
    ensures { world.Leaves result locals.new (world.seen setup.now.script live.new)
        (spec.any_at setup.now plan.now at.now (k.Range (sense a.now) (sense b.now) (sense c.now)) locals.old (world.seen setup.now.script live.old)) }
{
    let x = value(alloc, setup, plan, at, left, live, locals, a)?;
    let y = value(alloc, setup, plan, at, left, live, locals, b)?;
    let z = value(alloc, setup, plan, at, left, live, locals, c)?;
    Ok(checked_range(x, y, z))
}

/// The values of arguments.
#[cycle(run)]
#[tactic(auto, using(crate::proofs::Steps::steps))]
fn values(
    alloc: Global,
    setup: &Setup<'_>,
    plan: &Plan,
    at: &At,
    left: u64,
    live: &mut Live,
    locals: &mut List<u32>,
    es: &[Shared<Expr>],
) -> Result<List<u32>, Halt>
    ensures { world.Leaves result locals.new (world.seen setup.now.script live.new)
        (spec.values_at setup.now plan.now at.now es.now locals.old (world.seen setup.now.script live.old)) }
{
    let mut done = List::new(alloc);
    for e in es {
        let x = value(alloc, setup, plan, at, left, live, locals, e.get())?;
        done.push(x)?;
    }
    Ok(done)
}
