//! Statements.

ghost use Rattle.std.specs.Prelude.{◌≡◌, ℕ, List, drop, map, option_map};
ghost use Rattle.c_eval.specs.Steps as spec;
ghost use Rattle.c_mean.specs.Parts.{Has, after_switch};
ghost use Rattle.c_mean.specs.Stmts.{arm, does, skipped};
ghost use Rattle.c_tree.specs.declared.stmt.Part.TheOpen as s;
ghost use Rattle.c_world.specs.Here.{here};
ghost use Rattle.ns_types.specs.CRun.{World};
ghost use Rattle.c_world.specs.Seen as world;

use crate::exprs::{less, value};
use c_mean::Flow;
use c_tree::{Expr, Item, Part, Stmt};
use c_world::{At, Halt, Live, Plan, Setup, Spot, local_spot, moved, returned, skipped, write};
use cm_base::{List, Shared};
use ns_types::End;
use std::alloc::Global;

/// A statement.
#[cycle(run)]
#[tactic(auto, using(crate::proofs::Steps::steps))]
pub fn exec(
    alloc: Global,
    setup: &Setup<'_>,
    plan: &Plan,
    at: &At,
    left: u64,
    live: &mut Live,
    locals: &mut List<u32>,
    x: &Stmt,
) -> Result<Flow, Halt>
    ensures { world.Leaves result locals.new (world.seen setup.now.script live.new)
        (spec.does_at setup.now plan.now at.now x.now locals.old (world.seen setup.now.script live.old)) }
{
    let left = less(left)?;
    match x {
        Stmt::Empty => Ok(Flow::Next),
        Stmt::Break => Ok(Flow::Break),
        Stmt::Continue => Ok(Flow::Continue),
        Stmt::Expr(e) => {
            let _x = value(alloc, setup, plan, at, left, live, locals, e.get())?;
            Ok(Flow::Next)
        },
        Stmt::Declare { local, items } => declare(
            alloc,
            setup,
            plan,
            at,
            left,
            live,
            locals,
            *local,
            items.as_slice(),
        ),
        Stmt::Block(list) => in_order(alloc, setup, plan, at, left, live, locals, list.as_slice()),
        Stmt::If { test, yes, no } => either(
            alloc,
            setup,
            plan,
            at,
            left,
            live,
            locals,
            test.get(),
            yes.get(),
            no,
        ),
        Stmt::While { test, body } => while_loop(
            alloc,
            setup,
            plan,
            at,
            left,
            live,
            locals,
            test.get(),
            body.get(),
        ),
        Stmt::DoWhile { body, test } => do_loop(
            alloc,
            setup,
            plan,
            at,
            left,
            live,
            locals,
            body.get(),
            test.get(),
        ),
        Stmt::For {
            first,
            test,
            next,
            body,
        } => for_loop(
            alloc,
            setup,
            plan,
            at,
            left,
            live,
            locals,
            first.as_slice(),
            test,
            next,
            body.get(),
        ),
        Stmt::Switch { value, parts } => switch(
            alloc,
            setup,
            plan,
            at,
            left,
            live,
            locals,
            value.get(),
            parts.as_slice(),
        ),
        Stmt::Return(value) => gives(alloc, setup, plan, at, left, live, locals, value),
    }
}

/// The elements of an initialiser.
#[cycle(run)]
#[tactic(auto, using(crate::proofs::Steps::steps))]
fn declare(
    alloc: Global,
    setup: &Setup<'_>,
    plan: &Plan,
    at: &At,
    left: u64,
    live: &mut Live,
    locals: &mut List<u32>,
    local: u32,
    items: &[Item],
) -> Result<Flow, Halt>
    ensures { world.Leaves result locals.new (world.seen setup.now.script live.new)
        (spec.stmt_at setup.now plan.now at.now (s.Declare local items.now) locals.old (world.seen setup.now.script live.old)) }
{
    let spot = local_spot(plan, at, local)?;
    set_items(alloc, setup, plan, at, left, live, locals, items, spot)
}

/// The elements of an initialiser are written, each so many bytes behind a spot.
#[cycle(run)]
#[tactic(auto, using(crate::proofs::Steps::steps))]
fn set_items(
    alloc: Global,
    setup: &Setup<'_>,
    plan: &Plan,
    at: &At,
    left: u64,
    live: &mut Live,
    locals: &mut List<u32>,
    items: &[Item],
    spot: Spot,
) -> Result<Flow, Halt>
    ensures { world.Leaves result locals.new (world.seen setup.now.script live.new)
        (spec.items_at setup.now plan.now at.now items.now (world.spot_of spot) locals.old (world.seen setup.now.script live.old)) }
{
    for item in items {
        let x = value(alloc, setup, plan, at, left, live, locals, item.value.get())?;
        let _y = write(
            live,
            locals,
            &item.value.get().ctype,
            moved(spot, item.offset),
            x,
        )?;
    }
    Ok(Flow::Next)
}

/// Statements, one after another.
#[cycle(run)]
#[tactic(auto, using(crate::proofs::Steps::steps))]
fn in_order(
    alloc: Global,
    setup: &Setup<'_>,
    plan: &Plan,
    at: &At,
    left: u64,
    live: &mut Live,
    locals: &mut List<u32>,
    list: &[Shared<Stmt>],
) -> Result<Flow, Halt>
    ensures { world.Leaves result locals.new (world.seen setup.now.script live.new)
        (spec.all_at setup.now plan.now at.now list.now locals.old (world.seen setup.now.script live.old)) }
{
    for x in list {
        match exec(alloc, setup, plan, at, left, live, locals, x.get())? {
            Flow::Next => {}
            Flow::Break => return Ok(Flow::Break),
            Flow::Continue => return Ok(Flow::Continue),
            Flow::Return(x) => return Ok(Flow::Return(x)),
        }
    }
    Ok(Flow::Next)
}

/// `if`.
#[cycle(run)]
#[tactic(auto, using(crate::proofs::Steps::steps))]
fn either(
    alloc: Global,
    setup: &Setup<'_>,
    plan: &Plan,
    at: &At,
    left: u64,
    live: &mut Live,
    locals: &mut List<u32>,
    test: &Expr,
    on: &Stmt,
    off: &Option<Shared<Stmt>>,
) -> Result<Flow, Halt>
    ensures { world.Leaves result locals.new (world.seen setup.now.script live.new)
        (spec.stmt_at setup.now plan.now at.now (s.If test.now (does on.now) (option_map does off.now)) locals.old (world.seen setup.now.script live.old)) }
{
    let x = value(alloc, setup, plan, at, left, live, locals, test)?;
    if x != 0 {
        return exec(alloc, setup, plan, at, left, live, locals, on);
    }
    match off {
        Some(off) => exec(alloc, setup, plan, at, left, live, locals, off.get()),
        None => Ok(Flow::Next),
    }
}

/// A turn of a `while`.
#[cycle(run)]
#[tactic(auto, using(crate::proofs::Steps::steps))]
fn while_turn(
    alloc: Global,
    setup: &Setup<'_>,
    plan: &Plan,
    at: &At,
    left: u64,
    live: &mut Live,
    locals: &mut List<u32>,
    test: &Expr,
    body: &Stmt,
) -> Result<Flow, Halt>
    ensures { world.Leaves result locals.new (world.seen setup.now.script live.new)
        (spec.while_turn setup.now plan.now at.now test.now body.now locals.old (world.seen setup.now.script live.old)) }
{
    let x = value(alloc, setup, plan, at, left, live, locals, test)?;
    if x == 0 {
        return Ok(Flow::Break);
    }
    exec(alloc, setup, plan, at, left, live, locals, body)
}

/// `while`.
#[cycle(run)]
#[tactic(auto, using(crate::proofs::Steps::steps))]
fn while_loop(
    alloc: Global,
    setup: &Setup<'_>,
    plan: &Plan,
    at: &At,
    left: u64,
    live: &mut Live,
    locals: &mut List<u32>,
    test: &Expr,
    body: &Stmt,
) -> Result<Flow, Halt>
    ensures { world.Leaves result locals.new (world.seen setup.now.script live.new)
        (spec.stmt_at setup.now plan.now at.now (s.While test.now (does body.now)) locals.old (world.seen setup.now.script live.old)) }
{
    let mut n = setup.turns();
    while n > 0 {
        n -= 1;
        match while_turn(alloc, setup, plan, at, left, live, locals, test, body)? {
            Flow::Next => {}
            Flow::Continue => {}
            Flow::Break => return Ok(Flow::Next),
            Flow::Return(x) => return Ok(Flow::Return(x)),
        }
    }
    Err(Halt::Over(End::Spent))
}

/// A turn of a `do`.
#[cycle(run)]
#[tactic(auto, using(crate::proofs::Steps::steps))]
fn do_turn(
    alloc: Global,
    setup: &Setup<'_>,
    plan: &Plan,
    at: &At,
    left: u64,
    live: &mut Live,
    locals: &mut List<u32>,
    body: &Stmt,
    test: &Expr,
) -> Result<Flow, Halt>
    ensures { world.Leaves result locals.new (world.seen setup.now.script live.new)
        (spec.do_turn setup.now plan.now at.now body.now test.now locals.old (world.seen setup.now.script live.old)) }
{
    match exec(alloc, setup, plan, at, left, live, locals, body)? {
        Flow::Next => {}
        Flow::Continue => {}
        Flow::Break => return Ok(Flow::Break),
        Flow::Return(x) => return Ok(Flow::Return(x)),
    }
    let x = value(alloc, setup, plan, at, left, live, locals, test)?;
    Ok(if x == 0 { Flow::Break } else { Flow::Next })
}

/// `do`.
#[cycle(run)]
#[tactic(auto, using(crate::proofs::Steps::steps))]
fn do_loop(
    alloc: Global,
    setup: &Setup<'_>,
    plan: &Plan,
    at: &At,
    left: u64,
    live: &mut Live,
    locals: &mut List<u32>,
    body: &Stmt,
    test: &Expr,
) -> Result<Flow, Halt>
    ensures { world.Leaves result locals.new (world.seen setup.now.script live.new)
        (spec.stmt_at setup.now plan.now at.now (s.DoWhile (does body.now) test.now) locals.old (world.seen setup.now.script live.old)) }
{
    let mut n = setup.turns();
    while n > 0 {
        n -= 1;
        match do_turn(alloc, setup, plan, at, left, live, locals, body, test)? {
            Flow::Next => {}
            Flow::Continue => {}
            Flow::Break => return Ok(Flow::Next),
            Flow::Return(x) => return Ok(Flow::Return(x)),
        }
    }
    Err(Halt::Over(End::Spent))
}

/// The test of a `for`, which holds where there is none.
#[cycle(run)]
#[tactic(auto, using(crate::proofs::Steps::steps))]
fn test_or(
    alloc: Global,
    setup: &Setup<'_>,
    plan: &Plan,
    at: &At,
    left: u64,
    live: &mut Live,
    locals: &mut List<u32>,
    test: &Option<Shared<Expr>>,
) -> Result<u32, Halt>
    ensures { world.Leaves result locals.new (world.seen setup.now.script live.new)
        (spec.test_at setup.now plan.now at.now test.now locals.old (world.seen setup.now.script live.old)) }
{
    match test {
        Some(e) => value(alloc, setup, plan, at, left, live, locals, e.get()),
        None => Ok(1),
    }
}

/// What a `for` does behind its body.
#[cycle(run)]
#[tactic(auto, using(crate::proofs::Steps::steps))]
fn done_or(
    alloc: Global,
    setup: &Setup<'_>,
    plan: &Plan,
    at: &At,
    left: u64,
    live: &mut Live,
    locals: &mut List<u32>,
    next: &Option<Shared<Expr>>,
) -> Result<Flow, Halt>
    ensures { world.Leaves result locals.new (world.seen setup.now.script live.new)
        (spec.done_at setup.now plan.now at.now next.now locals.old (world.seen setup.now.script live.old)) }
{
    match next {
        Some(e) => {
            let _x = value(alloc, setup, plan, at, left, live, locals, e.get())?;
            Ok(Flow::Next)
        }
        None => Ok(Flow::Next),
    }
}

/// A turn of a `for`.
#[cycle(run)]
#[tactic(auto, using(crate::proofs::Steps::steps))]
fn for_turn(
    alloc: Global,
    setup: &Setup<'_>,
    plan: &Plan,
    at: &At,
    left: u64,
    live: &mut Live,
    locals: &mut List<u32>,
    test: &Option<Shared<Expr>>,
    next: &Option<Shared<Expr>>,
    body: &Stmt,
) -> Result<Flow, Halt>
    ensures { world.Leaves result locals.new (world.seen setup.now.script live.new)
        (spec.for_turn setup.now plan.now at.now test.now next.now body.now locals.old (world.seen setup.now.script live.old)) }
{
    let x = test_or(alloc, setup, plan, at, left, live, locals, test)?;
    if x == 0 {
        return Ok(Flow::Break);
    }
    match exec(alloc, setup, plan, at, left, live, locals, body)? {
        Flow::Next => done_or(alloc, setup, plan, at, left, live, locals, next),
        Flow::Continue => done_or(alloc, setup, plan, at, left, live, locals, next),
        Flow::Break => Ok(Flow::Break),
        Flow::Return(x) => Ok(Flow::Return(x)),
    }
}

/// The turns of a `for`.
#[cycle(run)]
#[tactic(auto, using(crate::proofs::Steps::steps))]
fn for_turns(
    alloc: Global,
    setup: &Setup<'_>,
    plan: &Plan,
    at: &At,
    left: u64,
    live: &mut Live,
    locals: &mut List<u32>,
    test: &Option<Shared<Expr>>,
    next: &Option<Shared<Expr>>,
    body: &Stmt,
) -> Result<Flow, Halt>
    ensures { world.Leaves result locals.new (world.seen setup.now.script live.new)
        (spec.for_turns_at setup.now plan.now at.now test.now next.now body.now locals.old (world.seen setup.now.script live.old)) }
{
    let mut n = setup.turns();
    while n > 0 {
        n -= 1;
        match for_turn(alloc, setup, plan, at, left, live, locals, test, next, body)? {
            Flow::Next => {}
            Flow::Continue => {}
            Flow::Break => return Ok(Flow::Next),
            Flow::Return(x) => return Ok(Flow::Return(x)),
        }
    }
    Err(Halt::Over(End::Spent))
}

/// `for`.
#[cycle(run)]
#[tactic(auto, using(crate::proofs::Steps::steps))]
fn for_loop(
    alloc: Global,
    setup: &Setup<'_>,
    plan: &Plan,
    at: &At,
    left: u64,
    live: &mut Live,
    locals: &mut List<u32>,
    first: &[Shared<Stmt>],
    test: &Option<Shared<Expr>>,
    next: &Option<Shared<Expr>>,
    body: &Stmt,
) -> Result<Flow, Halt>
    ensures { world.Leaves result locals.new (world.seen setup.now.script live.new)
        (spec.stmt_at setup.now plan.now at.now (s.For (map does first.now) test.now next.now (does body.now)) locals.old (world.seen setup.now.script live.old)) }
{
    let _flow = in_order(alloc, setup, plan, at, left, live, locals, first)?;
    for_turns(alloc, setup, plan, at, left, live, locals, test, next, body)
}

/// Parts of a `switch`, one after another.
#[cycle(run)]
#[tactic(auto, using(crate::proofs::Steps::steps))]
fn parts_in_order(
    alloc: Global,
    setup: &Setup<'_>,
    plan: &Plan,
    at: &At,
    left: u64,
    live: &mut Live,
    locals: &mut List<u32>,
    parts: &[Part],
) -> Result<Flow, Halt>
    ensures { world.Leaves result locals.new (world.seen setup.now.script live.new)
        (spec.parts_at setup.now plan.now at.now parts.now locals.old (world.seen setup.now.script live.old)) }
{
    for part in parts {
        match exec_part(alloc, setup, plan, at, left, live, locals, part)? {
            Flow::Next => {}
            Flow::Break => return Ok(Flow::Break),
            Flow::Continue => return Ok(Flow::Continue),
            Flow::Return(x) => return Ok(Flow::Return(x)),
        }
    }
    Ok(Flow::Next)
}

/// A part of a `switch`.
#[cycle(run)]
#[tactic(auto, using(crate::proofs::Steps::steps))]
fn exec_part(
    alloc: Global,
    setup: &Setup<'_>,
    plan: &Plan,
    at: &At,
    left: u64,
    live: &mut Live,
    locals: &mut List<u32>,
    part: &Part,
) -> Result<Flow, Halt>
    ensures { world.Leaves result locals.new (world.seen setup.now.script live.new)
        ((arm part.now).does (here setup.now plan.now at.now) locals.old (world.seen setup.now.script live.old)) }
{
    match part {
        Part::Case(_) | Part::Default => Ok(Flow::Next),
        Part::Stmt(x) => exec(alloc, setup, plan, at, left, live, locals, x.get()),
    }
}

/// The parts of a `switch` from the one on where control enters for a value.
#[tactic(auto, using(crate::proofs::Steps::skipped_within))]
fn parts_from(x: u32, parts: &[Part]) -> &[Part]
    ensures { map arm result.now ≡ drop (skipped x (map arm parts.now)) (map arm parts.now) }
{
    let k = skipped(x, parts);
    &parts[k..]
}

/// `switch`.
#[cycle(run)]
#[tactic(auto, using(crate::proofs::Steps::steps))]
fn switch(
    alloc: Global,
    setup: &Setup<'_>,
    plan: &Plan,
    at: &At,
    left: u64,
    live: &mut Live,
    locals: &mut List<u32>,
    v: &Expr,
    parts: &[Part],
) -> Result<Flow, Halt>
    ensures { world.Leaves result locals.new (world.seen setup.now.script live.new)
        (spec.stmt_at setup.now plan.now at.now (s.Switch v.now (map arm parts.now)) locals.old (world.seen setup.now.script live.old)) }
{
    let x = value(alloc, setup, plan, at, left, live, locals, v)?;
    let entered = parts_from(x, parts);
    let flow = parts_in_order(alloc, setup, plan, at, left, live, locals, entered)?;
    Ok(after_switch(flow))
}

/// How a `switch` ends whose parts end so: `break` leaves it (C11 6.8.6.3).
fn after_switch(flow: Flow) -> Flow
    ensures { (l : List ℕ) (w : World) → after_switch flow l w ≡ Has result l w }
{
    match flow {
        Flow::Next => Flow::Next,
        Flow::Break => Flow::Next,
        Flow::Continue => Flow::Continue,
        Flow::Return(x) => Flow::Return(x),
    }
}

/// `return`.
#[cycle(run)]
#[tactic(auto, using(crate::proofs::Steps::steps))]
fn gives(
    alloc: Global,
    setup: &Setup<'_>,
    plan: &Plan,
    at: &At,
    left: u64,
    live: &mut Live,
    locals: &mut List<u32>,
    e: &Option<Shared<Expr>>,
) -> Result<Flow, Halt>
    ensures { world.Leaves result locals.new (world.seen setup.now.script live.new)
        (spec.stmt_at setup.now plan.now at.now (s.Return e.now) locals.old (world.seen setup.now.script live.old)) }
{
    match e {
        Some(e) => {
            let x = value(alloc, setup, plan, at, left, live, locals, e.get())?;
            Ok(Flow::Return(returned(plan, x)))
        }
        None => Ok(Flow::Return(0)),
    }
}
