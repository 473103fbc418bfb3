//! Calls of functions.

ghost use Rattle.std.specs.Prelude.{◌≡◌, ◌+◌, ◌-◌, ◌<◌, ℕ, List};
ghost use Rattle.c_eval.specs.Steps as spec;
ghost use Rattle.c_mean.specs.Calls.{activation, need};
ghost use Rattle.c_mean.specs.Parts as parts;
ghost use Rattle.c_world.specs.Here.{call_at};
ghost use Rattle.c_world.specs.Plans.{plan_of};
ghost use Rattle.c_world.specs.Seen as world;
ghost use Rattle.c_world.specs.Setups.{enters, function_at};

use crate::exprs::less;
use crate::stmts::exec;
use c_mean::Flow;
use c_tree::TFunction;
use c_world::{At, Halt, Live, Plan, Setup, clear, first_values, home_params, reach, stop};
use cm_base::{List, SECURE_DATA, Stop};
use ns_types::End;
use std::alloc::Global;

/// A call by Secure code, in an expression.
#[cycle(run)]
pub fn call_value(
    alloc: Global,
    setup: &Setup<'_>,
    plan: &Plan,
    at: &At,
    left: u64,
    live: &mut Live,
    n: u32,
    args: &[u32],
) -> Result<u32, Halt>
    ensures { (l : List ℕ) → world.Leaves result l (world.seen setup.now.script live.new)
        (spec.called_at setup.now plan.now at.now n args.now l (world.seen setup.now.script live.old)) }
{
    let _ = plan;
    enter(alloc, setup, at, false, left, live, Some(n), args)
}

/// A call of a function, by its number if it has one.
#[cycle(run)]
#[tactic(auto, using(crate::proofs::Steps::steps))]
pub fn enter(
    alloc: Global,
    setup: &Setup<'_>,
    at: &At,
    from_ns: bool,
    left: u64,
    live: &mut Live,
    n: Option<u32>,
    args: &[u32],
) -> Result<u32, Halt>
    ensures { world.Gives result (world.seen setup.now.script live.new)
        (call_at setup.now at.now.deep from_ns at.now.load at.now.top (function_at setup.now n) args.now (world.seen setup.now.script live.old)) }
{
    let left = less(left)?;
    if at.deep == 0 {
        return Err(Halt::Over(End::Spent));
    }
    match setup.function(n) {
        Some(f) => match setup.plan(n) {
            Some(plan) => activate(alloc, setup, plan, at, from_ns, left, live, f, args),
            None => Err(Halt::NoMemory),
        },
        None => Err(Halt::Over(End::Stopped)),
    }
}

/// An activation: its need and its block are taken.
#[cycle(run)]
#[tactic(auto, using(crate::proofs::Steps::steps))]
fn activate(
    alloc: Global,
    setup: &Setup<'_>,
    plan: &Plan,
    at: &At,
    from_ns: bool,
    left: u64,
    live: &mut Live,
    f: &TFunction,
    args: &[u32],
) -> Result<u32, Halt>
    requires plan { plan.now ≡ plan_of f.now }
    requires deep { 0 < at.now.deep }
    ensures { world.Gives result (world.seen setup.now.script live.new)
        (spec.activated setup.now (at.now.deep - 1) from_ns (at.now.load + plan.now.need) at.now.top f.now args.now (world.seen setup.now.script live.old)) }
{
    let load = reach(live, at.load, plan.need)?;
    match block_end(at.top, plan.bytes) {
        Some(top) => {
            let inner = At {
                deep: at.deep - 1,
                load,
                block: at.top,
                top,
                from_ns,
            };
            begin(alloc, setup, plan, &inner, left, live, f, args)
        }
        None => Err(stop(live, Stop::DataStack)),
    }
}

/// Where a block of so many bytes ends, if the data stack has room for it.
fn block_end(block: u32, bytes: u32) -> Option<u32>
    ensures { result ≡ spec.block_end block bytes }
{
    match block.checked_add(bytes) {
        Some(top) => {
            if top > SECURE_DATA.to {
                None
            } else {
                Some(top)
            }
        }
        None => None,
    }
}

/// The block of an activation is cleared, and its parameters and locals get their first values.
#[cycle(run)]
#[tactic(auto, using(crate::proofs::Steps::steps))]
fn begin(
    alloc: Global,
    setup: &Setup<'_>,
    plan: &Plan,
    at: &At,
    left: u64,
    live: &mut Live,
    f: &TFunction,
    args: &[u32],
) -> Result<u32, Halt>
    ensures { world.Gives result (world.seen setup.now.script live.new)
        (spec.begins_at setup.now plan.now at.now f.now args.now (world.seen setup.now.script live.old)) }
{
    clear(live, at.block, plan.bytes);
    let mut locals = first_values(alloc, f, args)?;
    run(alloc, setup, plan, at, left, live, &mut locals, f)
}

/// The body of an activation, with these parameters and locals.
#[cycle(run)]
#[tactic(auto, using(crate::proofs::Steps::steps))]
fn run(
    alloc: Global,
    setup: &Setup<'_>,
    plan: &Plan,
    at: &At,
    left: u64,
    live: &mut Live,
    locals: &mut List<u32>,
    f: &TFunction,
) -> Result<u32, Halt>
    ensures { world.Gives result (world.seen setup.now.script live.new)
        (spec.runs_at setup.now plan.now at.now f.now locals.old (world.seen setup.now.script live.old)) }
{
    let _flow = home_params(live, locals.as_slice(), plan, at, f.params.as_slice())?;
    let flow = exec(alloc, setup, plan, at, left, live, locals, f.body.get())?;
    Ok(result_of(flow))
}

/// What a function's body gives: 0 where control reaches its end.
fn result_of(flow: Flow) -> u32
    ensures { result ≡ parts.result_of flow }
{
    match flow {
        Flow::Return(x) => x,
        _ => 0,
    }
}
