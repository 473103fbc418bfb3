//! Non-secure calls, and what Non-secure code does between two hand-overs.

ghost use Rattle.std.specs.Prelude.{◌≡◌, ◌+◌, ◌*◌, ◌<◌, ℕ, IfSome, List, drop, length, option_copied, slice_index};
ghost use Rattle.ns_types.specs.CRun.{World, Outcome, Over};
ghost use Rattle.ns_types.specs.Turns as turns;
ghost use Rattle.c_eval.specs.Steps as spec;
ghost use Rattle.c_mean.specs.Exprs.{ns_called};
ghost use Rattle.c_world.specs.Here.{here};
ghost use Rattle.c_world.specs.Seen as world;
ghost use Rattle.c_world.specs.declared.plan.At.{At};

use crate::calls::enter;
use c_memory::{align, is_in_ns_rom};
use c_types::CType;
use c_world::{
    At, Halt, Live, Plan, Setup, converted, count, emit_called, emit_result, first_four, kept_of,
    stop, take_turn,
};
use cm_base::{List, Stop};
use ns_types::{End, Goes, Turn};
use std::alloc::Global;

/// A Non-secure call in an expression: what isn't in Non-secure ROM isn't called.
#[cycle(run)]
#[tactic(auto, using(crate::proofs::Steps::steps))]
pub fn ns_value(
    alloc: Global,
    setup: &Setup<'_>,
    plan: &Plan,
    at: &At,
    left: u64,
    live: &mut Live,
    t: &CType,
    target: u32,
    args: List<u32>,
) -> Result<u32, Halt>
    ensures { (l : List ℕ) → world.Leaves result l (world.seen setup.now.script live.new)
        (ns_called t.now target args (here setup.now plan.now at.now) l (world.seen setup.now.script live.old)) }
{
    if !is_in_ns_rom(target) {
        return Err(stop(live, Stop::CallTarget));
    }
    let x = call_out(alloc, setup, plan, at, left, live, target, args)?;
    Ok(converted(t, x))
}

/// A Non-secure call: what it shows, and then Non-secure code's move.
#[cycle(run)]
#[tactic(auto, using(crate::proofs::Steps::steps))]
fn call_out(
    alloc: Global,
    setup: &Setup<'_>,
    plan: &Plan,
    at: &At,
    left: u64,
    live: &mut Live,
    target: u32,
    args: List<u32>,
) -> Result<u32, Halt>
    ensures { (l : List ℕ) → world.Leaves result l (world.seen setup.now.script live.new)
        (spec.called_out_at setup.now plan.now at.now target args l (world.seen setup.now.script live.old)) }
{
    let _ = plan;
    emit_called(live, target, args)?;
    let fuel = turns_left(setup, live);
    phase(alloc, setup, at, left, live, fuel)
}

/// How many turns of the script are left.
#[tactic(auto, unfolding(c_world::specs::Seen::seen))]
fn turns_left(setup: &Setup<'_>, live: &Live) -> usize
    ensures { result ≡ length (world.seen setup.now.script live.now).turns }
{
    setup.script().len().saturating_sub(live.next)
}

/// The next turn of the script.
#[tactic(auto, unfolding(c_world::specs::Seen::seen))]
fn next_turn<'s>(setup: &'s Setup<'_>, live: &Live) -> Option<&'s Turn>
    ensures next { spec.IsNext (option_copied result) (world.seen setup.now.script live.now).turns (drop (live.now.next + 1) setup.now.script) }
    ensures room { IfSome result (λ _. live.now.next < 18446744073709551615) }
{
    let script = setup.script();
    if live.next >= script.len() {
        return None;
    }
    script.get(live.next)
}

/// Non-secure code's move, turn by turn; fuel counts the turns that it may take.
#[cycle(run)]
#[tactic(auto, using(crate::proofs::Steps::steps))]
pub fn phase(
    alloc: Global,
    setup: &Setup<'_>,
    at: &At,
    left: u64,
    live: &mut Live,
    fuel: usize,
) -> Result<u32, Halt>
    ensures { world.Gives result (world.seen setup.now.script live.new)
        (spec.phase_at setup.now at.now fuel (world.seen setup.now.script live.old)) }
{
    let mut fuel = fuel;
    while fuel > 0 {
        let n = most_entries(setup.turns(), fuel)?;
        fuel -= 1;
        let Some(turn) = next_turn(setup, live) else {
            return Err(Halt::Over(End::Waiting));
        };
        let crossed = cross(alloc, setup, at, left, live, turn, n)?;
        if let Some(x) = crossed {
            return Ok(x);
        }
    }
    Err(Halt::Over(end_of(setup, live)))
}

/// How a phase ends where it may take no turn: no turn is left, or the bound is used up.
fn end_of(setup: &Setup<'_>, live: &Live) -> End
    ensures { (at : At) → spec.phase_at setup.now at 0 (world.seen setup.now.script live.now) ≡ Over result (world.seen setup.now.script live.now) }
{
    match next_turn(setup, live) {
        Some(_) => End::Spent,
        None => End::Waiting,
    }
}

/// How many entries may follow an arrival: so many for each of these turns.
fn most_entries(turns: u32, fuel: usize) -> Result<u64, Halt>
    ensures { world.IfGiven result (turns * fuel) }
{
    match (turns as u64).checked_mul(fuel as u64) {
        Some(n) => Ok(n),
        None => Err(Halt::NoMemory),
    }
}

/// One turn, and the entries that it calls: a result for the newest pending call, or none where a phase goes on.
#[cycle(run)]
#[tactic(auto, using(crate::proofs::Steps::steps))]
fn cross(
    alloc: Global,
    setup: &Setup<'_>,
    at: &At,
    left: u64,
    live: &mut Live,
    turn: &Turn,
    n: u64,
) -> Result<Option<u32>, Halt>
    requires { live.old.next < 18446744073709551615 }
    ensures { (next : World → Outcome) → spec.Chained result next (world.seen setup.now.script live.new)
        (spec.crossing setup.now at.now next turn.now (drop (live.old.next + 1) setup.now.script) n (world.seen setup.now.script live.old)) }
{
    take_turn(live, turn)?;
    let goes = setup.goes(turn.target);
    chain(
        alloc,
        setup,
        at,
        left,
        live,
        align(2, turn.lr),
        kept_of(turn),
        n,
        goes,
        first_four(turn),
    )
}

/// The entries that an arrival calls, each by the exit of the one before: a result for the newest pending call, or none where
/// a phase follows. At most n of them are entered, and no more than the bound allows since the last turn or the start.
#[cycle(run)]
#[tactic(auto, using(crate::proofs::Steps::steps))]
pub fn chain(
    alloc: Global,
    setup: &Setup<'_>,
    at: &At,
    left: u64,
    live: &mut Live,
    exit: u32,
    kept: [u32; 8],
    n: u64,
    goes: Goes,
    args: [u32; 4],
) -> Result<Option<u32>, Halt>
    ensures { (next : World → Outcome) → spec.Chained result next (world.seen setup.now.script live.new)
        (spec.chain_at setup.now at.now next exit kept n goes args (world.seen setup.now.script live.old)) }
{
    let mut n = n;
    let mut goes = goes;
    let mut args = args;
    while let Goes::Enter(e) = goes {
        if n == 0 || live.entries >= setup.turns() {
            return Err(Halt::Over(End::Spent));
        }
        n -= 1;
        let r = one_entry(alloc, setup, at, left, live, e, &args, exit, kept)?;
        goes = setup.goes(exit);
        args = [r, 0, 0, 0];
    }
    arrive(live, goes, args)
}

/// One entry, with its result.
#[cycle(run)]
#[tactic(auto, using(crate::proofs::Steps::steps))]
fn one_entry(
    alloc: Global,
    setup: &Setup<'_>,
    at: &At,
    left: u64,
    live: &mut Live,
    e: u32,
    args: &[u32],
    exit: u32,
    kept: [u32; 8],
) -> Result<u32, Halt>
    requires { live.old.entries < 4294967295 }
    ensures { (go : ℕ → World → Outcome) → spec.Entered result go (world.seen setup.now.script live.new)
        (spec.entry_at setup.now at.now go e args.now exit kept (world.seen setup.now.script live.old)) }
{
    count(live);
    let r = enter(alloc, setup, at, true, left, live, setup.entry(e), args)?;
    emit_result(live, e, r, exit, kept)?;
    Ok(r)
}

/// What happens where a branch goes that enters no entry, with r0 to r3.
fn arrive(live: &mut Live, goes: Goes, args: [u32; 4]) -> Result<Option<u32>, Halt>
    ensures { (script : List turns.Turn) (next : World → Outcome)
        → spec.Chained result next (world.seen script live.new) (spec.arrived next goes (slice_index args 0) (world.seen script live.old)) }
{
    match goes {
        Goes::Return => Ok(Some(args[0])),
        Goes::Turn => Ok(None),
        Goes::EntryPoint => Err(stop(live, Stop::EntryPoint)),
        Goes::Astray => Err(stop(live, Stop::Astray)),
        Goes::Enter(_) => Err(Halt::NoMemory),
    }
}
