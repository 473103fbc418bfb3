//! Reads and writes of places, and the first values of parameters and locals.

ghost use Rattle.std.specs.Prelude.{◌≡◌, ℕ, ◌++◌, ◌∷◌, [], List, IsTrue, IfOk, cond, slice_index, slice_set, slice_get, replicate};
ghost use Rattle.ns_types.specs.Access.{write_access};
ghost use Rattle.ns_types.specs.Operators as ops;
ghost use Rattle.ns_types.specs.Turns as turns;
ghost use Rattle.c_memory.specs.Writes.{is_size};
ghost use Rattle.c_mean.specs.Calls as calls;
ghost use Rattle.c_mean.specs.Exprs as exprs;
ghost use Rattle.c_mean.specs.Parts.{Has, then_with, or_halt};
ghost use Rattle.c_mean.specs.Values as values;
ghost use Rattle.c_world.specs.Changes as changes;
ghost use Rattle.c_world.specs.Here as around;
ghost use Rattle.c_world.specs.Seen as spec;
ghost use Rattle.c_world.specs.Setups.{Setup};
ghost use Rattle.c_world.specs.declared.plan.At.{At};
ghost use Rattle.c_world.specs.declared.plan.Plan.{Plan};

use crate::halt::Halt;
use crate::live::{Live, emit_plain, stop};
use crate::operate::truth;
use crate::plan::{At, Plan, converted, finished};
use crate::spot::Spot;
use c_const::{is_signed, operate};
use c_mean::Flow;
use c_tree::{BinOp, TFunction, TLocal};
use c_types::{CType, arith_size, is_unsigned, promoted, type_size};
use cm_base::{List, NoMemory};
use ns_types::CEvent;
use std::alloc::Global;

/// The bytes of a value of a type.
fn value_size(t: &CType) -> u8
    ensures value { result ≡ values.value_size t.now }
    ensures size { IsTrue (is_size result) }
{
    match t.arithmetic() {
        Some(a) => match arith_size(a) {
            1 => 1,
            2 => 2,
            _ => 4,
        },
        None => 4,
    }
}

/// Local n, and 0 where there is none.
fn local(locals: &[u32], n: u32) -> u32
    ensures { result ≡ slice_index locals.now n }
{
    match locals.get(n as usize) {
        Some(x) => *x,
        None => 0,
    }
}

/// The value of a type that stands at a place.
#[tactic(auto, unfolding(crate::specs::Seen::seen))]
pub fn read(live: &mut Live, locals: &[u32], t: &CType, spot: Spot) -> Result<u32, Halt>
    ensures { (script : List turns.Turn)
        → spec.Leaves result locals.now (spec.seen script live.new) (values.read_spot t.now (spec.spot_of spot) locals.now (spec.seen script live.old)) }
{
    match spot {
        Spot::Unplaced(n) => Ok(local(locals, n)),
        Spot::At(a) => match live.memory.read(a, value_size(t)) {
            Ok(x) => Ok(converted(t, x)),
            Err(why) => Err(stop(live, why)),
        },
    }
}

/// The low bytes of a number.
fn low_bytes(size: u8, x: u32) -> u32
    requires { IsTrue (is_size size) }
    ensures { result ≡ ops.low_bytes size x }
{
    match size {
        1 => x % 0x100,
        2 => x % 0x1_0000,
        _ => x,
    }
}

/// Writes a value of a type at an address. That is an event where Non-secure code can see it.
#[tactic(auto, unfolding(crate::specs::Seen::seen))]
fn write_at(live: &mut Live, t: &CType, at: u32, x: u32) -> Result<u32, Halt>
    ensures { (script : List turns.Turn) (l : List ℕ)
        → spec.Leaves result l (spec.seen script live.new) (changes.written_at t.now at x l (spec.seen script live.old)) }
{
    let size = value_size(t);
    match live.memory.write(at, size, x) {
        Ok(told) => {
            if told {
                let value = low_bytes(size, x);
                emit_plain(live, CEvent::Wrote { at, size, value })?;
            }
            Ok(x)
        }
        Err(why) => Err(stop(live, why)),
    }
}

/// Writes local n, if there is one.
fn set_local(locals: &mut List<u32>, n: u32, x: u32)
    ensures { locals.new ≡ slice_set locals.old n x }
{
    let n = n as usize;
    if n < locals.len() {
        locals.set(n, x);
    }
}

/// Writes a value of a type at a place.
pub fn write(
    live: &mut Live,
    locals: &mut List<u32>,
    t: &CType,
    spot: Spot,
    x: u32,
) -> Result<u32, Halt>
    ensures { (script : List turns.Turn)
        → spec.Leaves result locals.new (spec.seen script live.new) (values.write_spot t.now (spec.spot_of spot) x locals.old (spec.seen script live.old)) }
{
    match spot {
        Spot::Unplaced(n) => {
            set_local(locals, n, x);
            Ok(x)
        }
        Spot::At(a) => write_at(live, t, a, x),
    }
}

/// Whether `op=` is done in a signed type.
fn done_signed(op: BinOp, place: &CType, right: &CType) -> bool
    ensures { result ≡ exprs.done_signed op place.now right.now }
{
    match op {
        BinOp::Shl | BinOp::Shr => match place.arithmetic() {
            Some(a) => !is_unsigned(promoted(a)),
            None => false,
        },
        _ => is_signed(right),
    }
}

/// What the right operand of `op=` counts at a place: the objects that a pointer points to, or 1. The size of an object that a
/// program can't have needs no memory.
fn counted(place: &CType, y: u32) -> Result<u32, Halt>
    ensures { spec.IfGiven result (exprs.counted (changes.pointed place.now) y) }
{
    match place.referenced() {
        Some(to) => {
            if !to.fits() {
                return Err(Halt::NoMemory);
            }
            Ok(y.wrapping_mul(type_size(to).unwrap_or(0)))
        }
        None => Ok(y),
    }
}

/// The new value of a place whose old value is x (C11 6.5.16.2).
fn changed(
    live: &mut Live,
    op: BinOp,
    t: &CType,
    right: &CType,
    x: u32,
    y: u32,
) -> Result<u32, Halt>
    ensures { (script : List turns.Turn) (l : List ℕ)
        → spec.Leaves result l (spec.seen script live.new) (or_halt (exprs.changed op t.now right.now x y) l (spec.seen script live.old)) }
{
    let y = counted(t, y)?;
    match operate(op, done_signed(op, t, right), x, y) {
        Ok(z) => Ok(z),
        Err(why) => Err(stop(live, why)),
    }
}

/// `op=` at a place, with the value of the right operand.
pub fn change(
    live: &mut Live,
    locals: &mut List<u32>,
    op: BinOp,
    t: &CType,
    right: &CType,
    spot: Spot,
    y: u32,
) -> Result<u32, Halt>
    ensures { (script : List turns.Turn)
        → spec.Leaves result locals.new (spec.seen script live.new) (changes.change op t.now right.now (spec.spot_of spot) y locals.old (spec.seen script live.old)) }
{
    let x = read(live, locals.as_slice(), t, spot)?;
    let z = changed(live, op, t, right, x, y)?;
    write(live, locals, t, spot, converted(t, z))
}

/// `++` and `--` at a place: what is added, and whether the old value is the expression's.
pub fn step(
    live: &mut Live,
    locals: &mut List<u32>,
    t: &CType,
    spot: Spot,
    by: u32,
    old: bool,
) -> Result<u32, Halt>
    ensures { (script : List turns.Turn)
        → spec.Leaves result locals.new (spec.seen script live.new) (changes.step t.now (spec.spot_of spot) by old locals.old (spec.seen script live.old)) }
{
    let x = read(live, locals.as_slice(), t, spot)?;
    let y = write(live, locals, t, spot, converted(t, x.wrapping_add(by)))?;
    Ok(if old { x } else { y })
}

/// So many bytes on.
pub fn moved(spot: Spot, offset: u32) -> Spot
    ensures { spec.spot_of result ≡ values.moved (spec.spot_of spot) offset }
{
    match spot {
        Spot::At(a) => Spot::At(a.wrapping_add(offset)),
        Spot::Unplaced(n) => Spot::Unplaced(n),
    }
}

/// The address of a place, and 0 where it has none.
pub fn address(spot: Spot) -> u32
    ensures { result ≡ values.address (spec.spot_of spot) }
{
    match spot {
        Spot::At(a) => a,
        Spot::Unplaced(_) => 0,
    }
}

/// Whether Non-secure code called the function that is active, as a number.
#[tactic(auto, unfolding(crate::specs::Here::here))]
pub fn caller(at: &At) -> u32
    ensures { (s : Setup) (plan : Plan) → result ≡ ops.truth (around.here s plan at.now).from_ns }
{
    truth(at.from_ns)
}

/// What `return` makes of a value.
#[tactic(auto, unfolding(crate::specs::Here::here))]
pub fn returned(plan: &Plan, x: u32) -> u32
    ensures { (s : Setup) (at : At) → result ≡ (around.here s plan.now at).returned x }
{
    finished(plan.gives, x)
}

/// Where local n of an activation stands.
#[tactic(auto, unfolding(crate::specs::Here::here))]
pub fn local_spot(plan: &Plan, at: &At, n: u32) -> Result<Spot, Halt>
    ensures { (s : Setup) → spec.IsSpot result (around.local_spot (around.here s plan.now at.now) n) }
{
    match plan.offsets.get(n as usize) {
        Some(offset) => match *offset {
            Some(offset) => match at.block.checked_add(offset) {
                Some(a) => Ok(Spot::At(a)),
                None => Err(Halt::NoMemory),
            },
            None => Ok(Spot::Unplaced(n)),
        },
        None => Ok(Spot::Unplaced(n)),
    }
}

/// A parameter that is placed is written to its home.
fn home_param(live: &mut Live, locals: &[u32], t: &CType, spot: Spot, n: u32) -> Result<u32, Halt>
    ensures { (script : List turns.Turn)
        → spec.Leaves result locals.now (spec.seen script live.new) (calls.homed t.now (spec.spot_of spot) (slice_index locals.now n) locals.now (spec.seen script live.old)) }
{
    let x = local(locals, n);
    match spot {
        Spot::Unplaced(_) => Ok(x),
        Spot::At(a) => write_at(live, t, a, x),
    }
}

/// The parameters that are placed are written to their homes.
pub fn home_params(
    live: &mut Live,
    locals: &[u32],
    plan: &Plan,
    at: &At,
    params: &[TLocal],
) -> Result<Flow, Halt>
    ensures { (script : List turns.Turn) (s : Setup)
        → spec.Leaves result locals.now (spec.seen script live.new) (calls.all_homed 0 params.now (around.here s plan.now at.now) locals.now (spec.seen script live.old)) }
{
    let mut n: u32 = 0;
    for x in params {
        let spot = local_spot(plan, at, n)?;
        let _x = home_param(live, locals, &x.ctype, spot, n)?;
        n = n.checked_add(1).ok_or(Halt::NoMemory)?;
    }
    Ok(Flow::Next)
}

/// The first value of a parameter: an argument, which an entry function converts.
fn parameter(entry: bool, x: &TLocal, args: &[u32], n: usize) -> u32
    ensures { result ≡ changes.parameter entry x.now (slice_get args.now n) }
{
    match args.get(n) {
        Some(a) => { if entry { converted(&x.ctype, *a) } else { *a } }
        None => 0,
    }
}

/// Adds the first values of parameters.
fn add_parameters(
    list: &mut List<u32>,
    entry: bool,
    params: &[TLocal],
    args: &[u32],
) -> Result<(), NoMemory>
    ensures { changes.Adds result list.old list.new (calls.parameters entry params.now args.now) }
{
    let mut n: usize = 0;
    for x in params {
        list.push(parameter(entry, x, args, n))?;
        n += 1;
    }
    Ok(())
}

/// Adds n zeros.
fn add_zeros(list: &mut List<u32>, n: usize) -> Result<(), NoMemory>
    ensures { changes.Adds result list.old list.new (replicate n 0) }
{
    for _done in 0..n {
        list.push(0)?;
    }
    Ok(())
}

/// The first values of parameters and locals.
#[tactic(auto, using(crate::proofs::PlaceLaws::zeros_are))]
pub fn first_values(alloc: Global, f: &TFunction, args: &[u32]) -> Result<List<u32>, NoMemory>
    ensures { IfOk result (λ l. l ≡ calls.first_values f.now args.now) }
{
    let mut list = List::from_vec(Vec::with_capacity(
        alloc,
        f.params.len().saturating_add(f.locals.len()),
    )?);
    add_parameters(&mut list, f.entry, f.params.as_slice(), args)?;
    add_zeros(&mut list, f.locals.len())?;
    Ok(list)
}
