//! The world of a run.

ghost use Rattle.std.specs.Prelude.{◌≡◌, ◌+◌, ◌<◌, List, drop, take};
ghost use Rattle.ns_types.specs.declared.event.CEvent.TheVariants as c;
ghost use Rattle.ns_types.specs.Boundary.{eight_zeros, kept_of};
ghost use Rattle.ns_types.specs.CRun as crun;
ghost use Rattle.ns_types.specs.Turns as turns;
ghost use Rattle.c_world.specs.Changes as changes;
ghost use Rattle.c_world.specs.Seen as spec;

use crate::halt::Halt;
use c_memory::{Flat, align};
use cm_base::{List, Stop};
use ns_types::{CEvent, End, Mark, Marked, Turn};

/// What flows through a run.
#[derive(Drop)]
pub struct Live {
    /// How many turns of the script were taken.
    pub next: usize,
    /// The entries since the last turn or the start.
    pub entries: u32,
    pub events: List<Marked>,
    /// The greatest need of stack so far, in bytes.
    pub peak: u64,
    pub memory: Flat,
    /// The Non-secure stack pointers as last set.
    pub msp_ns: u32,
    pub psp_ns: u32,
}

/// Adds an event that goes to a place, with the caller's r4 to r11.
#[tactic(auto, unfolding(crate::specs::Seen::seen))]
fn emit(live: &mut Live, event: CEvent, exit: u32, kept: [u32; 8]) -> Result<(), Halt>
    ensures { (script : List turns.Turn) → spec.Becomes result (spec.seen script live.new)
        (crun.emit event (crun.mark_at exit kept (spec.seen script live.old)) (spec.seen script live.old)) }
{
    let mark = Mark {
        exit,
        kept,
        msp_ns: live.msp_ns,
        psp_ns: live.psp_ns,
    };
    live.events.push(Marked { event, mark })?;
    Ok(())
}

/// Adds an event whose mark no one sees.
pub fn emit_plain(live: &mut Live, event: CEvent) -> Result<(), Halt>
    ensures { (script : List turns.Turn) → spec.Becomes result (spec.seen script live.new) (crun.emit_plain event (spec.seen script live.old)) }
{
    emit(live, event, 0, [0; 8])
}

/// The run stops.
pub fn stop(live: &mut Live, why: Stop) -> Halt
    ensures { (script : List turns.Turn) → spec.IsStop result why (spec.seen script live.old) (spec.seen script live.new) }
{
    match emit_plain(live, CEvent::Stopped(why)) {
        Ok(_) => Halt::Over(End::Stopped),
        Err(halt) => halt,
    }
}

/// An entry gave its result, which goes to a place.
pub fn emit_result(
    live: &mut Live,
    entry: u32,
    r0: u32,
    exit: u32,
    kept: [u32; 8],
) -> Result<(), Halt>
    ensures { (script : List turns.Turn) → spec.Becomes result (spec.seen script live.new)
        (crun.emit (c.Result entry r0) (crun.mark_at exit kept (spec.seen script live.old)) (spec.seen script live.old)) }
{
    emit(live, CEvent::Result { entry, r0 }, exit, kept)
}

/// A Non-secure function is called.
pub fn emit_called(live: &mut Live, target: u32, args: List<u32>) -> Result<(), Halt>
    ensures { (script : List turns.Turn) → spec.Becomes result (spec.seen script live.new)
        (crun.emit (c.Called target args) (crun.mark_at target eight_zeros (spec.seen script live.old)) (spec.seen script live.old)) }
{
    emit(live, CEvent::Called { target, args }, target, [0; 8])
}

/// The need of the active functions with one more that needs so many bytes, which is reached at this moment.
#[tactic(auto, unfolding(crate::specs::Seen::seen))]
pub fn reach(live: &mut Live, load: u64, need: u64) -> Result<u64, Halt>
    ensures load { spec.IfGiven result (load + need) }
    ensures peak { (script : List turns.Turn) → spec.Becomes result (spec.seen script live.new) (crun.reach (load + need) (spec.seen script live.old)) }
{
    match load.checked_add(need) {
        Some(all) => {
            live.peak = live.peak.max(all);
            Ok(all)
        }
        None => Err(Halt::NoMemory),
    }
}

/// Takes the next turn of the script: it sets the stack pointers, and its items act.
#[tactic(auto, unfolding(crate::specs::Seen::seen))]
pub fn take_turn(live: &mut Live, turn: &Turn) -> Result<(), Halt>
    requires { live.old.next < 18446744073709551615 }
    ensures { (script : List turns.Turn) → spec.Turned result turn.now (drop (live.old.next + 1) script) (spec.seen script live.old) (spec.seen script live.new) }
{
    live.next += 1;
    live.entries = 0;
    live.msp_ns = align(4, turn.msp_ns);
    live.psp_ns = align(4, turn.psp_ns);
    match live.memory.act(turn.items.as_slice()) {
        Some(why) => Err(stop(live, why)),
        None => Ok(()),
    }
}

/// The caller's r4 to r11 in a turn.
pub fn kept_of(turn: &Turn) -> [u32; 8]
    ensures { result ≡ kept_of turn.now }
{
    let r = &turn.r;
    [r[4], r[5], r[6], r[7], r[8], r[9], r[10], r[11]]
}

/// r0 to r3 in a turn.
pub fn first_four(turn: &Turn) -> [u32; 4]
    ensures { result ≡ take 4 turn.now.r }
{
    let r = &turn.r;
    [r[0], r[1], r[2], r[3]]
}

/// One entry more since the last turn or the start.
#[tactic(auto, unfolding(crate::specs::Seen::seen))]
pub fn count(live: &mut Live)
    requires { live.old.entries < 4294967295 }
    ensures { (script : List turns.Turn) → spec.seen script live.new ≡ crun.counted (spec.seen script live.old) }
{
    live.entries += 1;
}

/// The block of an activation is cleared.
#[tactic(auto, using(crate::proofs::ClearLaws::cleared_is), unfolding(crate::specs::Seen::seen))]
pub fn clear(live: &mut Live, block: u32, bytes: u32)
    ensures { (script : List turns.Turn) → spec.seen script live.new ≡ changes.cleared_in block bytes (spec.seen script live.old) }
{
    live.memory.clear(block, bytes);
}
