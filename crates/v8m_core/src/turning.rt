//! Turns of Non-secure code.

ghost use Rattle.std.specs.Prelude.{◌≡◌, if◌then◌else◌, IsTrue, is_none};
ghost use Rattle.ns_types.specs.Boundary.{acted, item_stop, with_item};
ghost use Rattle.v8m_core.specs.Step.{set_by, turn_of};
ghost use Rattle.v8m_core.specs.Parts.{done, is_quiet, state};

use crate::Stepped;
use crate::gates::{align, arrive, stop};
use cm_base::Stop;
use ns_types::{Cpu, Item, Regs, Turn};
use v8m_mem::{Memory, is_in_ns_ram, is_nonsecure, is_secure};

/// Why an item of a turn stops, if it does.
fn item_stop(item: &Item) -> Option<Stop>
    ensures { result ≡ item_stop item.now }
{
    let (at, may) = match *item {
        Item::Write { at, byte: _ } => (at, is_in_ns_ram(at)),
        Item::Read { at } => (at, is_nonsecure(at)),
    };
    if is_secure(at) {
        Some(Stop::Access)
    } else if may {
        None
    } else {
        Some(Stop::Astray)
    }
}

/// Acts an item, and answers why it stops, if it does; then it changes nothing.
fn act_item(memory: &mut Memory, item: &Item) -> Option<Stop>
    ensures stop { result ≡ item_stop item.now }
    ensures ram { memory.new.memory.ns_ram
        ≡ (if is_none result then with_item item.now memory.old.memory.ns_ram else memory.old.memory.ns_ram) }
    ensures rest { memory.new ≡ record memory.old { memory = record memory.old.memory { ns_ram = memory.new.memory.ns_ram } } }
{
    let why = item_stop(item);
    if why.is_some() {
        return why;
    }
    if let Item::Write { at, byte } = *item {
        memory.put_ns(at, byte);
    }
    None
}

/// Acts the items of a turn in order, up to the first that stops.
fn act_items(memory: &mut Memory, items: &[Item]) -> Option<Stop>
    ensures acted { acted items.now memory.old.memory.ns_ram ≡ record { ram = memory.new.memory.ns_ram; stop = result } }
    ensures rest { memory.new ≡ record memory.old { memory = record memory.old.memory { ns_ram = memory.new.memory.ns_ram } } }
{
    for item in items {
        if let Some(why) = act_item(memory, item) {
            return Some(why);
        }
    }
    None
}

/// Sets the Non-secure registers as a turn says.
fn set_by(turn: &Turn, cpu: &mut Cpu)
    ensures { cpu.new ≡ set_by turn.now cpu.old }
{
    let r = &turn.r;
    cpu.regs = Regs {
        r0: r[0],
        r1: r[1],
        r2: r[2],
        r3: r[3],
        r4: r[4],
        r5: r[5],
        r6: r[6],
        r7: r[7],
        r8: r[8],
        r9: r[9],
        r10: r[10],
        r11: r[11],
        r12: r[12],
        sp: cpu.regs.sp,
        lr: turn.lr,
    };
    cpu.nzcvq = turn.nzcvq;
    cpu.msp_ns = align(4, turn.msp_ns);
    cpu.psp_ns = align(4, turn.psp_ns);
}

/// One turn: registers, items, and the branch to the target.
#[tactic(auto, unfolding(crate::specs::Step::turn_of))]
pub fn play(memory: &mut Memory, cpu: &mut Cpu, turn: &Turn) -> Stepped
    ensures device { memory.new.device ≡ memory.old.device }
    ensures ram { memory.new.memory.ns_ram ≡ (acted turn.now.items memory.old.memory.ns_ram).ram }
    ensures quiet { IsTrue (is_quiet result) }
    ensures turn { turn_of memory.old.device turn.now (state cpu.old memory.old.memory) ≡ done cpu.new memory.new.memory result }
{
    let stopped = act_items(memory, turn.items.as_slice());
    set_by(turn, cpu);
    match stopped {
        Some(why) => stop(cpu, why),
        None => arrive(
            memory,
            cpu,
            turn.target,
            align(2, turn.target),
            Stepped::Went,
        ),
    }
}
