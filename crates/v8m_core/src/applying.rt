//! What an effect does to the state.

ghost use Rattle.std.specs.Prelude.{◌≡◌, ◌+◌, ◌^◌, ◌<◌, IsTrue};
ghost use Rattle.std.specs.Bool.{IsFalse, OnFalse, OnTrue};
ghost use Rattle.ns_types.specs.State as states;
ghost use Rattle.v8m_mem.specs.Rows.{is_size};
ghost use Rattle.v8m_core.specs.Step.{apply, load_stop, pop_stop, push_stop, special, store_stop, went, write_register};
ghost use Rattle.v8m_core.specs.Parts.{Ends, EndsBy, can_apply, done, is_short, is_shown, passes_gate, shown, state};

use crate::gates::{align, blxns, bx, bxns, limit_stop, link, stop};
use crate::lists::{REGISTERS, all_readable, all_writable, bytes_of, load_all, store_all};
use crate::values::to_signed;
use crate::{Effect, Stepped};
use cm_base::Stop;
use ns_types::Cpu;
use v8m_mem::{Memory, can_read, can_write, is_in_ns_ram};

/// A write of a register by an instruction of a size, or why it stops; SP may not go below MSPLIM.
#[inline(always)]
#[tactic(auto, unfolding(crate::specs::Step::write_register))]
fn write_register(cpu: &mut Cpu, size: u32, d: u32, v: u32) -> Option<Stop>
    requires reg { d < 15 }
    requires room { cpu.old.pc + size < 2 ^ 32 }
    ensures { (m : states.Memory) → Ends (write_register size d v (state cpu.old m)) (state cpu.old m) (state cpu.new m) result }
{
    if d == 13 {
        if let Some(why) = limit_stop(v, cpu) {
            return Some(why);
        }
        cpu.regs.sp = align(4, v);
    } else {
        cpu.regs.set(d, v);
    }
    cpu.pc += size;
    None
}

/// Why a load stops, if it does.
#[tactic(auto, unfolding(crate::specs::Step::load_stop))]
fn load_stop(at: u32, size: u8) -> Option<Stop>
    requires { IsTrue (is_size size) }
    ensures { result ≡ load_stop at size }
{
    if at % size as u32 != 0 {
        Some(Stop::Unaligned)
    } else if can_read(at, size) {
        None
    } else {
        Some(Stop::Unmapped)
    }
}

/// Why a store stops, if it does.
#[tactic(auto, unfolding(crate::specs::Step::store_stop))]
fn store_stop(at: u32, size: u8) -> Option<Stop>
    requires { IsTrue (is_size size) }
    ensures { result ≡ store_stop at size }
{
    if at % size as u32 != 0 {
        Some(Stop::Unaligned)
    } else if can_write(at, size) {
        None
    } else {
        Some(Stop::Unmapped)
    }
}

/// MSR, by the number of the special register.
fn special(cpu: &mut Cpu, k: u32, v: u32)
    ensures { cpu.new ≡ special k v cpu.old }
{
    match k {
        0 => cpu.nzcvq = (v / 0x800_0000 % 32) as u8,
        8 => cpu.regs.sp = align(4, v),
        9 => cpu.psp = align(4, v),
        10 => cpu.msplim = align(8, v),
        11 => cpu.psplim = align(8, v),
        136 => cpu.msp_ns = align(4, v),
        _ => cpu.psp_ns = align(4, v),
    }
}

/// Loads a register, or answers why it stops.
#[inline(always)]
#[tactic(auto, unfolding(crate::specs::Step::apply, crate::specs::Step::load_stop))]
fn load(memory: &Memory, cpu: &mut Cpu, t: u32, at: u32, bytes: u8, size: u32) -> Option<Stop>
    requires reg { t < 15 }
    requires bytes { IsTrue (is_size bytes) }
    requires room { cpu.old.pc + size < 2 ^ 32 }
    ensures { Ends (apply memory.now.device (Effect.Load t at bytes) size (state cpu.old memory.now.memory)) (state cpu.old memory.now.memory) (state cpu.new memory.now.memory) result }
{
    let why = load_stop(at, bytes);
    if why.is_none() {
        let v = memory.load(at, bytes);
        cpu.regs.set(t, v);
        cpu.pc += size;
    }
    why
}

/// Stores a number, or answers why it stops.
#[inline(always)]
#[tactic(auto, unfolding(crate::specs::Step::apply, crate::specs::Step::store_stop))]
fn store(memory: &mut Memory, cpu: &mut Cpu, at: u32, bytes: u8, v: u32, size: u32) -> Option<Stop>
    requires bytes { IsTrue (is_size bytes) }
    requires room { cpu.old.pc + size < 2 ^ 32 }
    ensures device { memory.new.device ≡ memory.old.device }
    ensures step { EndsBy (shown (Effect.Store at bytes v)) (apply memory.old.device (Effect.Store at bytes v) size (state cpu.old memory.old.memory)) (state cpu.old memory.old.memory) (state cpu.new memory.new.memory) result }
{
    let why = store_stop(at, bytes);
    if why.is_none() {
        memory.store(at, bytes, v);
        cpu.pc += size;
    }
    why
}

/// Loads a register with a sign, or answers why it stops.
#[inline(always)]
#[tactic(auto, unfolding(crate::specs::Step::apply, crate::specs::Step::load_stop))]
fn load_signed(
    memory: &Memory,
    cpu: &mut Cpu,
    t: u32,
    at: u32,
    bytes: u8,
    size: u32,
) -> Option<Stop>
    requires reg { t < 15 }
    requires bytes { IsTrue (is_short bytes) }
    requires room { cpu.old.pc + size < 2 ^ 32 }
    ensures { Ends (apply memory.now.device (Effect.LoadSigned t at bytes) size (state cpu.old memory.now.memory)) (state cpu.old memory.now.memory) (state cpu.new memory.now.memory) result }
{
    let why = load_stop(at, bytes);
    if why.is_none() {
        let v = to_signed(bytes, memory.load(at, bytes));
        cpu.regs.set(t, v);
        cpu.pc += size;
    }
    why
}

/// Why a push stops, if it does.
#[tactic(auto, unfolding(crate::specs::Step::push_stop))]
fn push_stop(list: u32, cpu: &Cpu) -> Option<Stop>
    ensures { result ≡ push_stop list cpu.now }
{
    let sp = cpu.regs.sp.wrapping_sub(bytes_of(list, &REGISTERS));
    if let Some(why) = limit_stop(sp, cpu) {
        return Some(why);
    }
    if cpu.regs.sp % 4 != 0 {
        return Some(Stop::Unaligned);
    }
    if all_writable(list, &REGISTERS, sp) {
        None
    } else {
        Some(Stop::Unmapped)
    }
}

/// Pushes the registers of a list, or answers why it stops.
#[inline(never)]
#[tactic(auto, unfolding(crate::specs::Step::apply, crate::specs::Step::push_stop, crate::specs::Step::pushed))]
fn push(memory: &mut Memory, cpu: &mut Cpu, list: u32, size: u32) -> Option<Stop>
    requires room { cpu.old.pc + size < 2 ^ 32 }
    ensures device { memory.new.device ≡ memory.old.device }
    ensures step { Ends (apply memory.old.device (Effect.Push list) size (state cpu.old memory.old.memory)) (state cpu.old memory.old.memory) (state cpu.new memory.new.memory) result }
{
    let why = push_stop(list, cpu);
    if why.is_none() {
        let sp = cpu.regs.sp.wrapping_sub(bytes_of(list, &REGISTERS));
        store_all(memory, &cpu.regs, list, &REGISTERS, sp);
        cpu.regs.sp = align(4, sp);
        cpu.pc += size;
    }
    why
}

/// Why a pop stops, if it does.
#[tactic(auto, unfolding(crate::specs::Step::pop_stop))]
fn pop_stop(list: u32, cpu: &Cpu) -> Option<Stop>
    ensures { result ≡ pop_stop list cpu.now }
{
    let sp = cpu.regs.sp.wrapping_add(bytes_of(list, &REGISTERS));
    if let Some(why) = limit_stop(sp, cpu) {
        return Some(why);
    }
    if cpu.regs.sp % 4 != 0 {
        return Some(Stop::Unaligned);
    }
    if all_readable(list, &REGISTERS, cpu.regs.sp) {
        None
    } else {
        Some(Stop::Unmapped)
    }
}

/// Pops the registers of a list, or answers why it stops.
#[inline(never)]
#[tactic(auto, unfolding(crate::specs::Step::apply, crate::specs::Step::pop_stop, crate::specs::Step::popped))]
fn pop(memory: &Memory, cpu: &mut Cpu, list: u32, size: u32) -> Option<Stop>
    requires room { cpu.old.pc + size < 2 ^ 32 }
    ensures { Ends (apply memory.now.device (Effect.Pop list) size (state cpu.old memory.now.memory)) (state cpu.old memory.now.memory) (state cpu.new memory.now.memory) result }
{
    let why = pop_stop(list, cpu);
    if why.is_none() {
        let at = cpu.regs.sp;
        let sp = at.wrapping_add(bytes_of(list, &REGISTERS));
        load_all(memory, &mut cpu.regs, list, &REGISTERS, at);
        cpu.regs.sp = align(4, sp);
        cpu.pc += size;
    }
    why
}

/// Applies an effect that passes no gate, or answers why it stops and changes nothing.
#[inline(always)]
#[tactic(auto, unfolding(crate::specs::Step::apply))]
fn settle(memory: &mut Memory, cpu: &mut Cpu, effect: Effect, size: u32) -> Option<Stop>
    requires fits { IsTrue (can_apply effect) }
    requires gate { IsFalse (passes_gate effect) }
    requires room { cpu.old.pc + size < 2 ^ 32 }
    ensures device { memory.new.device ≡ memory.old.device }
    ensures step { EndsBy (shown effect) (apply memory.old.device effect size (state cpu.old memory.old.memory)) (state cpu.old memory.old.memory) (state cpu.new memory.new.memory) result }
{
    match effect {
        Effect::Pass => cpu.pc += size,
        Effect::Stop(why) => return Some(why),
        Effect::Put { d, v } => return write_register(cpu, size, d, v),
        Effect::Load { t, at, size: bytes } => return load(memory, cpu, t, at, bytes, size),
        Effect::Store { at, size: bytes, v } => return store(memory, cpu, at, bytes, v, size),
        Effect::LoadSigned { t, at, size: bytes } => {
            return load_signed(memory, cpu, t, at, bytes, size);
        }
        Effect::Push { list } => return push(memory, cpu, list, size),
        Effect::Pop { list } => return pop(memory, cpu, list, size),
        Effect::Flags { nzcvq } => {
            cpu.pc += size;
            cpu.nzcvq = nzcvq;
        }
        Effect::Jump { at } => cpu.pc = at,
        Effect::Call { at } => {
            cpu.regs.lr = link(size, cpu);
            cpu.pc = at;
        }
        Effect::Special { k, v } => {
            cpu.pc += size;
            special(cpu, k, v);
        }
        Effect::Bx { v } => return bx(memory, cpu, v),
        Effect::Bxns { v: _ } => {}
        Effect::Blxns { v: _ } => {}
    }
    None
}

/// Whether a store is into Non-secure RAM, which an event shows.
fn is_shown(effect: &Effect) -> bool
    ensures { result ≡ is_shown effect.now }
{
    match *effect {
        Effect::Store { at, size: _, v: _ } => is_in_ns_ram(at),
        _ => false,
    }
}

/// Whether an effect may end in Non-secure state.
fn passes_gate(effect: &Effect) -> bool
    ensures { result ≡ passes_gate effect.now }
{
    matches!(*effect, Effect::Bxns { v: _ } | Effect::Blxns { v: _ })
}

/// What the event of an effect is that passes no gate.
fn shown(effect: &Effect) -> Stepped
    ensures { result ≡ shown effect.now }
{
    match *effect {
        Effect::Store { at, size, v } => {
            if is_in_ns_ram(at) {
                Stepped::Wrote { at, size, value: v }
            } else {
                Stepped::Went
            }
        }
        _ => Stepped::Went,
    }
}

/// Applies an effect of an instruction of a size.
#[tactic(auto, unfolding(crate::specs::Step::apply))]
pub fn apply(memory: &mut Memory, cpu: &mut Cpu, effect: Effect, size: u32) -> Stepped
    requires fits { IsTrue (can_apply effect) }
    requires room { cpu.old.pc + size < 2 ^ 32 }
    ensures device { memory.new.device ≡ memory.old.device }
    ensures step { apply memory.old.device effect size (state cpu.old memory.old.memory) ≡ done cpu.new memory.new.memory result }
{
    match effect {
        Effect::Bxns { v } => return bxns(memory, cpu, v),
        Effect::Blxns { v } => return blxns(memory, cpu, v, size),
        _ => {}
    }
    match settle(memory, cpu, effect, size) {
        Some(why) => stop(cpu, why),
        None => shown(&effect),
    }
}

/// Applies an effect that only goes on, or answers false and changes nothing.
#[inline(always)]
pub fn go_on(memory: &mut Memory, cpu: &mut Cpu, effect: Effect, size: u32) -> bool
    requires fits { IsTrue (can_apply effect) }
    requires room { cpu.old.pc + size < 2 ^ 32 }
    ensures device { memory.new.device ≡ memory.old.device }
    ensures on { OnTrue result (apply memory.old.device effect size (state cpu.old memory.old.memory) ≡ went (state cpu.new memory.new.memory)) }
    ensures kept { OnFalse result (state cpu.new memory.new.memory ≡ state cpu.old memory.old.memory) }
{
    if passes_gate(&effect) || is_shown(&effect) {
        return false;
    }
    settle(memory, cpu, effect, size).is_none()
}
