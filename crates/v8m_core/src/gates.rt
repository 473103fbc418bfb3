//! The gates between Secure and Non-secure state (DDI0553: SG, BXNS, function return).

ghost use Rattle.std.specs.Prelude.{◌≡◌, ◌+◌, ◌^◌, ◌<◌, IsTrue, None};
ghost use Rattle.ns_types.specs.Platform.{aligned};
ghost use Rattle.ns_types.specs.Gateway.{is_gateway};
ghost use Rattle.v8m_core.specs.Step.{arrived, blxns, bx, bxns, call_stop, called, called_at, entered_cpu, limit_stop, link, goes_in, only_stopped, return_stop, return_to, seen};
ghost use Rattle.v8m_core.specs.Parts.{Ends, done, entry_of, is_quiet, state};

use crate::Stepped;
use cm_base::{NSC, Stop};
use ns_types::{Cpu, Goes, Side, View};
use v8m_mem::{Memory, can_read, can_write, is_in_rom, is_nonsecure, is_secure};

/// The address that a branch takes as a function return (DDI0553, FNC_RETURN).
const FUNCTION_RETURN: u32 = 0xFEFF_FFFE;

/// Both halfwords of SG.
const SG: u16 = 0xE97F;

/// A number with its low bits cleared: `n` is a power of 2.
pub fn align(n: u32, a: u32) -> u32
    requires { 0 < n }
    ensures { result ≡ aligned n a }
{
    a - a % n
}

/// Stops the machine.
pub fn stop(cpu: &mut Cpu, stop: Stop) -> Stepped
    ensures side { cpu.new ≡ record cpu.old { side = Side.Stopped stop } }
    ensures what { result ≡ Stepped.Stopped stop }
{
    cpu.side = Side::Stopped(stop);
    Stepped::Stopped(stop)
}

/// Whether a Secure gateway stands at an address: SG within the Non-secure callable region.
#[tactic(auto, unfolding(ns_types::specs::Gateway::is_gateway))]
fn is_gateway(memory: &Memory, at: u32) -> bool
    ensures { result ≡ is_gateway memory.now.device at }
{
    NSC.from <= at && at <= NSC.to - 4 && memory.half(at) == SG && memory.half(at + 2) == SG
}

/// Where a branch to Non-secure state, or in it, goes. Bit 0 of the target is ignored.
#[tactic(auto, unfolding(crate::specs::Step::goes_in, ns_types::specs::Boundary::goes_of, ns_types::specs::Gateway::is_gateway))]
fn goes_in(memory: &Memory, target: u32) -> Goes
    ensures value { result ≡ goes_in memory.now.device target }
    ensures entry { entry_of result + 4 < 2 ^ 32 }
{
    let at = align(2, target);
    if is_gateway(memory, at) {
        Goes::Enter(at)
    } else if at == FUNCTION_RETURN {
        Goes::Return
    } else if is_nonsecure(at) {
        Goes::Turn
    } else if is_secure(at) {
        Goes::EntryPoint
    } else {
        Goes::Astray
    }
}

/// All that Non-secure code sees of the registers where it begins at an address.
fn seen(cpu: &Cpu, pc: u32) -> View
    ensures { result ≡ seen cpu.now pc }
{
    let r = &cpu.regs;
    View {
        r: [
            r.r0, r.r1, r.r2, r.r3, r.r4, r.r5, r.r6, r.r7, r.r8, r.r9, r.r10, r.r11, r.r12,
        ],
        lr: r.lr,
        pc,
        nzcvq: cpu.nzcvq,
        msp_ns: cpu.msp_ns,
        psp_ns: cpu.psp_ns,
    }
}

/// Why a function return stops, if it does.
#[tactic(auto, unfolding(crate::specs::Step::return_stop))]
fn return_stop(memory: &Memory, cpu: &Cpu) -> Option<Stop>
    ensures { result ≡ return_stop memory.now.device (state cpu.now memory.now.memory) }
{
    let sp = cpu.regs.sp;
    if sp % 8 != 0 {
        return Some(Stop::BadState);
    }
    if !(can_read(sp, 4) && can_read(sp + 4, 4)) {
        return Some(Stop::Unmapped);
    }
    if memory.load(sp + 4, 4) % 0x200 != 0 {
        return Some(Stop::ReturnFault);
    }
    if !is_in_rom(align(2, memory.load(sp, 4))) {
        return Some(Stop::BadState);
    }
    None
}

/// A function return: back to Secure code by the two words at SP.
#[inline(never)]
#[tactic(auto, unfolding(crate::specs::Step::return_to, crate::specs::Step::return_stop, ns_types::specs::Platform::is_readable))]
fn return_to(memory: &Memory, cpu: &mut Cpu) -> Option<Stop>
    ensures { Ends (return_to memory.now.device (state cpu.old memory.now.memory)) (state cpu.old memory.now.memory) (state cpu.new memory.now.memory) result }
{
    let why = return_stop(memory, cpu);
    if why.is_none() {
        let sp = cpu.regs.sp;
        cpu.pc = align(2, memory.load(sp, 4));
        cpu.regs.sp = sp + 8;
        cpu.side = Side::Secure;
    }
    why
}

/// A function return that stops the machine where it stops.
fn returned(memory: &Memory, cpu: &mut Cpu) -> Stepped
    ensures step { return_to memory.now.device (state cpu.old memory.now.memory) ≡ done cpu.new memory.now.memory result }
    ensures quiet { IsTrue (is_quiet result) }
{
    match return_to(memory, cpu) {
        Some(why) => stop(cpu, why),
        None => Stepped::Went,
    }
}

/// Enters by the gateway at an address.
fn enter(cpu: &mut Cpu, e: u32)
    requires { e + 4 < 2 ^ 32 }
    ensures { cpu.new ≡ entered_cpu e cpu.old }
{
    cpu.side = Side::Secure;
    cpu.regs.lr = align(2, cpu.regs.lr);
    cpu.pc = e + 4;
}

/// A branch in Non-secure state, or from Secure to Non-secure state: `at` is the program counter of a hand-over,
/// and `show` what such a step is.
pub fn arrive(memory: &Memory, cpu: &mut Cpu, target: u32, at: u32, show: Stepped) -> Stepped
    ensures step { arrived memory.now.device (goes_in memory.now.device target) at show (state cpu.old memory.now.memory)
        ≡ done cpu.new memory.now.memory result }
    ensures quiet { IsTrue (is_quiet show) → IsTrue (is_quiet result) }
{
    match goes_in(memory, target) {
        Goes::Enter(e) => {
            enter(cpu, e);
            Stepped::Went
        }
        Goes::Return => returned(memory, cpu),
        Goes::Turn => {
            cpu.side = Side::NonSecure;
            cpu.pc = at;
            show
        }
        Goes::EntryPoint => stop(cpu, Stop::EntryPoint),
        Goes::Astray => stop(cpu, Stop::Astray),
    }
}

/// BXNS: a function return; with bit 0 set a branch in Secure state; else Non-secure state.
#[tactic(auto, unfolding(crate::specs::Step::bxns))]
pub fn bxns(memory: &Memory, cpu: &mut Cpu, v: u32) -> Stepped
    ensures { bxns memory.now.device v (state cpu.old memory.now.memory) ≡ done cpu.new memory.now.memory result }
{
    if align(2, v) == FUNCTION_RETURN {
        return returned(memory, cpu);
    }
    if v % 2 == 0 {
        let view = seen(cpu, v);
        return arrive(memory, cpu, v, v, Stepped::Given(view));
    }
    if !is_in_rom(v - 1) {
        return stop(cpu, Stop::BadState);
    }
    cpu.pc = v - 1;
    Stepped::Went
}

/// BX: a function return, or a branch in Secure state to an address with bit 0 set.
#[tactic(auto, unfolding(crate::specs::Step::bx))]
pub fn bx(memory: &Memory, cpu: &mut Cpu, v: u32) -> Option<Stop>
    ensures { Ends (bx memory.now.device v (state cpu.old memory.now.memory)) (state cpu.old memory.now.memory) (state cpu.new memory.now.memory) result }
{
    if align(2, v) == FUNCTION_RETURN {
        return return_to(memory, cpu);
    }
    if v % 2 == 0 || !is_in_rom(v - 1) {
        return Some(Stop::BadState);
    }
    cpu.pc = v - 1;
    None
}

/// Why a new number for SP stops, if it does.
pub fn limit_stop(v: u32, cpu: &Cpu) -> Option<Stop>
    ensures { result ≡ limit_stop v cpu.now }
{
    if align(4, v) < cpu.msplim {
        Some(Stop::StackLimit)
    } else {
        None
    }
}

/// The return address of an instruction of a size, with bit 0 set.
pub fn link(size: u32, cpu: &Cpu) -> u32
    requires { cpu.now.pc + size < 2 ^ 32 }
    ensures { result ≡ link size cpu.now }
{
    align(2, cpu.pc + size) + 1
}

/// Why a call of Non-secure code stops, if it does.
#[tactic(auto, unfolding(crate::specs::Step::call_stop))]
fn call_stop(cpu: &Cpu) -> Option<Stop>
    ensures { result ≡ call_stop cpu.now }
{
    if cpu.regs.sp % 8 != 0 {
        return Some(Stop::BadState);
    }
    let sp = cpu.regs.sp.wrapping_sub(8);
    if let Some(why) = limit_stop(sp, cpu) {
        return Some(why);
    }
    if can_write(sp, 4) && can_write(sp.wrapping_add(4), 4) {
        None
    } else {
        Some(Stop::Unmapped)
    }
}

/// A call of Non-secure code: the return address and the word above it are pushed.
#[tactic(auto, unfolding(crate::specs::Step::call_stop))]
fn call(memory: &mut Memory, cpu: &mut Cpu, back: u32)
    requires { call_stop cpu.old ≡ None }
    ensures device { memory.new.device ≡ memory.old.device }
    ensures called { called back (state cpu.old memory.old.memory) ≡ state cpu.new memory.new.memory }
{
    let sp = cpu.regs.sp.wrapping_sub(8);
    memory.store(sp, 4, back);
    memory.store(sp.wrapping_add(4), 4, 0);
    cpu.regs.sp = sp;
    cpu.regs.lr = FUNCTION_RETURN + 1;
}

/// A call of the function return address: it returns at once, by the words that it pushed.
#[tactic(auto, unfolding(crate::specs::Step::call_stop))]
fn call_of_return(memory: &mut Memory, cpu: &mut Cpu, back: u32) -> Stepped
    requires { call_stop cpu.old ≡ None }
    ensures device { memory.new.device ≡ memory.old.device }
    ensures step { only_stopped (state cpu.old memory.old.memory) (return_to memory.old.device (called back (state cpu.old memory.old.memory))) ≡ done cpu.new memory.new.memory result }
{
    let to = align(2, back);
    let sp = cpu.regs.get(13);
    memory.each_is_whole();
    if !is_in_rom(to) {
        return stop(cpu, Stop::BadState);
    }
    call(memory, cpu, back);
    cpu.side = Side::Secure;
    cpu.regs.sp = sp;
    cpu.pc = to;
    Stepped::Went
}

/// A call of Non-secure code at an address with bit 0 clear.
fn call_nonsecure(memory: &mut Memory, cpu: &mut Cpu, v: u32, back: u32) -> Stepped
    requires { call_stop cpu.old ≡ None }
    ensures device { memory.new.device ≡ memory.old.device }
    ensures step { only_stopped (state cpu.old memory.old.memory) (called_at memory.old.device v (called back (state cpu.old memory.old.memory))) ≡ done cpu.new memory.new.memory result }
{
    match goes_in(memory, v) {
        Goes::Return => call_of_return(memory, cpu, back),
        Goes::EntryPoint => stop(cpu, Stop::EntryPoint),
        Goes::Astray => stop(cpu, Stop::Astray),
        Goes::Enter(e) => {
            call(memory, cpu, back);
            enter(cpu, e);
            Stepped::Went
        }
        Goes::Turn => {
            call(memory, cpu, back);
            cpu.side = Side::NonSecure;
            cpu.pc = v;
            Stepped::Given(seen(cpu, v))
        }
    }
}

/// BLXNS: with bit 0 set a call in Secure state, else one of Non-secure code.
#[tactic(auto, unfolding(crate::specs::Step::blxns))]
pub fn blxns(memory: &mut Memory, cpu: &mut Cpu, v: u32, size: u32) -> Stepped
    requires { cpu.old.pc + size < 2 ^ 32 }
    ensures device { memory.new.device ≡ memory.old.device }
    ensures step { blxns memory.old.device v size (state cpu.old memory.old.memory) ≡ done cpu.new memory.new.memory result }
{
    let back = link(size, cpu);
    if v % 2 == 0 {
        if let Some(why) = call_stop(cpu) {
            return stop(cpu, why);
        }
        return call_nonsecure(memory, cpu, v, back);
    }
    if !is_in_rom(v - 1) {
        return stop(cpu, Stop::BadState);
    }
    cpu.regs.lr = back;
    cpu.pc = v - 1;
    Stepped::Went
}
