//! What each instruction does, from the registers: a row of the instruction table is an arm, in groups.

ghost use Rattle.std.specs.Prelude.{◌≡◌, ◌+◌, ◌^◌, ◌<◌, IfSome, IsTrue, cond};
ghost use Rattle.ns_types.specs.Operators.{add};
ghost use Rattle.ns_types.specs.State.{get_of};
ghost use Rattle.v8m_isa.specs.Table.{in_range_of};
ghost use Rattle.v8m_core.specs.Effects.{accessed, bitwise, branched, computed, moved, named, special_of, udf_stop};
ghost use Rattle.v8m_core.specs.Values.{condition_holds};
ghost use Rattle.v8m_core.specs.Step.{effect_of};
ghost use Rattle.v8m_core.specs.Parts.{can_apply};

use crate::Effect;
use crate::values::{
    compared, condition_holds, quotient, shifted_left, shifted_right, shifted_with_sign,
    signed_byte, signed_half, signed_quotient,
};
use cm_base::Stop;
use ns_types::Cpu;
use v8m_isa::Instr;
use v8m_mem::target;

/// A write of a register.
#[inline(always)]
fn put(d: u32, v: u32) -> Effect
    ensures { result ≡ Effect.Put d v }
{
    Effect::Put { d, v }
}

/// Moves and extensions.
#[inline(always)]
#[tactic(auto, unfolding(v8m_isa::specs::Table::in_range_of))]
fn moved(cpu: &Cpu, instr: &Instr) -> Option<Effect>
    requires { IsTrue (in_range_of instr.now) }
    ensures value { result ≡ moved instr.now cpu.now }
    ensures fits { IfSome result (λ e. IsTrue (can_apply e)) }
{
    let r = &cpu.regs;
    match *instr {
        Instr::Nop => Some(Effect::Pass),
        Instr::Sg => Some(Effect::Pass),
        Instr::Mov { d, m } => Some(put(d, r.get(m))),
        Instr::Movw { d, i } => Some(put(d, i)),
        Instr::Movt { d, i } => {
            let low = r.get(d) % 0x1_0000;
            Some(put(d, 0x1_0000 * i + low))
        }
        Instr::Sxtb { d, m } => Some(put(d, signed_byte(r.get(m)))),
        Instr::Sxth { d, m } => Some(put(d, signed_half(r.get(m)))),
        Instr::Uxtb { d, m } => Some(put(d, r.get(m) % 0x100)),
        Instr::Uxth { d, m } => Some(put(d, r.get(m) % 0x1_0000)),
        _ => None,
    }
}

/// Arithmetic.
#[inline(always)]
#[tactic(auto, unfolding(v8m_isa::specs::Table::in_range_of))]
fn computed(cpu: &Cpu, instr: &Instr) -> Option<Effect>
    requires { IsTrue (in_range_of instr.now) }
    ensures value { result ≡ computed instr.now cpu.now }
    ensures fits { IfSome result (λ e. IsTrue (can_apply e)) }
{
    let r = &cpu.regs;
    match *instr {
        Instr::Addw { d, n, i } => Some(put(d, r.get(n).wrapping_add(i))),
        Instr::Subw { d, n, i } => Some(put(d, r.get(n).wrapping_sub(i))),
        Instr::Add { d, n, m } => Some(put(d, r.get(n).wrapping_add(r.get(m)))),
        Instr::Sub { d, n, m } => Some(put(d, r.get(n).wrapping_sub(r.get(m)))),
        Instr::Rsb { d, n, m } => Some(put(d, r.get(m).wrapping_sub(r.get(n)))),
        Instr::Cmp { n, m } => {
            let nzcvq = compared(r.get(n), r.get(m), cpu.nzcvq);
            Some(Effect::Flags { nzcvq })
        }
        Instr::Mul { d, n, m } => Some(put(d, r.get(n).wrapping_mul(r.get(m)))),
        Instr::Mls { d, n, m, a } => {
            let product = r.get(n).wrapping_mul(r.get(m));
            Some(put(d, r.get(a).wrapping_sub(product)))
        }
        Instr::Sdiv { d, n, m } => Some(put(d, signed_quotient(r.get(n), r.get(m)))),
        Instr::Udiv { d, n, m } => Some(put(d, quotient(r.get(n), r.get(m)))),
        _ => None,
    }
}

/// Bits, and shifts by the low byte of m.
#[inline(always)]
#[tactic(auto, unfolding(v8m_isa::specs::Table::in_range_of))]
fn bitwise(cpu: &Cpu, instr: &Instr) -> Option<Effect>
    requires { IsTrue (in_range_of instr.now) }
    ensures value { result ≡ bitwise instr.now cpu.now }
    ensures fits { IfSome result (λ e. IsTrue (can_apply e)) }
{
    let r = &cpu.regs;
    match *instr {
        Instr::And { d, n, m } => Some(put(d, r.get(n) & r.get(m))),
        Instr::Bic { d, n, m } => Some(put(d, r.get(n) & !r.get(m))),
        Instr::Orr { d, n, m } => Some(put(d, r.get(n) | r.get(m))),
        Instr::Eor { d, n, m } => Some(put(d, r.get(n) ^ r.get(m))),
        Instr::Mvn { d, m } => Some(put(d, !r.get(m))),
        Instr::Lsl { d, n, m } => Some(put(d, shifted_left(r.get(n), r.get(m) % 0x100))),
        Instr::Lsr { d, n, m } => Some(put(d, shifted_right(r.get(n), r.get(m) % 0x100))),
        Instr::Asr { d, n, m } => Some(put(d, shifted_with_sign(r.get(n), r.get(m) % 0x100))),
        _ => None,
    }
}

/// A load of `size` bytes at register n plus i.
#[inline(always)]
fn load(cpu: &Cpu, t: u32, n: u32, i: u32, size: u8) -> Effect
    requires { n < 15 }
    ensures { result ≡ Effect.Load t (add (get_of cpu.now.regs n) i) size }
{
    let at = cpu.regs.get(n).wrapping_add(i);
    Effect::Load { t, at, size }
}

/// The same with a sign.
#[inline(always)]
fn load_signed(cpu: &Cpu, t: u32, n: u32, i: u32, size: u8) -> Effect
    requires { n < 15 }
    ensures { result ≡ Effect.LoadSigned t (add (get_of cpu.now.regs n) i) size }
{
    let at = cpu.regs.get(n).wrapping_add(i);
    Effect::LoadSigned { t, at, size }
}

/// A store of `size` bytes at register n plus i.
#[inline(always)]
fn store(cpu: &Cpu, n: u32, i: u32, size: u8, v: u32) -> Effect
    requires { n < 15 }
    ensures { result ≡ Effect.Store (add (get_of cpu.now.regs n) i) size v }
{
    let at = cpu.regs.get(n).wrapping_add(i);
    Effect::Store { at, size, v }
}

/// Loads and stores.
#[inline(always)]
#[tactic(auto, unfolding(v8m_isa::specs::Table::in_range_of))]
fn accessed(cpu: &Cpu, instr: &Instr) -> Option<Effect>
    requires { IsTrue (in_range_of instr.now) }
    ensures value { result ≡ accessed instr.now cpu.now }
    ensures fits { IfSome result (λ e. IsTrue (can_apply e)) }
{
    let effect = match *instr {
        Instr::Ldr { t, n, i } => load(cpu, t, n, i, 4),
        Instr::Ldrb { t, n, i } => load(cpu, t, n, i, 1),
        Instr::Ldrh { t, n, i } => load(cpu, t, n, i, 2),
        Instr::Ldrsb { t, n, i } => load_signed(cpu, t, n, i, 1),
        Instr::Ldrsh { t, n, i } => load_signed(cpu, t, n, i, 2),
        Instr::Str { t, n, i } => store(cpu, n, i, 4, cpu.regs.get(t)),
        Instr::Strb { t, n, i } => store(cpu, n, i, 1, cpu.regs.get(t) % 0x100),
        Instr::Strh { t, n, i } => store(cpu, n, i, 2, cpu.regs.get(t) % 0x1_0000),
        Instr::Stmdb { list } => Effect::Push { list },
        Instr::Ldmia { list } => Effect::Pop { list },
        _ => return None,
    };
    Some(effect)
}

/// The stop of UDF, by its number.
fn udf_stop(i: u32) -> Stop
    ensures { result ≡ udf_stop i }
{
    match i {
        1 => Stop::Divide,
        2 => Stop::Outside,
        3 => Stop::Misaligned,
        4 => Stop::DataStack,
        5 => Stop::CallTarget,
        _ => Stop::Undefined,
    }
}

/// Where a branch with an offset goes.
fn branch_target(cpu: &Cpu, off: u32) -> u32
    requires { cpu.now.pc + 4 < 2 ^ 32 }
    ensures { result ≡ add (cpu.now.pc + 4) off }
{
    (cpu.pc + 4).wrapping_add(off)
}

/// Branches.
#[inline(always)]
#[tactic(auto, unfolding(v8m_isa::specs::Table::in_range_of))]
fn branched(cpu: &Cpu, instr: &Instr) -> Option<Effect>
    requires range { IsTrue (in_range_of instr.now) }
    requires room { cpu.now.pc + 4 < 2 ^ 32 }
    ensures value { result ≡ branched instr.now cpu.now }
    ensures fits { IfSome result (λ e. IsTrue (can_apply e)) }
{
    let r = &cpu.regs;
    match *instr {
        Instr::Bx { m } => Some(Effect::Bx { v: r.get(m) }),
        Instr::Bxns { m } => Some(Effect::Bxns { v: r.get(m) }),
        Instr::Blxns { m } => Some(Effect::Blxns { v: r.get(m) }),
        Instr::Udf { i } => Some(Effect::Stop(udf_stop(i))),
        Instr::B { off } => {
            let at = branch_target(cpu, off);
            Some(Effect::Jump { at })
        }
        Instr::Bl { off } => {
            let at = branch_target(cpu, off);
            Some(Effect::Call { at })
        }
        Instr::Bc { c, off } => Some(branch_if(cpu, c, off)),
        _ => None,
    }
}

/// A branch under a condition.
fn branch_if(cpu: &Cpu, condition: u32, off: u32) -> Effect
    requires { cpu.now.pc + 4 < 2 ^ 32 }
    ensures { result ≡ cond (condition_holds condition cpu.now.nzcvq) (Effect.Jump (add (cpu.now.pc + 4) off)) Effect.Pass }
{
    if condition_holds(condition, cpu.nzcvq) {
        let at = branch_target(cpu, off);
        Effect::Jump { at }
    } else {
        Effect::Pass
    }
}

/// A special register, by its number in MRS.
fn special_of(cpu: &Cpu, k: u32) -> u32
    ensures { result ≡ special_of k cpu.now }
{
    match k {
        0 => 0x800_0000 * (cpu.nzcvq % 32) as u32,
        8 => cpu.regs.sp,
        9 => cpu.psp,
        10 => cpu.msplim,
        11 => cpu.psplim,
        136 => cpu.msp_ns,
        _ => cpu.psp_ns,
    }
}

/// Special registers, and the answers of TT.
#[inline(always)]
#[tactic(auto, unfolding(v8m_isa::specs::Table::in_range_of))]
fn named(cpu: &Cpu, instr: &Instr) -> Option<Effect>
    requires { IsTrue (in_range_of instr.now) }
    ensures value { result ≡ named instr.now cpu.now }
    ensures fits { IfSome result (λ e. IsTrue (can_apply e)) }
{
    let r = &cpu.regs;
    match *instr {
        Instr::Msr { s, n } => Some(Effect::Special { k: s, v: r.get(n) }),
        Instr::Mrs { d, s } => Some(put(d, special_of(cpu, s))),
        Instr::Tt { d, n } => Some(put(d, target(r.get(n)))),
        Instr::Ttt { d, n } => Some(put(d, target(r.get(n)))),
        Instr::Tta { d, n } => Some(put(d, target(r.get(n)))),
        Instr::Ttat { d, n } => Some(put(d, target(r.get(n)))),
        _ => None,
    }
}

/// The effect of an instruction with its operands read.
#[inline(always)]
#[tactic(auto, unfolding(crate::specs::Step::effect_of))]
pub fn effect_of(cpu: &Cpu, instr: &Instr) -> Effect
    requires range { IsTrue (in_range_of instr.now) }
    requires room { cpu.now.pc + 4 < 2 ^ 32 }
    ensures value { result ≡ effect_of instr.now cpu.now }
    ensures fits { IsTrue (can_apply result) }
{
    if let Some(effect) = moved(cpu, instr) {
        return effect;
    }
    if let Some(effect) = computed(cpu, instr) {
        return effect;
    }
    if let Some(effect) = bitwise(cpu, instr) {
        return effect;
    }
    if let Some(effect) = accessed(cpu, instr) {
        return effect;
    }
    if let Some(effect) = branched(cpu, instr) {
        return effect;
    }
    if let Some(effect) = named(cpu, instr) {
        return effect;
    }
    Effect::Pass
}
