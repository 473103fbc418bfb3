//! From instructions to halfwords, and back.

ghost use Rattle.std.specs.Prelude.{◌≡◌, ◌/◌, ◌%◌, ◌^◌, ◌<◌, IsTrue, IfSome, IfNone, Some, None, option_map};
ghost use Rattle.v8m_isa.specs.Table.{in_range_of, code_of, IsReadAs, IsNoInstr};
ghost use Rattle.v8m_isa.specs.Decoding.{decode_of, is_narrow, read_by, pair_of};
ghost use Rattle.v8m_isa.specs.Choice.{chosen, choices, narrow_choices, bx_choices, register_choices, tt_choices, plain_choices, branch_choices, number_choices, memory_choices, shift_choices};

use crate::instr::{Code, Instr};
use crate::table::{Opcode, form_of, instr_of, parts_of};

/// Whether each field of an instruction is in its row's range.
pub fn in_range(i: &Instr) -> bool
    ensures { result ≡ in_range_of i.now }
{
    let (opcode, numbers) = parts_of(i);
    form_of(opcode).takes(&numbers)
}

/// The halfwords of an instruction (DDI0553, part C).
pub fn encode(i: &Instr) -> Code
    requires { IsTrue (in_range_of i.now) }
    ensures is { result ≡ code_of i.now }
    ensures back { decode_of result.first result.second ≡ Some (record { instr = i.now; size = result.size }) }
    ensures narrow { result.size ≡ 2 → result.second ≡ 0 }
{
    code(i)
}

// The halfwords of an instruction.
fn code(i: &Instr) -> Code
    requires { IsTrue (in_range_of i.now) }
    ensures { result ≡ code_of i.now }
{
    let (opcode, numbers) = parts_of(i);
    form_of(opcode).code(&numbers)
}

/// The instruction that begins with these halfwords, and its size in bytes, 2 or 4: at size 2 it is the first halfword
/// alone. None where they are of no row.
pub fn decode(first: u16, second: u16) -> Option<(Instr, u8)>
    ensures is { result ≡ option_map pair_of (decode_of first second) }
    ensures back { IfSome result (λ p. IsReadAs first second p.0 p.1) }
    ensures none { IfNone result (IsNoInstr first second) }
{
    found(first, second)
}

/// Whether a halfword is an instruction by itself.
pub fn is_narrow(first: u16) -> bool
    ensures { result ≡ is_narrow first }
{
    bits(first, 11, 5) < 0b11101 && decode(first, 0).is_some()
}

// The instruction that begins with these halfwords.
fn found(first: u16, second: u16) -> Option<(Instr, u8)>
    ensures { result ≡ option_map pair_of (decode_of first second) }
{
    let opcode = opcode_for(first, second)?;
    read(opcode, first, second)
}

// The only row that these halfwords can be of, by a few of their bits.
#[tactic(auto, unfolding(crate::specs::Choice::choices))]
fn opcode_for(first: u16, second: u16) -> Option<Opcode>
    ensures { result ≡ chosen choices first second }
{
    match bits(first, 11, 5) {
        0b11101 => register_row(first, second),
        0b11110 => plain_row(first, second),
        0b11111 if bits(first, 9, 2) == 0 => memory_row(first, second),
        0b11111 => shift_row(first, second),
        _ => narrow_row(first, second),
    }
}

// Of the rows of one halfword.
fn narrow_row(first: u16, second: u16) -> Option<Opcode>
    ensures { result ≡ chosen narrow_choices first second }
{
    match bits(first, 8, 8) {
        0x46 => Some(Opcode::Mov),
        0x47 => bx_row(first, second),
        0xBF => Some(Opcode::Nop),
        0xDE => Some(Opcode::Udf),
        _ => None,
    }
}

// Of BX, BXNS and BLXNS.
fn bx_row(first: u16, second: u16) -> Option<Opcode>
    ensures { result ≡ chosen bx_choices first second }
{
    if bits(first, 0, 3) != 4 {
        Some(Opcode::Bx)
    } else if bits(first, 7, 1) == 1 {
        Some(Opcode::Blxns)
    } else {
        Some(Opcode::Bxns)
    }
}

// Of those on registers and lists of them, SG and TT.
fn register_row(first: u16, second: u16) -> Option<Opcode>
    ensures { result ≡ chosen register_choices first second }
{
    match bits(first, 4, 7) {
        0x04 => tt_row(first, second),
        0x0B => Some(Opcode::Ldmia),
        0x12 => Some(Opcode::Stmdb),
        0x17 => Some(Opcode::Sg),
        0x20 => Some(Opcode::And),
        0x22 => Some(Opcode::Bic),
        0x24 => Some(Opcode::Orr),
        0x26 => Some(Opcode::Mvn),
        0x28 => Some(Opcode::Eor),
        0x30 => Some(Opcode::Add),
        0x3A => Some(Opcode::Sub),
        0x3B => Some(Opcode::Cmp),
        0x3C => Some(Opcode::Rsb),
        _ => None,
    }
}

// Of TT and its kin.
fn tt_row(first: u16, second: u16) -> Option<Opcode>
    ensures { result ≡ chosen tt_choices first second }
{
    match bits(second, 6, 2) {
        0 => Some(Opcode::Tt),
        1 => Some(Opcode::Ttt),
        2 => Some(Opcode::Tta),
        _ => Some(Opcode::Ttat),
    }
}

// Of those on plain numbers, branches and special registers.
fn plain_row(first: u16, second: u16) -> Option<Opcode>
    ensures { result ≡ chosen plain_choices first second }
{
    if bits(second, 15, 1) == 1 {
        branch_row(first, second)
    } else {
        number_row(first, second)
    }
}

// Of branches and special registers. A condition of 14 or 15 in its place tells the latter.
fn branch_row(first: u16, second: u16) -> Option<Opcode>
    ensures { result ≡ chosen branch_choices first second }
{
    if bits(second, 12, 1) == 1 {
        if bits(second, 14, 1) == 1 {
            Some(Opcode::Bl)
        } else {
            Some(Opcode::B)
        }
    } else if bits(first, 7, 3) != 7 {
        Some(Opcode::Bc)
    } else if bits(first, 6, 1) == 1 {
        Some(Opcode::Mrs)
    } else {
        Some(Opcode::Msr)
    }
}

// Of those on plain numbers.
fn number_row(first: u16, second: u16) -> Option<Opcode>
    ensures { result ≡ chosen number_choices first second }
{
    match bits(first, 4, 6) {
        0x20 => Some(Opcode::Addw),
        0x24 => Some(Opcode::Movw),
        0x2A => Some(Opcode::Subw),
        0x2C => Some(Opcode::Movt),
        _ => None,
    }
}

// Of those that load and store.
fn memory_row(first: u16, second: u16) -> Option<Opcode>
    ensures { result ≡ chosen memory_choices first second }
{
    match bits(first, 4, 7) {
        0x08 => Some(Opcode::Strb),
        0x09 => Some(Opcode::Ldrb),
        0x0A => Some(Opcode::Strh),
        0x0B => Some(Opcode::Ldrh),
        0x0C => Some(Opcode::Str),
        0x0D => Some(Opcode::Ldr),
        0x19 => Some(Opcode::Ldrsb),
        0x1B => Some(Opcode::Ldrsh),
        _ => None,
    }
}

// Of shifts, extensions, products and quotients.
fn shift_row(first: u16, second: u16) -> Option<Opcode>
    ensures { result ≡ chosen shift_choices first second }
{
    match bits(first, 4, 7) {
        0x20 => Some(if bits(second, 7, 1) == 1 {
            Opcode::Sxth
        } else {
            Opcode::Lsl
        }),
        0x21 => Some(Opcode::Uxth),
        0x22 => Some(Opcode::Lsr),
        0x24 => Some(if bits(second, 7, 1) == 1 {
            Opcode::Sxtb
        } else {
            Opcode::Asr
        }),
        0x25 => Some(Opcode::Uxtb),
        0x30 => Some(if bits(second, 4, 1) == 1 {
            Opcode::Mls
        } else {
            Opcode::Mul
        }),
        0x39 => Some(Opcode::Sdiv),
        0x3B => Some(Opcode::Udiv),
        _ => None,
    }
}

// Some neighbouring bits of a halfword.
fn bits(halfword: u16, at: u8, wide: u8) -> u16
    requires at { at < 16 }
    requires wide { wide < 16 }
    ensures { result ≡ halfword / 2 ^ at % 2 ^ wide }
{
    (halfword >> at) % (1 << wide)
}

// The instruction of a row, where the halfwords are of it.
#[tactic(auto, unfolding(crate::specs::Decoding::read_by))]
fn read(opcode: Opcode, first: u16, second: u16) -> Option<(Instr, u8)>
    ensures { result ≡ option_map pair_of (read_by opcode first second) }
{
    let form = form_of(opcode);
    let numbers = form.read(first, second)?;
    Some((instr_of(opcode, &numbers), form.size()))
}
