//! The instruction table, a row a line, in the manual's order. A row is its halfwords with 0 in the fields, and then
//! its fields.

ghost use Rattle.std.specs.Prelude.{◌≡◌};
ghost use Rattle.v8m_isa.specs.Form.{row};
ghost use Rattle.v8m_isa.specs.Rows.{row_of, opcode_of, numbers_of, instr_of};

use crate::form::{Form, Rule};
use crate::instr::Instr;
use crate::operand::Operand;

macro_rules! form {
    ($first:literal $($operand:ident)*) => {
        Form { wide: false, base: $first * 0x10000, operands: operands!($($operand)*), rule: Rule::Free }
    };
    ($first:literal $second:literal $($operand:ident)*) => {
        Form { wide: true, base: $first * 0x10000 + $second, operands: operands!($($operand)*), rule: Rule::Free }
    };
    ($first:literal $second:literal $($operand:ident)*, $rule:ident) => {
        Form { wide: true, base: $first * 0x10000 + $second, operands: operands!($($operand)*), rule: Rule::$rule }
    };
}

macro_rules! operands {
    () => { [Operand::Blank, Operand::Blank, Operand::Blank, Operand::Blank] };
    ($a:ident) => { [Operand::$a, Operand::Blank, Operand::Blank, Operand::Blank] };
    ($a:ident $b:ident) => { [Operand::$a, Operand::$b, Operand::Blank, Operand::Blank] };
    ($a:ident $b:ident $c:ident) => { [Operand::$a, Operand::$b, Operand::$c, Operand::Blank] };
    ($a:ident $b:ident $c:ident $d:ident) => { [Operand::$a, Operand::$b, Operand::$c, Operand::$d] };
}

pub const NOP: Form<4> = form!(0xBF00);

pub const MOV: Form<4> = form!(0x4600 NarrowRdOrSp NarrowRmOrSp);

pub const BX: Form<4> = form!(0x4700 NarrowRm);

pub const BXNS: Form<4> = form!(0x4704 NarrowRm);

pub const BLXNS: Form<4> = form!(0x4784 NarrowRm);

pub const UDF: Form<4> = form!(0xDE00 NarrowImm8);

pub const SG: Form<4> = form!(0xE97F 0xE97F);

pub const MOVW: Form<4> = form!(0xF240 0x0000 Rd Imm16);

pub const MOVT: Form<4> = form!(0xF2C0 0x0000 Rd Imm16);

pub const ADDW: Form<4> = form!(0xF200 0x0000 RdOrSp RnOrSp SplitImm12, SpFromSp);

pub const SUBW: Form<4> = form!(0xF2A0 0x0000 RdOrSp RnOrSp SplitImm12, SpFromSp);

pub const ADD: Form<4> = form!(0xEB00 0x0000 Rd Rn Rm);

pub const SUB: Form<4> = form!(0xEBA0 0x0000 Rd Rn Rm);

pub const RSB: Form<4> = form!(0xEBC0 0x0000 Rd Rn Rm);

pub const CMP: Form<4> = form!(0xEBB0 0x0F00 Rn Rm);

pub const AND: Form<4> = form!(0xEA00 0x0000 Rd Rn Rm);

pub const BIC: Form<4> = form!(0xEA20 0x0000 Rd Rn Rm);

pub const ORR: Form<4> = form!(0xEA40 0x0000 Rd Rn Rm);

pub const EOR: Form<4> = form!(0xEA80 0x0000 Rd Rn Rm);

pub const MVN: Form<4> = form!(0xEA6F 0x0000 Rd Rm);

pub const LSL: Form<4> = form!(0xFA00 0xF000 Rd Rn Rm);

pub const LSR: Form<4> = form!(0xFA20 0xF000 Rd Rn Rm);

pub const ASR: Form<4> = form!(0xFA40 0xF000 Rd Rn Rm);

pub const SXTB: Form<4> = form!(0xFA4F 0xF080 Rd Rm);

pub const SXTH: Form<4> = form!(0xFA0F 0xF080 Rd Rm);

pub const UXTB: Form<4> = form!(0xFA5F 0xF080 Rd Rm);

pub const UXTH: Form<4> = form!(0xFA1F 0xF080 Rd Rm);

pub const MUL: Form<4> = form!(0xFB00 0xF000 Rd Rn Rm);

pub const MLS: Form<4> = form!(0xFB00 0x0010 Rd Rn Rm Ra);

pub const SDIV: Form<4> = form!(0xFB90 0xF0F0 Rd Rn Rm);

pub const UDIV: Form<4> = form!(0xFBB0 0xF0F0 Rd Rn Rm);

pub const LDR: Form<4> = form!(0xF8D0 0x0000 Rt RnOrSp Imm12);

pub const LDRB: Form<4> = form!(0xF890 0x0000 Rt RnOrSp Imm12);

pub const LDRH: Form<4> = form!(0xF8B0 0x0000 Rt RnOrSp Imm12);

pub const LDRSB: Form<4> = form!(0xF990 0x0000 Rt RnOrSp Imm12);

pub const LDRSH: Form<4> = form!(0xF9B0 0x0000 Rt RnOrSp Imm12);

pub const STR: Form<4> = form!(0xF8C0 0x0000 Rt RnOrSp Imm12);

pub const STRB: Form<4> = form!(0xF880 0x0000 Rt RnOrSp Imm12);

pub const STRH: Form<4> = form!(0xF8A0 0x0000 Rt RnOrSp Imm12);

pub const STMDB: Form<4> = form!(0xE92D 0x0000 List);

pub const LDMIA: Form<4> = form!(0xE8BD 0x0000 List);

pub const B: Form<4> = form!(0xF000 0x9000 Far);

pub const BL: Form<4> = form!(0xF000 0xD000 Far);

pub const BC: Form<4> = form!(0xF000 0x8000 Condition Near);

pub const MSR: Form<4> = form!(0xF380 0x8800 Special Rn);

pub const MRS: Form<4> = form!(0xF3EF 0x8000 Rd Special);

pub const TT: Form<4> = form!(0xE840 0xF000 Rd Rn);

pub const TTT: Form<4> = form!(0xE840 0xF040 Rd Rn);

pub const TTA: Form<4> = form!(0xE840 0xF080 Rd Rn);

pub const TTAT: Form<4> = form!(0xE840 0xF0C0 Rd Rn);

/// The rows' names.
#[derive(Clone, Copy, PartialEq, Eq)]
pub enum Opcode {
    Nop,
    Mov,
    Bx,
    Bxns,
    Blxns,
    Udf,
    Sg,
    Movw,
    Movt,
    Addw,
    Subw,
    Add,
    Sub,
    Rsb,
    Cmp,
    And,
    Bic,
    Orr,
    Eor,
    Mvn,
    Lsl,
    Lsr,
    Asr,
    Sxtb,
    Sxth,
    Uxtb,
    Uxth,
    Mul,
    Mls,
    Sdiv,
    Udiv,
    Ldr,
    Ldrb,
    Ldrh,
    Ldrsb,
    Ldrsh,
    Str,
    Strb,
    Strh,
    Stmdb,
    Ldmia,
    B,
    Bl,
    Bc,
    Msr,
    Mrs,
    Tt,
    Ttt,
    Tta,
    Ttat,
}

/// A row.
#[tactic(auto, unfolding(crate::specs::Rows::row_of))]
pub fn form_of(opcode: Opcode) -> Form<4>
    ensures { row result ≡ row_of opcode }
{
    match opcode {
        Opcode::Nop => NOP,
        Opcode::Mov => MOV,
        Opcode::Bx => BX,
        Opcode::Bxns => BXNS,
        Opcode::Blxns => BLXNS,
        Opcode::Udf => UDF,
        Opcode::Sg => SG,
        Opcode::Movw => MOVW,
        Opcode::Movt => MOVT,
        Opcode::Addw => ADDW,
        Opcode::Subw => SUBW,
        Opcode::Add => ADD,
        Opcode::Sub => SUB,
        Opcode::Rsb => RSB,
        Opcode::Cmp => CMP,
        Opcode::And => AND,
        Opcode::Bic => BIC,
        Opcode::Orr => ORR,
        Opcode::Eor => EOR,
        Opcode::Mvn => MVN,
        Opcode::Lsl => LSL,
        Opcode::Lsr => LSR,
        Opcode::Asr => ASR,
        Opcode::Sxtb => SXTB,
        Opcode::Sxth => SXTH,
        Opcode::Uxtb => UXTB,
        Opcode::Uxth => UXTH,
        Opcode::Mul => MUL,
        Opcode::Mls => MLS,
        Opcode::Sdiv => SDIV,
        Opcode::Udiv => UDIV,
        Opcode::Ldr => LDR,
        Opcode::Ldrb => LDRB,
        Opcode::Ldrh => LDRH,
        Opcode::Ldrsb => LDRSB,
        Opcode::Ldrsh => LDRSH,
        Opcode::Str => STR,
        Opcode::Strb => STRB,
        Opcode::Strh => STRH,
        Opcode::Stmdb => STMDB,
        Opcode::Ldmia => LDMIA,
        Opcode::B => B,
        Opcode::Bl => BL,
        Opcode::Bc => BC,
        Opcode::Msr => MSR,
        Opcode::Mrs => MRS,
        Opcode::Tt => TT,
        Opcode::Ttt => TTT,
        Opcode::Tta => TTA,
        Opcode::Ttat => TTAT,
    }
}

/// The row of an instruction, and the numbers of its fields.
#[tactic(auto, unfolding(crate::specs::Rows::opcode_of, crate::specs::Rows::numbers_of))]
pub fn parts_of(i: &Instr) -> (Opcode, [u32; 4])
    ensures row { result.0 ≡ opcode_of i.now }
    ensures numbers { result.1 ≡ numbers_of i.now }
{
    match *i {
        Instr::Nop => (Opcode::Nop, [0, 0, 0, 0]),
        Instr::Mov { d, m } => (Opcode::Mov, [d, m, 0, 0]),
        Instr::Bx { m } => (Opcode::Bx, [m, 0, 0, 0]),
        Instr::Bxns { m } => (Opcode::Bxns, [m, 0, 0, 0]),
        Instr::Blxns { m } => (Opcode::Blxns, [m, 0, 0, 0]),
        Instr::Udf { i } => (Opcode::Udf, [i, 0, 0, 0]),
        Instr::Sg => (Opcode::Sg, [0, 0, 0, 0]),
        Instr::Movw { d, i } => (Opcode::Movw, [d, i, 0, 0]),
        Instr::Movt { d, i } => (Opcode::Movt, [d, i, 0, 0]),
        Instr::Addw { d, n, i } => (Opcode::Addw, [d, n, i, 0]),
        Instr::Subw { d, n, i } => (Opcode::Subw, [d, n, i, 0]),
        Instr::Add { d, n, m } => (Opcode::Add, [d, n, m, 0]),
        Instr::Sub { d, n, m } => (Opcode::Sub, [d, n, m, 0]),
        Instr::Rsb { d, n, m } => (Opcode::Rsb, [d, n, m, 0]),
        Instr::Cmp { n, m } => (Opcode::Cmp, [n, m, 0, 0]),
        Instr::And { d, n, m } => (Opcode::And, [d, n, m, 0]),
        Instr::Bic { d, n, m } => (Opcode::Bic, [d, n, m, 0]),
        Instr::Orr { d, n, m } => (Opcode::Orr, [d, n, m, 0]),
        Instr::Eor { d, n, m } => (Opcode::Eor, [d, n, m, 0]),
        Instr::Mvn { d, m } => (Opcode::Mvn, [d, m, 0, 0]),
        Instr::Lsl { d, n, m } => (Opcode::Lsl, [d, n, m, 0]),
        Instr::Lsr { d, n, m } => (Opcode::Lsr, [d, n, m, 0]),
        Instr::Asr { d, n, m } => (Opcode::Asr, [d, n, m, 0]),
        Instr::Sxtb { d, m } => (Opcode::Sxtb, [d, m, 0, 0]),
        Instr::Sxth { d, m } => (Opcode::Sxth, [d, m, 0, 0]),
        Instr::Uxtb { d, m } => (Opcode::Uxtb, [d, m, 0, 0]),
        Instr::Uxth { d, m } => (Opcode::Uxth, [d, m, 0, 0]),
        Instr::Mul { d, n, m } => (Opcode::Mul, [d, n, m, 0]),
        Instr::Mls { d, n, m, a } => (Opcode::Mls, [d, n, m, a]),
        Instr::Sdiv { d, n, m } => (Opcode::Sdiv, [d, n, m, 0]),
        Instr::Udiv { d, n, m } => (Opcode::Udiv, [d, n, m, 0]),
        Instr::Ldr { t, n, i } => (Opcode::Ldr, [t, n, i, 0]),
        Instr::Ldrb { t, n, i } => (Opcode::Ldrb, [t, n, i, 0]),
        Instr::Ldrh { t, n, i } => (Opcode::Ldrh, [t, n, i, 0]),
        Instr::Ldrsb { t, n, i } => (Opcode::Ldrsb, [t, n, i, 0]),
        Instr::Ldrsh { t, n, i } => (Opcode::Ldrsh, [t, n, i, 0]),
        Instr::Str { t, n, i } => (Opcode::Str, [t, n, i, 0]),
        Instr::Strb { t, n, i } => (Opcode::Strb, [t, n, i, 0]),
        Instr::Strh { t, n, i } => (Opcode::Strh, [t, n, i, 0]),
        Instr::Stmdb { list } => (Opcode::Stmdb, [list, 0, 0, 0]),
        Instr::Ldmia { list } => (Opcode::Ldmia, [list, 0, 0, 0]),
        Instr::B { off } => (Opcode::B, [off, 0, 0, 0]),
        Instr::Bl { off } => (Opcode::Bl, [off, 0, 0, 0]),
        Instr::Bc { c, off } => (Opcode::Bc, [c, off, 0, 0]),
        Instr::Msr { s, n } => (Opcode::Msr, [s, n, 0, 0]),
        Instr::Mrs { d, s } => (Opcode::Mrs, [d, s, 0, 0]),
        Instr::Tt { d, n } => (Opcode::Tt, [d, n, 0, 0]),
        Instr::Ttt { d, n } => (Opcode::Ttt, [d, n, 0, 0]),
        Instr::Tta { d, n } => (Opcode::Tta, [d, n, 0, 0]),
        Instr::Ttat { d, n } => (Opcode::Ttat, [d, n, 0, 0]),
    }
}

/// The instruction of a row and the numbers of its fields.
#[tactic(auto, unfolding(crate::specs::Rows::instr_of))]
pub fn instr_of(opcode: Opcode, numbers: &[u32; 4]) -> Instr
    ensures { result ≡ instr_of opcode numbers.now }
{
    let [a, b, c, d] = *numbers;
    match opcode {
        Opcode::Nop => Instr::Nop,
        Opcode::Mov => Instr::Mov { d: a, m: b },
        Opcode::Bx => Instr::Bx { m: a },
        Opcode::Bxns => Instr::Bxns { m: a },
        Opcode::Blxns => Instr::Blxns { m: a },
        Opcode::Udf => Instr::Udf { i: a },
        Opcode::Sg => Instr::Sg,
        Opcode::Movw => Instr::Movw { d: a, i: b },
        Opcode::Movt => Instr::Movt { d: a, i: b },
        Opcode::Addw => Instr::Addw { d: a, n: b, i: c },
        Opcode::Subw => Instr::Subw { d: a, n: b, i: c },
        Opcode::Add => Instr::Add { d: a, n: b, m: c },
        Opcode::Sub => Instr::Sub { d: a, n: b, m: c },
        Opcode::Rsb => Instr::Rsb { d: a, n: b, m: c },
        Opcode::Cmp => Instr::Cmp { n: a, m: b },
        Opcode::And => Instr::And { d: a, n: b, m: c },
        Opcode::Bic => Instr::Bic { d: a, n: b, m: c },
        Opcode::Orr => Instr::Orr { d: a, n: b, m: c },
        Opcode::Eor => Instr::Eor { d: a, n: b, m: c },
        Opcode::Mvn => Instr::Mvn { d: a, m: b },
        Opcode::Lsl => Instr::Lsl { d: a, n: b, m: c },
        Opcode::Lsr => Instr::Lsr { d: a, n: b, m: c },
        Opcode::Asr => Instr::Asr { d: a, n: b, m: c },
        Opcode::Sxtb => Instr::Sxtb { d: a, m: b },
        Opcode::Sxth => Instr::Sxth { d: a, m: b },
        Opcode::Uxtb => Instr::Uxtb { d: a, m: b },
        Opcode::Uxth => Instr::Uxth { d: a, m: b },
        Opcode::Mul => Instr::Mul { d: a, n: b, m: c },
        Opcode::Mls => Instr::Mls {
            d: a,
            n: b,
            m: c,
            a: d,
        },
        Opcode::Sdiv => Instr::Sdiv { d: a, n: b, m: c },
        Opcode::Udiv => Instr::Udiv { d: a, n: b, m: c },
        Opcode::Ldr => Instr::Ldr { t: a, n: b, i: c },
        Opcode::Ldrb => Instr::Ldrb { t: a, n: b, i: c },
        Opcode::Ldrh => Instr::Ldrh { t: a, n: b, i: c },
        Opcode::Ldrsb => Instr::Ldrsb { t: a, n: b, i: c },
        Opcode::Ldrsh => Instr::Ldrsh { t: a, n: b, i: c },
        Opcode::Str => Instr::Str { t: a, n: b, i: c },
        Opcode::Strb => Instr::Strb { t: a, n: b, i: c },
        Opcode::Strh => Instr::Strh { t: a, n: b, i: c },
        Opcode::Stmdb => Instr::Stmdb { list: a },
        Opcode::Ldmia => Instr::Ldmia { list: a },
        Opcode::B => Instr::B { off: a },
        Opcode::Bl => Instr::Bl { off: a },
        Opcode::Bc => Instr::Bc { c: a, off: b },
        Opcode::Msr => Instr::Msr { s: a, n: b },
        Opcode::Mrs => Instr::Mrs { d: a, s: b },
        Opcode::Tt => Instr::Tt { d: a, n: b },
        Opcode::Ttt => Instr::Ttt { d: a, n: b },
        Opcode::Tta => Instr::Tta { d: a, n: b },
        Opcode::Ttat => Instr::Ttat { d: a, n: b },
    }
}
