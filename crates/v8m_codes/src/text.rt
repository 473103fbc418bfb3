//! Instructions as assembly.

use std::alloc::{AllocError, Global};
use v8m_isa::Instr;

// A word of an instruction's text.
#[derive(Clone, Copy)]
enum Word {
    Blank,
    Register(u32),
    Number(u32),
    Address(u32, u32),
    Special(u32),
    Written(u32),
    List(u32),
    Offset(u32),
}

/// An instruction as assembly. An offset is written as a number.
pub fn text_of(alloc: Global, i: &Instr) -> Result<String, AllocError> {
    let (name, words) = parts_of(i);
    let mut text = format!(in alloc; "{name}")?;
    let mut comma = " ";
    for word in &words {
        let word = written(alloc, *word)?;
        if !word.is_empty() {
            text.push_str(comma)?;
            text.push_str(word.as_str())?;
            comma = ", ";
        }
    }
    Ok(text)
}

fn written(alloc: Global, word: Word) -> Result<String, AllocError> {
    match word {
        Word::Blank => format!(in alloc; ""),
        Word::Register(r) => format!(in alloc; "{}", register_name(r)),
        Word::Number(n) => format!(in alloc; "#{n}"),
        Word::Address(n, i) => format!(in alloc; "[{}, #{i}]", register_name(n)),
        Word::Special(s) => format!(in alloc; "{}", special_name(s)),
        Word::Written(0) => format!(in alloc; "apsr_nzcvq"),
        Word::Written(s) => format!(in alloc; "{}", special_name(s)),
        Word::List(l) => list_text(alloc, l),
        Word::Offset(off) => {
            if off < 0x8000_0000 {
                format!(in alloc; "#{off}")
            } else {
                format!(in alloc; "#-{}", 0u32.wrapping_sub(off))
            }
        }
    }
}

fn list_text(alloc: Global, list: u32) -> Result<String, AllocError> {
    let mut text = format!(in alloc; "{{")?;
    let mut comma = "";
    for r in 0..15u32 {
        if list >> r & 1 == 1 {
            text.push_str(comma)?;
            text.push_str(register_name(r))?;
            comma = ", ";
        }
    }
    text.push_str("}")?;
    Ok(text)
}

fn register_name(r: u32) -> &'static str {
    match r {
        0 => "r0",
        1 => "r1",
        2 => "r2",
        3 => "r3",
        4 => "r4",
        5 => "r5",
        6 => "r6",
        7 => "r7",
        8 => "r8",
        9 => "r9",
        10 => "r10",
        11 => "r11",
        12 => "r12",
        13 => "sp",
        14 => "lr",
        _ => "pc",
    }
}

fn special_name(s: u32) -> &'static str {
    match s {
        0 => "apsr",
        8 => "msp",
        9 => "psp",
        10 => "msplim",
        11 => "psplim",
        136 => "msp_ns",
        _ => "psp_ns",
    }
}

// The name of a branch under a condition.
fn branch_name(c: u32) -> &'static str {
    match c {
        0 => "beq.w",
        1 => "bne.w",
        2 => "bhs.w",
        3 => "blo.w",
        4 => "bmi.w",
        5 => "bpl.w",
        6 => "bvs.w",
        7 => "bvc.w",
        8 => "bhi.w",
        9 => "bls.w",
        10 => "bge.w",
        11 => "blt.w",
        12 => "bgt.w",
        _ => "ble.w",
    }
}

// An instruction's name and words.
fn parts_of(i: &Instr) -> Parts {
    match *i {
        Instr::Nop => none("nop"),
        Instr::Mov { d, m } => registers("mov", d, m),
        Instr::Bx { m } => one("bx", Word::Register(m)),
        Instr::Bxns { m } => one("bxns", Word::Register(m)),
        Instr::Blxns { m } => one("blxns", Word::Register(m)),
        Instr::Udf { i } => one("udf", Word::Number(i)),
        Instr::Sg => none("sg"),
        Instr::Movw { d, i } => two("movw", Word::Register(d), Word::Number(i)),
        Instr::Movt { d, i } => two("movt", Word::Register(d), Word::Number(i)),
        Instr::Addw { d, n, i } => three("addw", d, n, Word::Number(i)),
        Instr::Subw { d, n, i } => three("subw", d, n, Word::Number(i)),
        Instr::Add { d, n, m } => three_registers("add.w", d, n, m),
        Instr::Sub { d, n, m } => three_registers("sub.w", d, n, m),
        Instr::Rsb { d, n, m } => three_registers("rsb", d, n, m),
        Instr::Cmp { n, m } => registers("cmp.w", n, m),
        Instr::And { d, n, m } => three_registers("and.w", d, n, m),
        Instr::Bic { d, n, m } => three_registers("bic.w", d, n, m),
        Instr::Orr { d, n, m } => three_registers("orr.w", d, n, m),
        Instr::Eor { d, n, m } => three_registers("eor.w", d, n, m),
        Instr::Mvn { d, m } => registers("mvn.w", d, m),
        Instr::Lsl { d, n, m } => three_registers("lsl.w", d, n, m),
        Instr::Lsr { d, n, m } => three_registers("lsr.w", d, n, m),
        Instr::Asr { d, n, m } => three_registers("asr.w", d, n, m),
        Instr::Sxtb { d, m } => registers("sxtb.w", d, m),
        Instr::Sxth { d, m } => registers("sxth.w", d, m),
        Instr::Uxtb { d, m } => registers("uxtb.w", d, m),
        Instr::Uxth { d, m } => registers("uxth.w", d, m),
        Instr::Mul { d, n, m } => three_registers("mul", d, n, m),
        Instr::Mls { d, n, m, a } => four_registers("mls", d, n, m, a),
        Instr::Sdiv { d, n, m } => three_registers("sdiv", d, n, m),
        Instr::Udiv { d, n, m } => three_registers("udiv", d, n, m),
        Instr::Ldr { t, n, i } => two("ldr.w", Word::Register(t), Word::Address(n, i)),
        Instr::Ldrb { t, n, i } => two("ldrb.w", Word::Register(t), Word::Address(n, i)),
        Instr::Ldrh { t, n, i } => two("ldrh.w", Word::Register(t), Word::Address(n, i)),
        Instr::Ldrsb { t, n, i } => two("ldrsb.w", Word::Register(t), Word::Address(n, i)),
        Instr::Ldrsh { t, n, i } => two("ldrsh.w", Word::Register(t), Word::Address(n, i)),
        Instr::Str { t, n, i } => two("str.w", Word::Register(t), Word::Address(n, i)),
        Instr::Strb { t, n, i } => two("strb.w", Word::Register(t), Word::Address(n, i)),
        Instr::Strh { t, n, i } => two("strh.w", Word::Register(t), Word::Address(n, i)),
        Instr::Stmdb { list } => one("push.w", Word::List(list)),
        Instr::Ldmia { list } => one("pop.w", Word::List(list)),
        Instr::B { off } => one("b.w", Word::Offset(off)),
        Instr::Bl { off } => one("bl", Word::Offset(off)),
        Instr::Bc { c, off } => one(branch_name(c), Word::Offset(off)),
        Instr::Msr { s, n } => two("msr", Word::Written(s), Word::Register(n)),
        Instr::Mrs { d, s } => two("mrs", Word::Register(d), Word::Special(s)),
        Instr::Tt { d, n } => registers("tt", d, n),
        Instr::Ttt { d, n } => registers("ttt", d, n),
        Instr::Tta { d, n } => registers("tta", d, n),
        Instr::Ttat { d, n } => registers("ttat", d, n),
    }
}

type Parts = (&'static str, [Word; 4]);

fn none(name: &'static str) -> Parts {
    (name, [Word::Blank, Word::Blank, Word::Blank, Word::Blank])
}

fn one(name: &'static str, first: Word) -> Parts {
    (name, [first, Word::Blank, Word::Blank, Word::Blank])
}

fn two(name: &'static str, first: Word, second: Word) -> Parts {
    (name, [first, second, Word::Blank, Word::Blank])
}

fn registers(name: &'static str, first: u32, second: u32) -> Parts {
    two(name, Word::Register(first), Word::Register(second))
}

fn three(name: &'static str, d: u32, n: u32, third: Word) -> Parts {
    (
        name,
        [Word::Register(d), Word::Register(n), third, Word::Blank],
    )
}

fn three_registers(name: &'static str, d: u32, n: u32, m: u32) -> Parts {
    three(name, d, n, Word::Register(m))
}

fn four_registers(name: &'static str, d: u32, n: u32, m: u32, a: u32) -> Parts {
    let words = [
        Word::Register(d),
        Word::Register(n),
        Word::Register(m),
        Word::Register(a),
    ];
    (name, words)
}
