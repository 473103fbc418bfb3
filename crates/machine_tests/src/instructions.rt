//! Halfwords that LLVM's assembler gives, and some that are no instruction.

use v8m_isa::{Code, Instr, decode, encode, in_range, is_narrow};

// Whether an instruction and these halfwords are each other's.
fn is_code(i: Instr, code: Code) -> bool {
    in_range(&i)
        && encode(&i) == code
        && decode(code.first, code.second) == Some((i, code.size))
        && is_narrow(code.first) == (code.size == 2)
}

fn is_one(i: Instr, first: u16) -> bool {
    let code = Code {
        first,
        second: 0,
        size: 2,
    };
    is_code(i, code) && decode(first, 0xFFFF) == Some((i, 2))
}

fn is(i: Instr, word: u32) -> bool {
    let code = Code {
        first: (word / 0x10000) as u16,
        second: (word % 0x10000) as u16,
        size: 4,
    };
    is_code(i, code)
}

fn under(c: u32, off: u32) -> Instr {
    Instr::Bc { c, off }
}

#[test]
fn moves_and_returns(rt: HostRuntime) {
    assert!(rt; is_one(Instr::Nop, 0xBF00));
    assert!(rt; is_one(Instr::Mov { d: 0, m: 14 }, 0x4670));
    assert!(rt; is_one(Instr::Mov { d: 9, m: 1 }, 0x4689));
    assert!(rt; is_one(Instr::Mov { d: 14, m: 13 }, 0x46EE));
    assert!(rt; is_one(Instr::Mov { d: 13, m: 3 }, 0x469D));
    assert!(rt; is_one(Instr::Bx { m: 3 }, 0x4718));
    assert!(rt; is_one(Instr::Bx { m: 14 }, 0x4770));
    assert!(rt; is_one(Instr::Bxns { m: 14 }, 0x4774));
    assert!(rt; is_one(Instr::Bxns { m: 3 }, 0x471C));
    assert!(rt; is_one(Instr::Blxns { m: 12 }, 0x47E4));
    assert!(rt; is_one(Instr::Udf { i: 0x12 }, 0xDE12));
    assert!(rt; is_one(Instr::Udf { i: 255 }, 0xDEFF));
    assert!(rt; is(Instr::Sg, 0xE97F_E97F));
}

#[test]
fn numbers(rt: HostRuntime) {
    assert!(rt; is(Instr::Movw { d: 0, i: 0x1234 }, 0xF241_2034));
    assert!(rt; is(Instr::Movw { d: 12, i: 0xFFFF }, 0xF64F_7CFF));
    assert!(rt; is(Instr::Movt { d: 1, i: 0x89AB }, 0xF6C8_11AB));
    assert!(rt;
        is(
            Instr::Addw {
                d: 1,
                n: 2,
                i: 0xABC
            },
            0xF602_21BC
        )
    );
    assert!(rt; is(Instr::Addw { d: 14, n: 13, i: 8 }, 0xF20D_0E08));
    assert!(rt; is(Instr::Subw { d: 3, n: 4, i: 999 }, 0xF2A4_33E7));
    assert!(rt; is(Instr::Subw { d: 13, n: 13, i: 8 }, 0xF2AD_0D08));
}

#[test]
fn arithmetic(rt: HostRuntime) {
    assert!(rt; is(Instr::Add { d: 3, n: 4, m: 12 }, 0xEB04_030C));
    assert!(rt; is(Instr::Sub { d: 3, n: 4, m: 12 }, 0xEBA4_030C));
    assert!(rt; is(Instr::Rsb { d: 3, n: 4, m: 12 }, 0xEBC4_030C));
    assert!(rt; is(Instr::And { d: 3, n: 4, m: 12 }, 0xEA04_030C));
    assert!(rt; is(Instr::Bic { d: 3, n: 4, m: 12 }, 0xEA24_030C));
    assert!(rt; is(Instr::Orr { d: 3, n: 4, m: 12 }, 0xEA44_030C));
    assert!(rt; is(Instr::Eor { d: 3, n: 4, m: 12 }, 0xEA84_030C));
    assert!(rt; is(Instr::Lsl { d: 3, n: 4, m: 12 }, 0xFA04_F30C));
    assert!(rt; is(Instr::Lsr { d: 3, n: 4, m: 12 }, 0xFA24_F30C));
    assert!(rt; is(Instr::Asr { d: 3, n: 4, m: 12 }, 0xFA44_F30C));
    assert!(rt; is(Instr::Mul { d: 3, n: 4, m: 12 }, 0xFB04_F30C));
    assert!(rt; is(Instr::Sdiv { d: 3, n: 4, m: 12 }, 0xFB94_F3FC));
    assert!(rt; is(Instr::Udiv { d: 3, n: 4, m: 12 }, 0xFBB4_F3FC));
    assert!(rt;
        is(
            Instr::Mls {
                d: 3,
                n: 4,
                m: 12,
                a: 5
            },
            0xFB04_531C
        )
    );
    assert!(rt; is(Instr::Cmp { n: 4, m: 12 }, 0xEBB4_0F0C));
    assert!(rt; is(Instr::Mvn { d: 3, m: 12 }, 0xEA6F_030C));
    assert!(rt; is(Instr::Sxtb { d: 3, m: 12 }, 0xFA4F_F38C));
    assert!(rt; is(Instr::Sxth { d: 3, m: 12 }, 0xFA0F_F38C));
    assert!(rt; is(Instr::Uxtb { d: 3, m: 12 }, 0xFA5F_F38C));
    assert!(rt; is(Instr::Uxth { d: 3, m: 12 }, 0xFA1F_F38C));
}

#[test]
fn memory(rt: HostRuntime) {
    assert!(rt;
        is(
            Instr::Ldr {
                t: 1,
                n: 13,
                i: 0xFFF
            },
            0xF8DD_1FFF
        )
    );
    assert!(rt; is(Instr::Ldr { t: 14, n: 2, i: 4 }, 0xF8D2_E004));
    assert!(rt; is(Instr::Ldrb { t: 1, n: 2, i: 5 }, 0xF892_1005));
    assert!(rt; is(Instr::Ldrh { t: 1, n: 2, i: 6 }, 0xF8B2_1006));
    assert!(rt; is(Instr::Ldrsb { t: 1, n: 2, i: 7 }, 0xF992_1007));
    assert!(rt; is(Instr::Ldrsh { t: 1, n: 2, i: 8 }, 0xF9B2_1008));
    assert!(rt; is(Instr::Str { t: 5, n: 6, i: 123 }, 0xF8C6_507B));
    assert!(rt; is(Instr::Strb { t: 5, n: 6, i: 124 }, 0xF886_507C));
    assert!(rt; is(Instr::Strh { t: 5, n: 6, i: 125 }, 0xF8A6_507D));
    assert!(rt; is(Instr::Stmdb { list: 0x4030 }, 0xE92D_4030));
    assert!(rt; is(Instr::Stmdb { list: 0x5FFF }, 0xE92D_5FFF));
    assert!(rt; is(Instr::Ldmia { list: 0x4FF0 }, 0xE8BD_4FF0));
    assert!(rt; is(Instr::Ldmia { list: 0x1001 }, 0xE8BD_1001));
}

#[test]
fn branches(rt: HostRuntime) {
    assert!(rt; is(Instr::B { off: 0 }, 0xF000_B800));
    assert!(rt; is(Instr::B { off: 0x1234 }, 0xF001_B91A));
    assert!(rt; is(Instr::B { off: 0xFFFF_FFFC }, 0xF7FF_BFFE));
    assert!(rt; is(Instr::B { off: 0xFF_FFFE }, 0xF3FF_97FF));
    assert!(rt; is(Instr::B { off: 0xFF00_0000 }, 0xF400_9000));
    assert!(rt; is(Instr::B { off: 0x40_0000 }, 0xF000_B000));
    assert!(rt; is(Instr::B { off: 0xFFBF_FFFE }, 0xF7FF_B7FF));
    assert!(rt; is(Instr::B { off: 0xFFC0_10F8 }, 0xF401_B87C));
    assert!(rt; is(Instr::Bl { off: 0 }, 0xF000_F800));
    assert!(rt; is(Instr::Bl { off: 0x12_3456 }, 0xF123_FA2B));
    assert!(rt; is(Instr::Bl { off: 0xFFFF_FFFE }, 0xF7FF_FFFF));
    assert!(rt; is(under(0, 0), 0xF000_8000));
    assert!(rt; is(under(1, 0x1234), 0xF041_811A));
    assert!(rt; is(under(13, 0xFFFF_FFFC), 0xF77F_AFFE));
    assert!(rt; is(under(12, 0xF_FFFE), 0xF33F_AFFF));
    assert!(rt; is(under(2, 0xFFF0_0000), 0xF480_8000));
    assert!(rt; is(under(4, 0x4_0000), 0xF100_A000));
    assert!(rt; is(under(7, 0xFFFB_FFFE), 0xF5FF_8FFF));
    assert!(rt; is(under(8, 0x8_0000), 0xF200_8800));
    assert!(rt; is(under(11, 0xFFF7_FFFE), 0xF6FF_A7FF));
}

#[test]
fn special_registers(rt: HostRuntime) {
    assert!(rt; is(Instr::Msr { s: 0, n: 1 }, 0xF381_8800));
    assert!(rt; is(Instr::Msr { s: 8, n: 2 }, 0xF382_8808));
    assert!(rt; is(Instr::Msr { s: 9, n: 12 }, 0xF38C_8809));
    assert!(rt; is(Instr::Msr { s: 10, n: 5 }, 0xF385_880A));
    assert!(rt; is(Instr::Msr { s: 11, n: 14 }, 0xF38E_880B));
    assert!(rt; is(Instr::Msr { s: 136, n: 3 }, 0xF383_8888));
    assert!(rt; is(Instr::Msr { s: 137, n: 4 }, 0xF384_8889));
    assert!(rt; is(Instr::Mrs { d: 5, s: 0 }, 0xF3EF_8500));
    assert!(rt; is(Instr::Mrs { d: 3, s: 10 }, 0xF3EF_830A));
    assert!(rt; is(Instr::Mrs { d: 14, s: 137 }, 0xF3EF_8E89));
    assert!(rt; is(Instr::Tt { d: 1, n: 0 }, 0xE840_F100));
    assert!(rt; is(Instr::Ttt { d: 2, n: 3 }, 0xE843_F240));
    assert!(rt; is(Instr::Tta { d: 4, n: 5 }, 0xE845_F480));
    assert!(rt; is(Instr::Ttat { d: 12, n: 14 }, 0xE84E_FCC0));
}

#[test]
fn out_of_range(rt: HostRuntime) {
    assert!(rt; !in_range(&Instr::Mov { d: 15, m: 0 }));
    assert!(rt; !in_range(&Instr::Mov { d: 0, m: 15 }));
    assert!(rt; !in_range(&Instr::Udf { i: 256 }));
    assert!(rt; !in_range(&Instr::Movw { d: 0, i: 0x10000 }));
    assert!(rt; !in_range(&Instr::Addw { d: 13, n: 4, i: 0 }));
    assert!(rt; !in_range(&Instr::Ldr { t: 13, n: 0, i: 0 }));
    assert!(rt; !in_range(&Instr::Stmdb { list: 0x10 }));
    assert!(rt; !in_range(&Instr::Stmdb { list: 0x2010 }));
    assert!(rt; !in_range(&Instr::Ldmia { list: 0x8010 }));
    assert!(rt; !in_range(&Instr::B { off: 1 }));
    assert!(rt; !in_range(&Instr::B { off: 0x100_0000 }));
    assert!(rt; !in_range(&Instr::Bc { c: 14, off: 0 }));
    assert!(rt;
        !in_range(&Instr::Bc {
            c: 0,
            off: 0x10_0000
        })
    );
    assert!(rt; !in_range(&Instr::Msr { s: 5, n: 0 }));
}

// Whether these are the halfwords of no instruction.
fn is_none(first: u16, second: u16) -> bool {
    decode(first, second).is_none() && !is_narrow(first)
}

// No instruction at all, MOV to PC, BXNS to SP, BICS, LDR from PC, ADDW of PC and to SP from r4, a list of one register,
// one with SP, one with PC, BIC of a shifted register, MSR of IPSR, B under the conditions 15 and 14.
#[test]
fn no_instruction(rt: HostRuntime) {
    assert!(rt; is_none(0x0000, 0x0000));
    assert!(rt; is_none(0x4687, 0x0000));
    assert!(rt; is_none(0x476C, 0x0000));
    assert!(rt; is_none(0xEA34, 0x030C));
    assert!(rt; is_none(0xF8DF, 0x1FFF));
    assert!(rt; is_none(0xF20F, 0x0104));
    assert!(rt; is_none(0xF204, 0x0D04));
    assert!(rt; is_none(0xE92D, 0x0010));
    assert!(rt; is_none(0xE92D, 0x2010));
    assert!(rt; is_none(0xE8BD, 0x8010));
    assert!(rt; is_none(0xEA24, 0x034C));
    assert!(rt; is_none(0xF381, 0x8805));
    assert!(rt; is_none(0xF3C0, 0x8000));
    assert!(rt; is_none(0xF380, 0x8000));
    assert!(rt; is_none(0xFFFF, 0xFFFF));
}
