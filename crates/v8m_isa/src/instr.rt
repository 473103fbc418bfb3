/// One instruction (DDI0553, part C). Registers are numbers of registers: `d`, `t` are written or stored, `n`, `m`, `a`
/// are read, `i` is an immediate number, `s` is the number of a special register, `c` is that of a condition, bit k of
/// `list` stands for register k, and `off` is a branch's offset from the instruction's address plus 4, modulo 2^32.
#[derive(Clone, Copy, Debug, PartialEq, Eq)]
pub enum Instr {
    /// NOP
    Nop,
    /// MOV (register)
    Mov { d: u32, m: u32 },
    /// BX
    Bx { m: u32 },
    /// BXNS
    Bxns { m: u32 },
    /// BLXNS
    Blxns { m: u32 },
    /// UDF, with its number
    Udf { i: u32 },
    /// SG
    Sg,
    /// MOVW (MOV immediate, T3 encoding)
    Movw { d: u32, i: u32 },
    /// MOVT
    Movt { d: u32, i: u32 },
    /// ADDW (ADD immediate, T4 encoding)
    Addw { d: u32, n: u32, i: u32 },
    /// SUBW (SUB immediate, T4 encoding)
    Subw { d: u32, n: u32, i: u32 },
    /// ADD (register), with no shift and no flags, as the forms on registers below
    Add { d: u32, n: u32, m: u32 },
    /// SUB (register)
    Sub { d: u32, n: u32, m: u32 },
    /// RSB (register): m - n
    Rsb { d: u32, n: u32, m: u32 },
    /// CMP (register)
    Cmp { n: u32, m: u32 },
    /// AND (register)
    And { d: u32, n: u32, m: u32 },
    /// BIC (register)
    Bic { d: u32, n: u32, m: u32 },
    /// ORR (register)
    Orr { d: u32, n: u32, m: u32 },
    /// EOR (register)
    Eor { d: u32, n: u32, m: u32 },
    /// MVN (register)
    Mvn { d: u32, m: u32 },
    /// LSL (register), by the low byte of m
    Lsl { d: u32, n: u32, m: u32 },
    /// LSR (register)
    Lsr { d: u32, n: u32, m: u32 },
    /// ASR (register)
    Asr { d: u32, n: u32, m: u32 },
    /// SXTB
    Sxtb { d: u32, m: u32 },
    /// SXTH
    Sxth { d: u32, m: u32 },
    /// UXTB
    Uxtb { d: u32, m: u32 },
    /// UXTH
    Uxth { d: u32, m: u32 },
    /// MUL
    Mul { d: u32, n: u32, m: u32 },
    /// MLS: a - n * m
    Mls { d: u32, n: u32, m: u32, a: u32 },
    /// SDIV
    Sdiv { d: u32, n: u32, m: u32 },
    /// UDIV
    Udiv { d: u32, n: u32, m: u32 },
    /// LDR (immediate, T3 encoding)
    Ldr { t: u32, n: u32, i: u32 },
    /// LDRB (immediate, T2 encoding)
    Ldrb { t: u32, n: u32, i: u32 },
    /// LDRH (immediate, T2 encoding)
    Ldrh { t: u32, n: u32, i: u32 },
    /// LDRSB (immediate, T1 encoding)
    Ldrsb { t: u32, n: u32, i: u32 },
    /// LDRSH (immediate, T1 encoding)
    Ldrsh { t: u32, n: u32, i: u32 },
    /// STR (immediate, T3 encoding)
    Str { t: u32, n: u32, i: u32 },
    /// STRB (immediate, T2 encoding)
    Strb { t: u32, n: u32, i: u32 },
    /// STRH (immediate, T2 encoding)
    Strh { t: u32, n: u32, i: u32 },
    /// STMDB SP!, which is PUSH
    Stmdb { list: u32 },
    /// LDMIA SP!, which is POP
    Ldmia { list: u32 },
    /// B (T4 encoding)
    B { off: u32 },
    /// BL
    Bl { off: u32 },
    /// B (T3 encoding), under a condition
    Bc { c: u32, off: u32 },
    /// MSR (register)
    Msr { s: u32, n: u32 },
    /// MRS
    Mrs { d: u32, s: u32 },
    /// TT
    Tt { d: u32, n: u32 },
    /// TTT
    Ttt { d: u32, n: u32 },
    /// TTA
    Tta { d: u32, n: u32 },
    /// TTAT
    Ttat { d: u32, n: u32 },
}

/// The halfwords of an instruction, and its size in bytes, 2 or 4. At size 2 the second halfword is 0.
#[derive(Clone, Copy, Debug, PartialEq, Eq)]
pub struct Code {
    pub first: u16,
    pub second: u16,
    pub size: u8,
}
