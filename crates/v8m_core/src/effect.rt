use cm_base::Stop;

/// What an instruction does to the state, with its operands read.
#[derive(Clone, Copy, Debug, PartialEq, Eq)]
pub enum Effect {
    /// Nothing but the next instruction.
    Pass,
    Stop(Stop),
    /// A write of a register, 13 being SP.
    Put { d: u32, v: u32 },
    /// A load of 1, 2 or 4 bytes into a register.
    Load { t: u32, at: u32, size: u8 },
    /// A load of 1 or 2 bytes with a sign.
    LoadSigned { t: u32, at: u32, size: u8 },
    /// A store of the low 1, 2 or 4 bytes.
    Store { at: u32, size: u8, v: u32 },
    /// A push of the registers of a list, bit n being register n.
    Push { list: u32 },
    Pop { list: u32 },
    /// New flags: N 16, Z 8, C 4, V 2, Q 1.
    Flags { nzcvq: u8 },
    /// A branch in Secure state.
    Jump { at: u32 },
    /// A branch in Secure state with LR set.
    Call { at: u32 },
    /// A write of a special register, by its number in MSR.
    Special { k: u32, v: u32 },
    Bx { v: u32 },
    Bxns { v: u32 },
    Blxns { v: u32 },
}
