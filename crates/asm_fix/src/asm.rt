use v8m_isa::Instr;

/// One member of code with labels.
#[derive(Clone, Copy, Debug, PartialEq, Eq)]
pub enum Asm {
    /// An instruction.
    Op(Instr),
    /// The place of a label, which takes no bytes.
    Label(u32),
    /// A branch to a label, of 4 bytes.
    Jump { to: u32 },
    /// A branch to a label where a condition holds, by its number from 0 to 13 (DDI0553, condition codes), of 4 bytes.
    JumpIf { cond: u8, to: u32 },
}
