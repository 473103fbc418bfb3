//! Statements. Variables are numbered from 0.
ghost use Rattle.std.specs.Prelude.{◌≡◌};
ghost use Rattle.mid_ir.specs.Uses as spec;

use cm_base::List;
use sqlite_items::Boxed;

/// The operators of a `Set`: those of C on words, with S for signed values and U for unsigned ones.
#[derive(Clone, Copy, Debug, PartialEq, Eq)]
pub enum SetOp {
    Add,
    Sub,
    Mul,
    DivS,
    DivU,
    RemS,
    RemU,
    And,
    Or,
    Xor,
    Shl,
    ShrS,
    ShrU,
    /// 1 where the values are equal, and 0 elsewhere.
    Eq,
    Ne,
    LtS,
    LtU,
    LeS,
    LeU,
    /// The first value itself; the second one isn't looked at by this operator and the next four.
    Copy,
    /// The low 8 bits, with their sign.
    Sext8,
    Sext16,
    /// The low 8 bits alone.
    Zext8,
    Zext16,
}

/// A statement.
#[derive(Drop)]
pub enum MidStmt {
    Seq(List<MidStmt>),
    /// Sets a variable to a number.
    Const(u32, u32),
    /// Sets a variable to what an operator makes of two others.
    Set(u32, SetOp, u32, u32),
    /// Sets a variable to the address at an offset in the function's block.
    Home(u32, u32),
    /// Sets a variable to the number at the address in the second, of 1, 2 or 4 bytes, and whether it has a sign.
    Load(u32, u32, u8, bool),
    /// Writes to the address in the first variable the low 1, 2 or 4 bytes of the second.
    Store(u32, u8, u32),
    /// Sets a variable to the result of a function, which is named by its number, of the values of variables.
    Call(u32, u32, List<u32>),
    /// Sets a variable to the result of a call of Non-secure code at the address in the second, converted by a kind.
    NsCall(u32, u32, List<u32>, u8),
    /// Sets a variable to the answer of the address check of a pointer, a size and flags.
    Range(u32, u32, u32, u32),
    /// Sets a variable to 1 where Non-secure code called this entry, and else to 0.
    Caller(u32),
    /// Does the first statement where the variable isn't 0, and else the second.
    If(u32, Boxed<MidStmt>, Boxed<MidStmt>),
    /// Does its statement again and again.
    Loop(Boxed<MidStmt>),
    Block(Boxed<MidStmt>),
    /// Leaves so many enclosing loops and blocks and one more.
    Break(u32),
    /// Leaves the function with the value of a variable.
    Return(u32),
}

impl MidStmt {
    /// The variable that the statement sets, the statements in it aside.
    pub fn sets(&self) -> Option<u32>
        ensures { result ≡ spec.sets self.now }
    {
        match self {
            MidStmt::Const(v, _)
            | MidStmt::Set(v, _, _, _)
            | MidStmt::Home(v, _)
            | MidStmt::Load(v, _, _, _)
            | MidStmt::Call(v, _, _)
            | MidStmt::NsCall(v, _, _, _)
            | MidStmt::Range(v, _, _, _)
            | MidStmt::Caller(v) => Some(*v),
            MidStmt::Seq(_)
            | MidStmt::Store(_, _, _)
            | MidStmt::If(_, _, _)
            | MidStmt::Loop(_)
            | MidStmt::Block(_)
            | MidStmt::Break(_)
            | MidStmt::Return(_) => None,
        }
    }
}
