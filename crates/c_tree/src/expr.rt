//! Typed expressions.

use c_types::CType;
use cm_base::{List, Place, Shared};

#[derive(Clone, Copy, Debug, PartialEq, Eq)]
pub enum UnOp {
    Plus,
    Minus,
    Compl,
    Not,
}

#[derive(Clone, Copy, Debug, PartialEq, Eq)]
pub enum BinOp {
    Mul,
    Div,
    Rem,
    Add,
    Sub,
    Shl,
    Shr,
    Lt,
    Gt,
    Le,
    Ge,
    Eq,
    Ne,
    And,
    Xor,
    Or,
}

/// An expression.
#[cycle(typed)]
#[derive(Drop)]
pub struct Expr {
    pub kind: ExprKind,
    pub ctype: CType,
    pub place: Place,
}

/// What an expression is.
#[cycle(typed)]
#[derive(Drop)]
pub enum ExprKind {
    Const(u32),
    Local(u32),
    Global(u32),
    Deref(Shared<Expr>),
    /// The member that begins this many bytes into a struct.
    Member(Shared<Expr>, u32),
    Addr(Shared<Expr>),
    Convert(Shared<Expr>),
    Unary(UnOp, Shared<Expr>),
    Binary(BinOp, Shared<Expr>, Shared<Expr>),
    /// A pointer, an integer and the size that the integer counts, modulo 2^32.
    PtrAdd(Shared<Expr>, Shared<Expr>, u32),
    PtrDiff(Shared<Expr>, Shared<Expr>, u32),
    And(Shared<Expr>, Shared<Expr>),
    Or(Shared<Expr>, Shared<Expr>),
    Cond(Shared<Expr>, Shared<Expr>, Shared<Expr>),
    Assign(Shared<Expr>, Shared<Expr>),
    AssignOp(BinOp, Shared<Expr>, Shared<Expr>),
    /// What is added to a place, modulo 2^32, and whether the old value is the expression's.
    Step(Shared<Expr>, u32, bool),
    Comma(Shared<Expr>, Shared<Expr>),
    Call(u32, List<Shared<Expr>>),
    NsCall(Shared<Expr>, List<Shared<Expr>>),
    Range(Shared<Expr>, Shared<Expr>, Shared<Expr>),
    NsCreate(Shared<Expr>),
    NsTest(Shared<Expr>),
    NsCaller,
}
