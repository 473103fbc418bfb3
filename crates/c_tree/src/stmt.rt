//! Typed statements.

use crate::expr::Expr;
use cm_base::{List, Shared};

/// An element that a declaration sets.
#[derive(Drop)]
pub struct Item {
    pub offset: u32,
    pub value: Shared<Expr>,
}

/// A statement.
#[cycle(statements)]
#[derive(Drop)]
pub enum Stmt {
    Empty,
    Expr(Shared<Expr>),
    Declare {
        local: u32,
        items: List<Item>,
    },
    Block(List<Shared<Stmt>>),
    If {
        test: Shared<Expr>,
        yes: Shared<Stmt>,
        no: Option<Shared<Stmt>>,
    },
    While {
        test: Shared<Expr>,
        body: Shared<Stmt>,
    },
    DoWhile {
        body: Shared<Stmt>,
        test: Shared<Expr>,
    },
    For {
        first: List<Shared<Stmt>>,
        test: Option<Shared<Expr>>,
        next: Option<Shared<Expr>>,
        body: Shared<Stmt>,
    },
    Switch {
        value: Shared<Expr>,
        parts: List<Part>,
    },
    Break,
    Continue,
    Return(Option<Shared<Expr>>),
}

/// A part of a `switch`.
#[cycle(statements)]
#[derive(Drop)]
pub enum Part {
    Case(u32),
    Default,
    Stmt(Shared<Stmt>),
}
