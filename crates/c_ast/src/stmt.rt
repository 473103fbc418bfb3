//! Declarations, statements and units.

use crate::expr::{Attr, Declarator, Expr, Spec};
use c_lex::token::Header;
use cm_base::{List, Place};
use sqlite_items::Boxed;

/// A value that an object begins with.
#[derive(Drop)]
pub enum Initial {
    Assign(Expr),
    /// `{` initial `,` .. `}`
    Braces(Place, List<Initial>),
}

/// A declarator with its attributes and its initialiser.
#[derive(Drop)]
pub struct Init {
    pub declarator: Declarator,
    pub attrs: List<Attr>,
    pub value: Option<Boxed<Initial>>,
}

/// A declaration.
#[derive(Drop)]
pub struct Decl {
    pub specs: List<Spec>,
    pub inits: List<Init>,
}

/// A statement. The place is that of its first token.
#[cycle(statements)]
#[derive(Drop)]
pub enum Stmt {
    Block(Block),
    Empty(Place),
    Expr(Expr),
    Return(Place, Option<Boxed<Expr>>),
    Break(Place),
    Continue(Place),
    /// The test, what is done where it holds, and what stands after `else`.
    If(Place, Boxed<Expr>, Boxed<Stmt>, Option<Boxed<Stmt>>),
    While(Place, Boxed<Expr>, Boxed<Stmt>),
    DoWhile(Place, Boxed<Stmt>, Boxed<Expr>),
    /// What stands between the parentheses, and the body.
    For(Place, ForHead, Boxed<Stmt>),
    Switch(Place, Boxed<Expr>, List<Part>),
}

/// What stands between the parentheses of a `for`: the first part, the test, and what is done
/// between two turns.
#[derive(Drop)]
pub struct ForHead {
    pub first: Boxed<First>,
    pub test: Option<Boxed<Expr>>,
    pub step: Option<Boxed<Expr>>,
}

/// The first part of a `for`.
#[derive(Drop)]
pub enum First {
    Decl(Decl),
    Expr(Option<Boxed<Expr>>),
}

/// `{` declarations and statements `}`
#[cycle(statements)]
#[derive(Drop)]
pub struct Block {
    pub place: Place,
    pub items: List<Item>,
}

/// A part of a block.
#[cycle(statements)]
#[derive(Drop)]
pub enum Item {
    Decl(Decl),
    Stmt(Stmt),
}

/// A part of a `switch`.
#[cycle(statements)]
#[derive(Drop)]
pub enum Part {
    Label(Label),
    Decl(Decl),
    Stmt(Stmt),
}

/// A label of a `switch`.
#[derive(Drop)]
pub enum Label {
    /// `case` value `:`
    Case(Place, Boxed<Expr>),
    /// `default` `:`
    Default(Place),
}

/// A function with its body.
#[derive(Drop)]
pub struct Function {
    pub specs: List<Spec>,
    pub declarator: Declarator,
    pub attrs: List<Attr>,
    pub body: Block,
}

/// A part of a unit.
#[derive(Drop)]
pub enum External {
    Include(Place, Header),
    Decl(Decl),
    Function(Boxed<Function>),
}

/// A source. Its drop is written by hand, so that a crate that lets a unit go doesn't prove those of all trees in it.
pub struct Unit {
    pub parts: List<External>,
}

impl Drop for Unit {
    fn drop(self) {
        let Unit { parts: _parts } = self;
    }
}
