//! The syntax tree of a C source: one variant for each alternative of the grammar, with its parts in
//! order and its place. What the grammar repeats is a list, so that a tree is only as deep as its source
//! nests. A tree holds no pointers in its value: two trees are equal where they say the same. What is
//! large and rare is boxed, so that a node takes the memory that its own kind needs.
#![tactic(auto)]

pub mod expr;
pub mod places;
pub mod stmt;

pub use expr::{
    Abstract, Access, AssignOp, Attr, BinOp, Declarator, EnumSpec, Enumerator, Expr, Link, Member,
    Name, Next, NumberType, One, Param, Params, Spec, SpecWord, Star, StepOp, StructSpec, Suffix,
    TypeName, UnOp,
};
pub use places::{first_place, initial_place, spec_place, specs_place};
pub use stmt::{
    Block, Decl, External, First, ForHead, Function, Init, Initial, Item, Label, Part, Stmt, Unit,
};
