//! Types.

use crate::arith::Arith;
use cm_base::{List, Shared, Text};

/// A type with its qualifiers. An array has none of its own: its elements have them (C11 6.7.3, paragraph 9).
#[cycle(ctype)]
#[derive(Drop)]
pub struct CType {
    pub shape: Shape,
    pub is_const: bool,
    pub is_volatile: bool,
}

/// A type without its own qualifiers.
#[cycle(ctype)]
#[derive(Drop)]
pub enum Shape {
    Void,
    Arith(Arith),
    Pointer(Shared<CType>),
    /// An array without a length is incomplete.
    Array {
        of: Shared<CType>,
        len: Option<u32>,
    },
    /// A struct by its place in the unit's order of first sight. Its name is its tag, empty where it has none; its size
    /// and alignment are in bytes, and 0 where it isn't complete at that place of the text.
    Struct {
        number: u32,
        name: Text,
        size: u32,
        align: u32,
    },
    /// A function type. Its parameters have no qualifiers of their own.
    Function {
        gives: Shared<CType>,
        params: List<CType>,
        nonsecure: bool,
    },
}
