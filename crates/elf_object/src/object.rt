//! Objects.

use cm_base::{Bytes, List, Text};

/// An object: code, the initial contents of globals, symbols, and the places of the code that are resolved when it is
/// linked.
#[derive(Drop)]
pub struct Object {
    pub text: Bytes,
    pub init: Bytes,
    pub symbols: List<Symbol>,
    pub relocs: List<Reloc>,
}

/// A name, and what it stands for: a place in the text or in the initial contents, counted in bytes from their
/// beginning, or an address. An undefined name is defined in another object, and its value says nothing.
#[derive(Drop)]
pub struct Symbol {
    pub name: Text,
    pub home: Home,
    pub value: u32,
}

/// Where a symbol is defined.
#[derive(Clone, Copy, Debug, PartialEq, Eq)]
pub enum Home {
    Undefined,
    Text,
    Init,
    Absolute,
}

/// A relocation: the four bytes of the text from `at` on are to hold the place of the symbol of this number, in the way
/// of the kind.
#[derive(Clone, Copy, Debug, PartialEq, Eq)]
pub struct Reloc {
    pub at: u32,
    pub kind: u8,
    pub symbol: u32,
}

/// An object with the addresses of its text and of its initial contents.
#[derive(Drop)]
pub struct Sited {
    pub object: Object,
    pub text_at: u32,
    pub init_at: u32,
}
