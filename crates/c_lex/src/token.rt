//! The kinds of tokens.

use c_names::Ident;
use cm_base::{Bytes, Place};

/// A word of the language.
#[derive(Clone, Copy, Debug, PartialEq, Eq)]
pub enum Keyword {
    Typedef,
    Extern,
    Static,
    Inline,
    Const,
    Volatile,
    Void,
    Char,
    Short,
    Int,
    Long,
    Signed,
    Unsigned,
    Struct,
    Enum,
    /// `__attribute__`
    Attribute,
    Return,
    Break,
    Continue,
    If,
    Else,
    While,
    Do,
    For,
    Switch,
    Case,
    Default,
    Sizeof,
}

/// A mark.
#[derive(Clone, Copy, Debug, PartialEq, Eq)]
pub enum Punct {
    BraceOpen,
    BraceClose,
    ParenOpen,
    ParenClose,
    BracketOpen,
    BracketClose,
    Semicolon,
    Comma,
    Colon,
    Question,
    Dot,
    Arrow,
    PlusPlus,
    MinusMinus,
    Tilde,
    Bang,
    Star,
    Slash,
    Percent,
    Plus,
    Minus,
    Shl,
    Shr,
    Less,
    Greater,
    LessEqual,
    GreaterEqual,
    EqualEqual,
    NotEqual,
    Amp,
    Caret,
    Pipe,
    AndAnd,
    OrOr,
    Assign,
    StarAssign,
    SlashAssign,
    PercentAssign,
    PlusAssign,
    MinusAssign,
    ShlAssign,
    ShrAssign,
    AmpAssign,
    CaretAssign,
    PipeAssign,
}

/// A header that `#include` names.
#[derive(Clone, Copy, Debug, PartialEq, Eq)]
pub enum Header {
    /// `<stdint.h>`
    StdInt,
    /// `<arm_cmse.h>`
    ArmCmse,
}

/// What a token is, with its value.
#[derive(Debug, Drop)]
pub enum Kind {
    Name(Ident),
    Word(Keyword),
    /// `unsigned`: the type is unsigned or unsigned long. `long`: the suffix `l` stands.
    Number {
        value: u32,
        unsigned: bool,
        long: bool,
    },
    /// A character constant, an int from 0 to 255.
    Char(u8),
    /// A string's bytes, without a final 0.
    Str(Bytes),
    Mark(Punct),
    Include(Header),
}

/// A token and the place of its first byte.
#[derive(Debug, Drop)]
pub struct Token {
    pub kind: Kind,
    pub place: Place,
}
