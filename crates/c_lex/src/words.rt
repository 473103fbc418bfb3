//! The words of the language, and those of C that it leaves out.

ghost use Rattle.std.specs.Prelude.{◌≡◌};
ghost use Rattle.c_lex.specs.Likely as likely;
ghost use Rattle.c_lex.specs.Reading as reading;
ghost use Rattle.c_lex.specs.Spelling as spec;

use crate::token::Keyword;

/// A word of C that this language leaves out.
#[derive(Clone, Copy)]
pub enum LeftOut {
    Float,
    Double,
    Bool,
    Complex,
    Union,
    Goto,
    Auto,
    Register,
    Restrict,
    Asm,
    Alignas,
    Alignof,
    Atomic,
    Generic,
    Noreturn,
    StaticAssert,
    ThreadLocal,
}

fn word_text(word: Keyword) -> &'static [u8]
    ensures { result.now ≡ spec.word_text word }
{
    match word {
        Keyword::Typedef => b"typedef",
        Keyword::Extern => b"extern",
        Keyword::Static => b"static",
        Keyword::Inline => b"inline",
        Keyword::Const => b"const",
        Keyword::Volatile => b"volatile",
        Keyword::Void => b"void",
        Keyword::Char => b"char",
        Keyword::Short => b"short",
        Keyword::Int => b"int",
        Keyword::Long => b"long",
        Keyword::Signed => b"signed",
        Keyword::Unsigned => b"unsigned",
        Keyword::Struct => b"struct",
        Keyword::Enum => b"enum",
        Keyword::Attribute => b"__attribute__",
        Keyword::Return => b"return",
        Keyword::Break => b"break",
        Keyword::Continue => b"continue",
        Keyword::If => b"if",
        Keyword::Else => b"else",
        Keyword::While => b"while",
        Keyword::Do => b"do",
        Keyword::For => b"for",
        Keyword::Switch => b"switch",
        Keyword::Case => b"case",
        Keyword::Default => b"default",
        Keyword::Sizeof => b"sizeof",
    }
}

fn left_out_text(word: LeftOut) -> &'static [u8]
    ensures { result.now ≡ spec.left_out_text word }
{
    match word {
        LeftOut::Float => b"float",
        LeftOut::Double => b"double",
        LeftOut::Bool => b"_Bool",
        LeftOut::Complex => b"_Complex",
        LeftOut::Union => b"union",
        LeftOut::Goto => b"goto",
        LeftOut::Auto => b"auto",
        LeftOut::Register => b"register",
        LeftOut::Restrict => b"restrict",
        LeftOut::Asm => b"asm",
        LeftOut::Alignas => b"_Alignas",
        LeftOut::Alignof => b"_Alignof",
        LeftOut::Atomic => b"_Atomic",
        LeftOut::Generic => b"_Generic",
        LeftOut::Noreturn => b"_Noreturn",
        LeftOut::StaticAssert => b"_Static_assert",
        LeftOut::ThreadLocal => b"_Thread_local",
    }
}

/// The one word that may begin with `first` and end with `last`, with so many bytes.
#[tactic(auto, unfolding(crate::specs::Likely::likely_word))]
fn likely_word(first: u8, size: usize, last: u8) -> Option<Keyword>
    ensures { result ≡ likely.likely_word first size last }
{
    match first {
        b'_' => Some(Keyword::Attribute),
        b'b' => Some(Keyword::Break),
        b'c' => likely_c(size, last),
        b'd' => Some(if size == 2 {
            Keyword::Do
        } else {
            Keyword::Default
        }),
        b'e' => likely_e(last),
        b'f' => Some(Keyword::For),
        b'i' => likely_i(last),
        b'l' => Some(Keyword::Long),
        b'r' => Some(Keyword::Return),
        b's' => likely_s(size, last),
        b't' => Some(Keyword::Typedef),
        b'u' => Some(Keyword::Unsigned),
        b'v' => Some(if size == 4 {
            Keyword::Void
        } else {
            Keyword::Volatile
        }),
        b'w' => Some(Keyword::While),
        _ => None,
    }
}

fn likely_c(size: usize, last: u8) -> Option<Keyword>
    ensures { result ≡ likely.likely_c size last }
{
    match last {
        b't' => Some(Keyword::Const),
        b'r' => Some(Keyword::Char),
        b'e' => Some(if size == 4 {
            Keyword::Case
        } else {
            Keyword::Continue
        }),
        _ => None,
    }
}

fn likely_e(last: u8) -> Option<Keyword>
    ensures { result ≡ likely.likely_e last }
{
    match last {
        b'n' => Some(Keyword::Extern),
        b'm' => Some(Keyword::Enum),
        b'e' => Some(Keyword::Else),
        _ => None,
    }
}

fn likely_i(last: u8) -> Option<Keyword>
    ensures { result ≡ likely.likely_i last }
{
    match last {
        b'f' => Some(Keyword::If),
        b't' => Some(Keyword::Int),
        b'e' => Some(Keyword::Inline),
        _ => None,
    }
}

fn likely_s(size: usize, last: u8) -> Option<Keyword>
    ensures { result ≡ likely.likely_s size last }
{
    match last {
        b'c' => Some(Keyword::Static),
        b't' => Some(if size == 5 {
            Keyword::Short
        } else {
            Keyword::Struct
        }),
        b'd' => Some(Keyword::Signed),
        b'h' => Some(Keyword::Switch),
        b'f' => Some(Keyword::Sizeof),
        _ => None,
    }
}

/// The one word that is left out and may begin with `first` and end with `last`, with so many bytes.
#[tactic(auto, unfolding(crate::specs::Likely::likely_left_out))]
fn likely_left_out(first: u8, size: usize, last: u8) -> Option<LeftOut>
    ensures { result ≡ likely.likely_left_out first size last }
{
    match first {
        b'_' => likely_under(size, last),
        b'a' => Some(if size == 3 {
            LeftOut::Asm
        } else {
            LeftOut::Auto
        }),
        b'd' => Some(LeftOut::Double),
        b'f' => Some(LeftOut::Float),
        b'g' => Some(LeftOut::Goto),
        b'r' => Some(if last == b'r' {
            LeftOut::Register
        } else {
            LeftOut::Restrict
        }),
        b'u' => Some(LeftOut::Union),
        _ => None,
    }
}

fn likely_under(size: usize, last: u8) -> Option<LeftOut>
    ensures { result ≡ likely.likely_under size last }
{
    match last {
        b'l' => Some(if size == 5 {
            LeftOut::Bool
        } else {
            LeftOut::ThreadLocal
        }),
        b'x' => Some(LeftOut::Complex),
        b's' => Some(LeftOut::Alignas),
        b'f' => Some(LeftOut::Alignof),
        b'c' => Some(if size == 7 {
            LeftOut::Atomic
        } else {
            LeftOut::Generic
        }),
        b'n' => Some(LeftOut::Noreturn),
        b't' => Some(LeftOut::StaticAssert),
        _ => None,
    }
}

/// The word that is spelled so.
#[tactic(auto, using(crate::proofs::NameLaws::words))]
pub fn word_of(name: &[u8]) -> Option<Keyword>
    ensures { result ≡ reading.word_of name.now }
{
    if name.is_empty() {
        return None;
    }
    match likely_word(name[0], name.len(), name[name.len() - 1]) {
        Some(word) => {
            if word_text(word) == name {
                Some(word)
            } else {
                None
            }
        }
        None => None,
    }
}

/// Whether a word that is left out is spelled so.
#[tactic(auto, using(crate::proofs::NameLaws::words))]
pub fn is_left_out(name: &[u8]) -> bool
    ensures { result ≡ reading.is_left_out name.now }
{
    if name.is_empty() {
        return false;
    }
    match likely_left_out(name[0], name.len(), name[name.len() - 1]) {
        Some(word) => left_out_text(word) == name,
        None => false,
    }
}
