//! Classes of bytes, and runs of them.

ghost use Rattle.std.specs.Prelude.{◌≡◌};
ghost use Rattle.c_lex.specs.Classes as spec;

/// A class of bytes.
#[derive(Clone, Copy)]
pub enum Class {
    Letter,
    Name,
    Digit,
    Octal,
    Hex,
    Blank,
    Space,
    /// All but a line feed.
    Line,
    /// `u` and `U`
    U,
    /// `l` and `L`
    L,
    /// What stands for itself in a literal.
    Plain,
    /// What stands for itself in a string.
    Str,
}

#[inline(always)]
#[tactic(auto, unfolding(crate::specs::Classes::is_letter))]
fn is_letter(b: u8) -> bool
    ensures { result ≡ spec.is_letter b }
{
    matches!(b, b'A'..=b'Z' | b'a'..=b'z' | b'_')
}

#[inline(always)]
#[tactic(auto, unfolding(crate::specs::Classes::is_digit))]
fn is_digit(b: u8) -> bool
    ensures { result ≡ spec.is_digit b }
{
    matches!(b, b'0'..=b'9')
}

#[inline(always)]
#[tactic(auto, unfolding(crate::specs::Classes::is_octal))]
fn is_octal(b: u8) -> bool
    ensures { result ≡ spec.is_octal b }
{
    matches!(b, b'0'..=b'7')
}

#[inline(always)]
#[tactic(auto, unfolding(crate::specs::Classes::is_hex))]
fn is_hex(b: u8) -> bool
    ensures { result ≡ spec.is_hex b }
{
    matches!(b, b'0'..=b'9' | b'A'..=b'F' | b'a'..=b'f')
}

#[inline(always)]
#[tactic(auto, unfolding(crate::specs::Classes::is_name_byte))]
fn is_name_byte(b: u8) -> bool
    ensures { result ≡ spec.is_name_byte b }
{
    is_letter(b) || is_digit(b)
}

#[inline(always)]
#[tactic(auto, unfolding(crate::specs::Classes::is_blank))]
fn is_blank(b: u8) -> bool
    ensures { result ≡ spec.is_blank b }
{
    matches!(b, b' ' | b'\t' | b'\r')
}

#[inline(always)]
#[tactic(auto, unfolding(crate::specs::Classes::is_space))]
fn is_space(b: u8) -> bool
    ensures { result ≡ spec.is_space b }
{
    is_blank(b) || b == b'\n'
}

#[inline(always)]
#[tactic(auto, unfolding(crate::specs::Classes::is_in_line))]
fn is_in_line(b: u8) -> bool
    ensures { result ≡ spec.is_in_line b }
{
    b != b'\n'
}

#[inline(always)]
#[tactic(auto, unfolding(crate::specs::Classes::is_u))]
fn is_u(b: u8) -> bool
    ensures { result ≡ spec.is_u b }
{
    matches!(b, b'u' | b'U')
}

#[inline(always)]
#[tactic(auto, unfolding(crate::specs::Classes::is_l))]
fn is_l(b: u8) -> bool
    ensures { result ≡ spec.is_l b }
{
    matches!(b, b'l' | b'L')
}

#[inline(always)]
#[tactic(auto, unfolding(crate::specs::Classes::is_plain))]
fn is_plain(b: u8) -> bool
    ensures { result ≡ spec.is_plain b }
{
    matches!(b, b' '..=b'~' | b'\t' | b'\r') && b != b'\\'
}

#[inline(always)]
#[tactic(auto, unfolding(crate::specs::Classes::is_in_string))]
fn is_in_string(b: u8) -> bool
    ensures { result ≡ spec.is_in_string b }
{
    is_plain(b) && b != b'"'
}

impl Class {
    /// Whether the byte is of the class.
    #[inline(always)]
    pub fn has(self, b: u8) -> bool
        ensures { result ≡ spec.is_in self b }
    {
        match self {
            Class::Letter => is_letter(b),
            Class::Name => is_name_byte(b),
            Class::Digit => is_digit(b),
            Class::Octal => is_octal(b),
            Class::Hex => is_hex(b),
            Class::Blank => is_blank(b),
            Class::Space => is_space(b),
            Class::Line => is_in_line(b),
            Class::U => is_u(b),
            Class::L => is_l(b),
            Class::Plain => is_plain(b),
            Class::Str => is_in_string(b),
        }
    }
}

/// Whether a byte of the class stands at the front.
pub fn begins(class: Class, text: &[u8]) -> bool
    ensures { result ≡ spec.begins (spec.is_in class) text.now }
{
    match text {
        [b, ..] => class.has(*b),
        [] => false,
    }
}

/// Whether this byte stands at the front.
pub fn begins_with(byte: u8, text: &[u8]) -> bool
    ensures { result ≡ spec.begins_with byte text.now }
{
    match text {
        [b, ..] => *b == byte,
        [] => false,
    }
}

/// The value of a digit, hexadecimal ones too.
#[tactic(auto, unfolding(crate::specs::Classes::digit_value))]
pub fn digit_value(b: u8) -> u8
    ensures { result ≡ spec.digit_value b }
{
    if b >= b'a' {
        b - 87
    } else if b >= b'A' {
        b - 55
    } else {
        b.saturating_sub(b'0')
    }
}
