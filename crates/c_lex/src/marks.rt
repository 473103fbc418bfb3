//! Marks.

ghost use Rattle.std.specs.Prelude.{◌≡◌, MatchOption, Some, None};
ghost use Rattle.c_lex.specs.Reading as spec;

use crate::token::Punct;

/// The mark of this byte and `=`.
fn with_equals(a: u8) -> Option<Punct>
    ensures { result ≡ spec.with_equals a }
{
    match a {
        b'*' => Some(Punct::StarAssign),
        b'/' => Some(Punct::SlashAssign),
        b'%' => Some(Punct::PercentAssign),
        b'+' => Some(Punct::PlusAssign),
        b'-' => Some(Punct::MinusAssign),
        b'&' => Some(Punct::AmpAssign),
        b'^' => Some(Punct::CaretAssign),
        b'|' => Some(Punct::PipeAssign),
        b'<' => Some(Punct::LessEqual),
        b'>' => Some(Punct::GreaterEqual),
        b'=' => Some(Punct::EqualEqual),
        b'!' => Some(Punct::NotEqual),
        _ => None,
    }
}

/// The mark of this byte twice.
fn doubled(a: u8) -> Option<Punct>
    ensures { result ≡ spec.doubled a }
{
    match a {
        b'+' => Some(Punct::PlusPlus),
        b'-' => Some(Punct::MinusMinus),
        b'<' => Some(Punct::Shl),
        b'>' => Some(Punct::Shr),
        b'&' => Some(Punct::AndAnd),
        b'|' => Some(Punct::OrOr),
        _ => None,
    }
}

fn one_mark(a: u8) -> Option<Punct>
    ensures { result ≡ spec.one_mark a }
{
    match a {
        b'{' => Some(Punct::BraceOpen),
        b'}' => Some(Punct::BraceClose),
        b'(' => Some(Punct::ParenOpen),
        b')' => Some(Punct::ParenClose),
        b'[' => Some(Punct::BracketOpen),
        b']' => Some(Punct::BracketClose),
        b';' => Some(Punct::Semicolon),
        b',' => Some(Punct::Comma),
        b':' => Some(Punct::Colon),
        b'?' => Some(Punct::Question),
        b'.' => Some(Punct::Dot),
        b'~' => Some(Punct::Tilde),
        b'!' => Some(Punct::Bang),
        b'*' => Some(Punct::Star),
        b'/' => Some(Punct::Slash),
        b'%' => Some(Punct::Percent),
        b'+' => Some(Punct::Plus),
        b'-' => Some(Punct::Minus),
        b'<' => Some(Punct::Less),
        b'>' => Some(Punct::Greater),
        b'&' => Some(Punct::Amp),
        b'^' => Some(Punct::Caret),
        b'|' => Some(Punct::Pipe),
        b'=' => Some(Punct::Assign),
        _ => None,
    }
}

fn two_mark(a: u8, b: u8) -> Option<Punct>
    ensures { result ≡ spec.two_mark a b }
{
    if b == b'=' {
        return with_equals(a);
    }
    if a == b {
        return doubled(a);
    }
    if a == b'-' && b == b'>' {
        return Some(Punct::Arrow);
    }
    None
}

fn three_mark(a: u8, b: u8, c: u8) -> Option<Punct>
    ensures { result ≡ spec.three_mark a b c }
{
    if a == b && c == b'=' {
        if a == b'<' {
            return Some(Punct::ShlAssign);
        }
        if a == b'>' {
            return Some(Punct::ShrAssign);
        }
    }
    None
}

/// A mark of one byte.
#[tactic(auto, unfolding(crate::specs::Reading::one_at))]
fn one_at(text: &[u8]) -> Option<(Punct, &[u8])>
    ensures { MatchOption result (spec.one_at text.now ≡ None) (λ x. spec.one_at text.now ≡ Some (x.0, x.1.now)) }
{
    match text {
        [a, rest @ ..] => match one_mark(*a) {
            Some(mark) => Some((mark, rest)),
            None => None,
        },
        [] => None,
    }
}

/// A mark of two bytes, else of one.
#[tactic(auto, unfolding(crate::specs::Reading::two_at))]
fn two_at(text: &[u8]) -> Option<(Punct, &[u8])>
    ensures { MatchOption result (spec.two_at text.now ≡ None) (λ x. spec.two_at text.now ≡ Some (x.0, x.1.now)) }
{
    if let [a, b, rest @ ..] = text {
        if let Some(mark) = two_mark(*a, *b) {
            return Some((mark, rest));
        }
    }
    one_at(text)
}

/// The longest mark at the front, and what is behind it.
#[tactic(auto, unfolding(crate::specs::Reading::mark_at))]
pub fn mark_at(text: &[u8]) -> Option<(Punct, &[u8])>
    ensures { MatchOption result (spec.mark_at text.now ≡ None) (λ x. spec.mark_at text.now ≡ Some (x.0, x.1.now)) }
{
    if let [a, b, c, rest @ ..] = text {
        if let Some(mark) = three_mark(*a, *b, *c) {
            return Some((mark, rest));
        }
    }
    two_at(text)
}
