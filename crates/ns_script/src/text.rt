//! The lines and words of a text, and the numbers and bytes that words say.

ghost use Rattle.std.specs.Prelude.{◌≡◌, ◌<◌, ◌+◌, ◌*◌, ◌∷◌, ◌==◌, length, position, bytes_eq, IfOk, IfSome, option_copied};
ghost use Rattle.ns_script.specs.Text.{before, behind, without_return, lines, words, words_left, one_word, digit, number, byte_in, pairs, bytes_in};

use cm_base::{Bytes, NoMemory};
use std::alloc::Global;

/// The word is this text.
pub fn is(word: &[u8], text: &str) -> bool
    ensures { result ≡ bytes_eq word.now text.now }
{
    word == text.as_bytes()
}

fn place(text: &[u8], at: u8) -> Option<usize>
    ensures { result ≡ position (λ b. b == at) text.now }
{
    text.iter().position(|b| *b == at)
}

/// What stands before the first byte `at`, and what behind it, if there is one.
#[tactic(auto, using(crate::proofs::TextLaws::cuts))]
pub fn cut(text: &[u8], at: u8) -> (&[u8], Option<&[u8]>)
    ensures front { result.0.now ≡ before at text.now }
    ensures back { option_copied result.1 ≡ behind at text.now }
    ensures shorter { IfSome result.1 (λ r. length r.now < length text.now) }
{
    match place(text, at) {
        Some(i) => {
            let (front, _) = text.split_at(i);
            let (_, back) = text.split_at(i + 1);
            (front, Some(back))
        }
        None => (text, None),
    }
}

/// The first line of a text that isn't empty, and the text behind it.
#[tactic(auto, using(crate::proofs::TextLaws::splits))]
pub fn next_line(text: &[u8]) -> (&[u8], &[u8])
    requires { 0 < length text.now }
    ensures lines { lines text.now ≡ result.0.now ∷ lines result.1.now }
    ensures shorter { length result.1.now < length text.now }
{
    let (line, rest) = cut(text, b'\n');
    match rest {
        Some(rest) => (without_return(line), rest),
        None => {
            let (line, rest) = text.split_at(text.len());
            (line, rest)
        }
    }
}

/// A line without the carriage return at its end.
#[tactic(auto, unfolding(crate::specs::Text::without_return))]
fn without_return(line: &[u8]) -> &[u8]
    ensures { result.now ≡ without_return line.now }
{
    if line.is_empty() {
        return line;
    }
    let end = line.len() - 1;
    if line[end] == b'\r' {
        let (front, _) = line.split_at(end);
        return front;
    }
    line
}

/// The first word of a line, and what stands behind the blank after it, if there is one.
#[tactic(auto, using(crate::proofs::TextLaws::splits))]
pub fn next_word(text: &[u8]) -> (&[u8], Option<&[u8]>)
    ensures words { words text.now ≡ result.0.now ∷ words_left (option_copied result.1) }
    ensures shorter { IfSome result.1 (λ r. length r.now < length text.now) }
{
    cut(text, b' ')
}

/// The word, where there is no other.
pub fn one_word(text: Option<&[u8]>) -> Option<&[u8]>
    ensures { option_copied result ≡ one_word (words_left (option_copied text.entry)) }
{
    let (word, rest) = next_word(text?);
    match rest {
        None => Some(word),
        Some(rest) => {
            let _next = next_word(rest);
            None
        }
    }
}

/// The value of a hexadecimal digit.
#[tactic(auto, unfolding(crate::specs::Text::digit))]
fn digit(c: u8) -> Option<u8>
    ensures value { result ≡ digit c }
    ensures small { IfSome result (λ d. d < 16) }
{
    match c {
        b'0'..=b'9' => Some(c - b'0'),
        b'A'..=b'F' => Some(c - b'A' + 10),
        b'a'..=b'f' => Some(c - b'a' + 10),
        _ => None,
    }
}

/// The number that one to eight hexadecimal digits write.
#[tactic(auto, using(crate::proofs::NumberLaws::numbers), unfolding(crate::specs::Text::number))]
pub fn number(word: &[u8]) -> Option<u32>
    ensures { result ≡ number word.now }
{
    if word.is_empty() || word.len() > 8 {
        return None;
    }
    let mut n: u32 = 0;
    for c in word {
        n = 16 * n + u32::from(digit(*c)?);
    }
    Some(n)
}

#[tactic(auto, unfolding(crate::specs::Text::byte_in))]
fn byte_in(a: u8, b: u8) -> Option<u8>
    ensures { result ≡ byte_in a b }
{
    let high = digit(a)?;
    let low = digit(b)?;
    Some(16 * high + low)
}

/// The bytes that pairs of digits write.
#[tactic(auto, using(crate::proofs::NumberLaws::many))]
fn pairs(alloc: Global, word: &[u8]) -> Result<Option<Bytes>, NoMemory>
    ensures { IfOk result (λ x. x ≡ pairs word.now) }
{
    let mut found = Bytes::from_vec(Vec::with_capacity(alloc, word.len() / 2)?);
    let mut rest = word;
    while rest.len() >= 2 {
        match byte_in(rest[0], rest[1]) {
            Some(byte) => found.push(byte)?,
            None => return Ok(None),
        }
        let (_, more) = rest.split_at(2);
        rest = more;
    }
    if rest.is_empty() {
        Ok(Some(found))
    } else {
        Ok(None)
    }
}

/// The bytes that an even number of hexadecimal digits, at least two, write.
#[tactic(auto, unfolding(crate::specs::Text::bytes_in))]
pub fn bytes_in(alloc: Global, word: &[u8]) -> Result<Option<Bytes>, NoMemory>
    ensures { IfOk result (λ x. x ≡ bytes_in word.now) }
{
    if word.is_empty() {
        return Ok(None);
    }
    pairs(alloc, word)
}
