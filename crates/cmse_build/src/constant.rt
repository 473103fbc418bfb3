//! The programs of one entry function that gives a constant.
ghost use Rattle.std.specs.Prelude.{◌≡◌, ◌≤◌, ◌↔◌, ℕ, List, ◌++◌, length, IsTrue, MatchOption, IfSome, IfNone};
ghost use Rattle.std.specs.Fmt.{decimal};
ghost use Rattle.std.specs.Str.{bytes_eq};
ghost use Rattle.std.specs.List.{prefix_len, list_all, list_any};
ghost use Rattle.cmse_build.specs.Constant.{IsConstant, IsEnd, is_letter, is_digit, is_word_byte, is_c_name, is_kept_word, is_kept_name, is_entry_name, is_decimal};

const FRONT: &[u8] = b"int __attribute__((cmse_nonsecure_entry)) ";

const MIDDLE: &[u8] = b"(void) { return ";

const END: &[u8] = b"; }";

const END_OF_LINE: &[u8] = b"; }\n";

/// The greatest number that an `int` holds.
const MOST: u32 = 2_147_483_647;

/// What no function of these programs is called: the words of the grammar, and those of C that the language
/// leaves out (C11, 6.4.1).
const KEPT_WORDS: [&str; 45] = [
    "typedef",
    "extern",
    "static",
    "inline",
    "const",
    "volatile",
    "void",
    "char",
    "short",
    "int",
    "long",
    "signed",
    "unsigned",
    "struct",
    "enum",
    "__attribute__",
    "return",
    "break",
    "continue",
    "if",
    "else",
    "while",
    "do",
    "for",
    "switch",
    "case",
    "default",
    "sizeof",
    "_Bool",
    "_Complex",
    "union",
    "goto",
    "auto",
    "register",
    "restrict",
    "asm",
    "_Alignas",
    "_Alignof",
    "_Atomic",
    "_Generic",
    "_Noreturn",
    "_Static_assert",
    "_Thread_local",
    "float",
    "double",
];

/// Whether a byte may begin a name.
fn is_letter(b: u8) -> bool
    ensures { result ≡ is_letter b }
{
    b.is_ascii_alphabetic() || b == b'_'
}

/// Whether a byte may go a name on.
fn is_word_byte(b: u8) -> bool
    ensures { result ≡ is_word_byte b }
{
    is_letter(b) || b.is_ascii_digit()
}

fn is_word(bytes: &[u8]) -> bool
    ensures { result ≡ list_all is_word_byte bytes.now }
{
    bytes.iter().all(|b| is_word_byte(*b))
}

fn is_c_name(name: &[u8]) -> bool
    ensures { result ≡ is_c_name name.now }
{
    match name {
        [] => false,
        [first, rest @ ..] => is_letter(*first) && is_word(rest),
    }
}

/// Whether a name is one of these words.
fn is_among(words: &[&str], name: &[u8]) -> bool
    ensures { result ≡ list_any (λ word. bytes_eq word.now name.now) words.now }
{
    for word in words {
        if word.as_bytes() == name {
            return true;
        }
    }
    false
}

#[tactic(auto, unfolding(crate::specs::Constant::is_kept_word))]
fn is_kept_word(name: &[u8]) -> bool
    ensures { result ≡ is_kept_word name.now }
{
    is_among(&KEPT_WORDS, name)
}

/// Whether a name is kept for the language or for the tools.
#[tactic(auto, unfolding(crate::specs::Constant::is_kept_name))]
fn is_kept_name(name: &[u8]) -> bool
    ensures { result ≡ is_kept_name name.now }
{
    is_kept_word(name) || name.starts_with(b"cmse_") || name.starts_with(b"__acle_se_")
}

/// Whether an entry function may have this name.
#[tactic(auto, unfolding(crate::specs::Constant::is_entry_name))]
fn is_entry_name(name: &[u8]) -> bool
    ensures { result ≡ is_entry_name name.now }
{
    is_c_name(name) && name.len() <= 31 && !is_kept_name(name)
}

/// What follows `front`, where the text begins with it.
fn after<'a>(text: &'a [u8], front: &[u8]) -> Option<&'a [u8]>
    ensures { MatchOption result
        ((rest : List ℕ) → text.now ≡ front.now ++ rest → ⊥)
        (λ rest. text.now ≡ front.now ++ rest.now) }
{
    text.strip_prefix(front)
}

/// How many bytes at the front of a text may go a name on.
fn word_len(text: &[u8]) -> usize
    ensures value { result ≡ prefix_len is_word_byte text.now }
    ensures within { result ≤ length text.now }
{
    for (i, b) in text.iter().enumerate() {
        if !is_word_byte(*b) {
            return i;
        }
    }
    text.len()
}

/// How many digits stand at the front of a text.
fn digits_len(text: &[u8]) -> usize
    ensures value { result ≡ prefix_len is_digit text.now }
    ensures within { result ≤ length text.now }
{
    for (i, b) in text.iter().enumerate() {
        if !b.is_ascii_digit() {
            return i;
        }
    }
    text.len()
}

fn is_digits(bytes: &[u8]) -> bool
    ensures { result ≡ list_all is_digit bytes.now }
{
    bytes.iter().all(|b| b.is_ascii_digit())
}

/// Whether these are the digits of a number, without a leading 0.
fn is_decimal(digits: &[u8]) -> bool
    ensures { result ≡ is_decimal digits.now }
{
    match digits {
        [] => false,
        [first, rest @ ..] => is_digits(digits) && (*first != b'0' || rest.is_empty()),
    }
}

/// The number that these digits spell without a leading 0, where an `int` holds it.
fn number_of(digits: &[u8]) -> Option<u32>
    ensures { MatchOption result
        ((n : ℕ) → n ≤ 2147483647 → digits.now ≡ decimal n → ⊥)
        (λ n. (n ≤ 2147483647) × (digits.now ≡ decimal n)) }
{
    if !is_decimal(digits) {
        return None;
    }
    let Ok(text) = str::from_utf8(digits) else {
        return None;
    };
    match text.parse::<u32>() {
        Ok(n) if n <= MOST => Some(n),
        _ => None,
    }
}

/// Whether this is what ends the text.
fn is_end(rest: &[u8]) -> bool
    ensures { IsTrue result ↔ IsEnd rest.now }
{
    rest == END || rest == END_OF_LINE
}

/// The name and the number of a program of one entry function that returns a constant, or None where the text is
/// no such program. It takes no memory.
pub fn read_constant(text: &[u8]) -> Option<(&[u8], u32)>
    ensures found { IfSome result (λ x. IsConstant text.now x.0.now x.1) }
    ensures none { IfNone result ((name : List ℕ) (n : ℕ) → IsConstant text.now name n → ⊥) }
{
    let rest = after(text, FRONT)?;
    let (name, rest) = rest.split_at(word_len(rest));
    if !is_entry_name(name) {
        return None;
    }
    let rest = after(rest, MIDDLE)?;
    let (digits, rest) = rest.split_at(digits_len(rest));
    let n = number_of(digits)?;
    if is_end(rest) { Some((name, n)) } else { None }
}

/// A text is the program of one name and one number alone.
pub fn one_constant()
    ensures { (text a b : List ℕ) (m n : ℕ) → IsConstant text a m → IsConstant text b n → (a ≡ b) × (m ≡ n) }
{}
