//! Tokens from the front: words and marks, and tokens with a value.

ghost use Rattle.std.specs.Prelude.{◌≡◌};
ghost use Rattle.c_grammar.specs.Tokens as spec;
ghost use Rattle.c_grammar.specs.declared.tokens.ParseError.TheVariants as errors;

use crate::names::TypeNames;
use c_ast::{Expr, Name, NumberType};
use c_lex::token::{Header, Keyword, Kind, Punct, Token};
use cm_base::{Bytes, NoMemory, Place};
use std::alloc::{AllocError, Global};

/// A token without a value: a word or a mark.
#[derive(Clone, Copy, Debug, PartialEq, Eq)]
pub enum Sign {
    Word(Keyword),
    Mark(Punct),
}

/// What is wrong, and how many tokens are left there.
#[derive(Clone, Copy, Debug, PartialEq, Eq)]
pub enum Fault {
    /// No unit goes on with the next token, or tokens are missing.
    Syntax(usize),
    /// The next token is nested too deeply.
    Deep(usize),
}

/// Why no part was read.
#[derive(Debug, Drop)]
pub enum ParseError {
    Memory,
    Fault(Fault),
}

impl From<AllocError> for ParseError {
    ghost from_gives = { λ _ e. e ≡ errors.Memory };

    fn from(_e: AllocError) -> ParseError {
        ParseError::Memory
    }
}

impl From<NoMemory> for ParseError {
    ghost from_gives = { λ _ e. e ≡ errors.Memory };

    fn from(_e: NoMemory) -> ParseError {
        ParseError::Memory
    }
}

/// A value read from the front, and the tokens after it.
pub type Read<'a, T> = Result<(T, &'a [Token]), ParseError>;

pub fn fault_at(ts: &[Token]) -> ParseError
    ensures { result ≡ errors.Fault (spec.fault ts.now) }
{
    ParseError::Fault(Fault::Syntax(ts.len()))
}

pub fn deep_at(ts: &[Token]) -> ParseError
    ensures { result ≡ errors.Fault (spec.deep ts.now) }
{
    ParseError::Fault(Fault::Deep(ts.len()))
}

fn word_code(w: Keyword) -> u8
    ensures { result ≡ spec.word_code w }
{
    match w {
        Keyword::Typedef => 0,
        Keyword::Extern => 1,
        Keyword::Static => 2,
        Keyword::Inline => 3,
        Keyword::Const => 4,
        Keyword::Volatile => 5,
        Keyword::Void => 6,
        Keyword::Char => 7,
        Keyword::Short => 8,
        Keyword::Int => 9,
        Keyword::Long => 10,
        Keyword::Signed => 11,
        Keyword::Unsigned => 12,
        Keyword::Struct => 13,
        Keyword::Enum => 14,
        Keyword::Attribute => 15,
        Keyword::Return => 16,
        Keyword::Break => 17,
        Keyword::Continue => 18,
        Keyword::If => 19,
        Keyword::Else => 20,
        Keyword::While => 21,
        Keyword::Do => 22,
        Keyword::For => 23,
        Keyword::Switch => 24,
        Keyword::Case => 25,
        Keyword::Default => 26,
        Keyword::Sizeof => 27,
    }
}

fn mark_code(m: Punct) -> u8
    ensures { result ≡ spec.mark_code m }
{
    match m {
        Punct::BraceOpen => 0,
        Punct::BraceClose => 1,
        Punct::ParenOpen => 2,
        Punct::ParenClose => 3,
        Punct::BracketOpen => 4,
        Punct::BracketClose => 5,
        Punct::Semicolon => 6,
        Punct::Comma => 7,
        Punct::Colon => 8,
        Punct::Question => 9,
        Punct::Dot => 10,
        Punct::Arrow => 11,
        Punct::PlusPlus => 12,
        Punct::MinusMinus => 13,
        Punct::Tilde => 14,
        Punct::Bang => 15,
        Punct::Star => 16,
        Punct::Slash => 17,
        Punct::Percent => 18,
        Punct::Plus => 19,
        Punct::Minus => 20,
        Punct::Shl => 21,
        Punct::Shr => 22,
        Punct::Less => 23,
        Punct::Greater => 24,
        Punct::LessEqual => 25,
        Punct::GreaterEqual => 26,
        Punct::EqualEqual => 27,
        Punct::NotEqual => 28,
        Punct::Amp => 29,
        Punct::Caret => 30,
        Punct::Pipe => 31,
        Punct::AndAnd => 32,
        Punct::OrOr => 33,
        Punct::Assign => 34,
        Punct::StarAssign => 35,
        Punct::SlashAssign => 36,
        Punct::PercentAssign => 37,
        Punct::PlusAssign => 38,
        Punct::MinusAssign => 39,
        Punct::ShlAssign => 40,
        Punct::ShrAssign => 41,
        Punct::AmpAssign => 42,
        Punct::CaretAssign => 43,
        Punct::PipeAssign => 44,
    }
}

fn is_word(w: Keyword, kind: &Kind) -> bool
    ensures { result ≡ spec.is_word w kind.now }
{
    match kind {
        Kind::Word(v) => word_code(*v) == word_code(w),
        _ => false,
    }
}

fn is_mark(m: Punct, kind: &Kind) -> bool
    ensures { result ≡ spec.is_mark m kind.now }
{
    match kind {
        Kind::Mark(n) => mark_code(*n) == mark_code(m),
        _ => false,
    }
}

/// Whether a token's kind is this word or mark.
pub fn is(kind: &Kind, sign: Sign) -> bool
    ensures { result ≡ spec.is kind.now sign }
{
    match sign {
        Sign::Word(w) => is_word(w, kind),
        Sign::Mark(m) => is_mark(m, kind),
    }
}

pub fn next_is(ts: &[Token], sign: Sign) -> bool
    ensures { result ≡ spec.next_is sign ts.now }
{
    if ts.is_empty() {
        return false;
    }
    is(&ts[0].kind, sign)
}

/// The place of the next token, where it is this one.
#[tactic(auto, unfolding(crate::specs::Tokens::expect))]
pub fn expect(ts: &[Token], sign: Sign) -> Read<Place>
    ensures { spec.Gives (λ x. (x.0, x.1.now)) result (spec.expect sign ts.now) }
{
    if !next_is(ts, sign) {
        return Err(fault_at(ts));
    }
    Ok((ts[0].place, &ts[1..]))
}

pub fn is_name(names: &TypeNames, kind: &Kind) -> bool
    ensures { result ≡ spec.is_name names.now kind.now }
{
    match kind {
        Kind::Name(text) => !names.has(text.as_slice()),
        _ => false,
    }
}

pub fn is_type(names: &TypeNames, kind: &Kind) -> bool
    ensures { result ≡ spec.is_type names.now kind.now }
{
    match kind {
        Kind::Name(text) => names.has(text.as_slice()),
        _ => false,
    }
}

/// The NAME that stands next.
pub fn take_name<'a>(alloc: Global, names: &TypeNames, ts: &'a [Token]) -> Read<'a, Name>
    ensures { spec.Gives (λ x. (x.0, x.1.now)) result (spec.take (spec.name_of names.now) ts.now) }
{
    if ts.is_empty() {
        return Err(fault_at(ts));
    }
    match &ts[0].kind {
        Kind::Name(text) => {
            if names.has(text.as_slice()) {
                return Err(fault_at(ts));
            }
            Ok((
                Name {
                    place: ts[0].place,
                    text: text.copy(alloc)?,
                },
                &ts[1..],
            ))
        }
        _ => Err(fault_at(ts)),
    }
}

/// The TYPENAME that stands next.
pub fn take_type<'a>(alloc: Global, names: &TypeNames, ts: &'a [Token]) -> Read<'a, Name>
    ensures { spec.Gives (λ x. (x.0, x.1.now)) result (spec.take (spec.type_of names.now) ts.now) }
{
    if ts.is_empty() {
        return Err(fault_at(ts));
    }
    match &ts[0].kind {
        Kind::Name(text) => {
            if !names.has(text.as_slice()) {
                return Err(fault_at(ts));
            }
            Ok((
                Name {
                    place: ts[0].place,
                    text: text.copy(alloc)?,
                },
                &ts[1..],
            ))
        }
        _ => Err(fault_at(ts)),
    }
}

/// The number that stands next.
pub fn take_number(ts: &[Token]) -> Read<Expr>
    ensures { spec.Gives (λ x. (x.0, x.1.now)) result (spec.take spec.number_of ts.now) }
{
    if ts.is_empty() {
        return Err(fault_at(ts));
    }
    match &ts[0].kind {
        Kind::Number {
            value,
            unsigned,
            long,
        } => {
            Ok((
                Expr::Number(
                    ts[0].place,
                    *value,
                    NumberType {
                        unsigned: *unsigned,
                        long: *long,
                    },
                ),
                &ts[1..],
            ))
        }
        _ => Err(fault_at(ts)),
    }
}

/// The character constant that stands next.
pub fn take_char(ts: &[Token]) -> Read<Expr>
    ensures { spec.Gives (λ x. (x.0, x.1.now)) result (spec.take spec.char_of ts.now) }
{
    if ts.is_empty() {
        return Err(fault_at(ts));
    }
    match &ts[0].kind {
        Kind::Char(c) => Ok((Expr::Char(ts[0].place, *c), &ts[1..])),
        _ => Err(fault_at(ts)),
    }
}

/// The string that stands next.
pub fn take_string(alloc: Global, ts: &[Token]) -> Read<(Place, Bytes)>
    ensures { spec.Gives (λ x. (x.0, x.1.now)) result (spec.take spec.string_of ts.now) }
{
    if ts.is_empty() {
        return Err(fault_at(ts));
    }
    match &ts[0].kind {
        Kind::Str(bytes) => Ok(((ts[0].place, bytes.try_clone(alloc)?), &ts[1..])),
        _ => Err(fault_at(ts)),
    }
}

/// The include that stands next.
pub fn take_include(ts: &[Token]) -> Read<(Place, Header)>
    ensures { spec.Gives (λ x. (x.0, x.1.now)) result (spec.take spec.include_of ts.now) }
{
    if ts.is_empty() {
        return Err(fault_at(ts));
    }
    match &ts[0].kind {
        Kind::Include(header) => Ok(((ts[0].place, *header), &ts[1..])),
        _ => Err(fault_at(ts)),
    }
}

pub fn next_is_name(names: &TypeNames, ts: &[Token]) -> bool
    ensures { result ≡ spec.next_is_name names.now ts.now }
{
    if ts.is_empty() {
        return false;
    }
    is_name(names, &ts[0].kind)
}

pub fn has_number(ts: &[Token]) -> bool
    ensures { result ≡ spec.has spec.number_of ts.now }
{
    if ts.is_empty() {
        return false;
    }
    match &ts[0].kind {
        Kind::Number { .. } => true,
        _ => false,
    }
}

pub fn has_char(ts: &[Token]) -> bool
    ensures { result ≡ spec.has spec.char_of ts.now }
{
    if ts.is_empty() {
        return false;
    }
    match &ts[0].kind {
        Kind::Char(_) => true,
        _ => false,
    }
}

pub fn has_string(ts: &[Token]) -> bool
    ensures { result ≡ spec.has spec.string_of ts.now }
{
    if ts.is_empty() {
        return false;
    }
    match &ts[0].kind {
        Kind::Str(_) => true,
        _ => false,
    }
}

pub fn has_include(ts: &[Token]) -> bool
    ensures { result ≡ spec.has spec.include_of ts.now }
{
    if ts.is_empty() {
        return false;
    }
    match &ts[0].kind {
        Kind::Include(_) => true,
        _ => false,
    }
}
