//! Operators, and the words of specifiers.

ghost use Rattle.std.specs.Prelude.{◌≡◌};
ghost use Rattle.c_grammar.specs.Tokens as spec;

use crate::tokens::{Read, fault_at};
use c_ast::{AssignOp, BinOp, SpecWord, StepOp, UnOp};
use c_lex::token::{Keyword, Kind, Punct, Token};
use cm_base::Place;

pub fn bin_op(m: Punct) -> Option<(usize, BinOp)>
    ensures { result ≡ spec.bin_op m }
{
    match m {
        Punct::Star => Some((0, BinOp::Mul)),
        Punct::Slash => Some((0, BinOp::Div)),
        Punct::Percent => Some((0, BinOp::Rem)),
        Punct::Plus => Some((1, BinOp::Add)),
        Punct::Minus => Some((1, BinOp::Sub)),
        Punct::Shl => Some((2, BinOp::Shl)),
        Punct::Shr => Some((2, BinOp::Shr)),
        Punct::Less => Some((3, BinOp::Less)),
        Punct::Greater => Some((3, BinOp::Greater)),
        Punct::LessEqual => Some((3, BinOp::LessEqual)),
        Punct::GreaterEqual => Some((3, BinOp::GreaterEqual)),
        Punct::EqualEqual => Some((4, BinOp::Equal)),
        Punct::NotEqual => Some((4, BinOp::NotEqual)),
        Punct::Amp => Some((5, BinOp::BitAnd)),
        Punct::Caret => Some((6, BinOp::BitXor)),
        Punct::Pipe => Some((7, BinOp::BitOr)),
        Punct::AndAnd => Some((8, BinOp::AndThen)),
        Punct::OrOr => Some((9, BinOp::OrElse)),
        _ => None,
    }
}

pub fn assign_op(m: Punct) -> Option<AssignOp>
    ensures { result ≡ spec.assign_op m }
{
    match m {
        Punct::Assign => Some(AssignOp::Set),
        Punct::StarAssign => Some(AssignOp::Mul),
        Punct::SlashAssign => Some(AssignOp::Div),
        Punct::PercentAssign => Some(AssignOp::Rem),
        Punct::PlusAssign => Some(AssignOp::Add),
        Punct::MinusAssign => Some(AssignOp::Sub),
        Punct::ShlAssign => Some(AssignOp::Shl),
        Punct::ShrAssign => Some(AssignOp::Shr),
        Punct::AmpAssign => Some(AssignOp::And),
        Punct::CaretAssign => Some(AssignOp::Xor),
        Punct::PipeAssign => Some(AssignOp::Or),
        _ => None,
    }
}

pub fn un_op(m: Punct) -> Option<UnOp>
    ensures { result ≡ spec.un_op m }
{
    match m {
        Punct::Amp => Some(UnOp::Address),
        Punct::Star => Some(UnOp::Deref),
        Punct::Plus => Some(UnOp::Plus),
        Punct::Minus => Some(UnOp::Minus),
        Punct::Tilde => Some(UnOp::Complement),
        Punct::Bang => Some(UnOp::Not),
        _ => None,
    }
}

pub fn step_op(m: Punct) -> Option<StepOp>
    ensures { result ≡ spec.step_op m }
{
    match m {
        Punct::PlusPlus => Some(StepOp::Increment),
        Punct::MinusMinus => Some(StepOp::Decrement),
        _ => None,
    }
}

pub fn spec_word(w: Keyword) -> Option<SpecWord>
    ensures { result ≡ spec.spec_word w }
{
    match w {
        Keyword::Typedef => Some(SpecWord::Typedef),
        Keyword::Extern => Some(SpecWord::Extern),
        Keyword::Static => Some(SpecWord::Static),
        Keyword::Inline => Some(SpecWord::Inline),
        Keyword::Const => Some(SpecWord::Const),
        Keyword::Volatile => Some(SpecWord::Volatile),
        Keyword::Void => Some(SpecWord::Void),
        Keyword::Char => Some(SpecWord::Char),
        Keyword::Short => Some(SpecWord::Short),
        Keyword::Int => Some(SpecWord::Int),
        Keyword::Long => Some(SpecWord::Long),
        Keyword::Signed => Some(SpecWord::Signed),
        Keyword::Unsigned => Some(SpecWord::Unsigned),
        _ => None,
    }
}

/// The operator, where it is one of this level.
fn op_at(level: usize, m: Punct) -> Option<BinOp>
    ensures { result ≡ spec.op_at level m }
{
    match bin_op(m) {
        None => None,
        Some((l, op)) => { if l == level { Some(op) } else { None } }
    }
}

fn assign_op_of(token: &Token) -> Option<(Place, AssignOp)>
    ensures { result ≡ spec.assign_op_of token.now }
{
    match &token.kind {
        Kind::Mark(x) => match assign_op(*x) {
            Some(op) => Some((token.place, op)),
            None => None,
        },
        _ => None,
    }
}

/// The assigning operator that stands next.
pub fn take_assign_op(ts: &[Token]) -> Read<(Place, AssignOp)>
    ensures { spec.Gives (λ x. (x.0, x.1.now)) result (spec.take spec.assign_op_of ts.now) }
{
    if ts.is_empty() {
        return Err(fault_at(ts));
    }
    match assign_op_of(&ts[0]) {
        None => Err(fault_at(ts)),
        Some(op) => Ok((op, &ts[1..])),
    }
}

pub fn un_op_of(token: &Token) -> Option<(Place, UnOp)>
    ensures { result ≡ spec.un_op_of token.now }
{
    match &token.kind {
        Kind::Mark(x) => match un_op(*x) {
            Some(op) => Some((token.place, op)),
            None => None,
        },
        _ => None,
    }
}

/// The prefix operator that stands next.
pub fn take_un_op(ts: &[Token]) -> Read<(Place, UnOp)>
    ensures { spec.Gives (λ x. (x.0, x.1.now)) result (spec.take spec.un_op_of ts.now) }
{
    if ts.is_empty() {
        return Err(fault_at(ts));
    }
    match un_op_of(&ts[0]) {
        None => Err(fault_at(ts)),
        Some(op) => Ok((op, &ts[1..])),
    }
}

pub fn step_op_of(token: &Token) -> Option<(Place, StepOp)>
    ensures { result ≡ spec.step_op_of token.now }
{
    match &token.kind {
        Kind::Mark(x) => match step_op(*x) {
            Some(op) => Some((token.place, op)),
            None => None,
        },
        _ => None,
    }
}

/// The `++` or `--` that stands next.
pub fn take_step_op(ts: &[Token]) -> Read<(Place, StepOp)>
    ensures { spec.Gives (λ x. (x.0, x.1.now)) result (spec.take spec.step_op_of ts.now) }
{
    if ts.is_empty() {
        return Err(fault_at(ts));
    }
    match step_op_of(&ts[0]) {
        None => Err(fault_at(ts)),
        Some(op) => Ok((op, &ts[1..])),
    }
}

pub fn spec_word_of(token: &Token) -> Option<(Place, SpecWord)>
    ensures { result ≡ spec.spec_word_of token.now }
{
    match &token.kind {
        Kind::Word(x) => match spec_word(*x) {
            Some(op) => Some((token.place, op)),
            None => None,
        },
        _ => None,
    }
}

/// The word of specifiers that stands next.
pub fn take_spec_word(ts: &[Token]) -> Read<(Place, SpecWord)>
    ensures { spec.Gives (λ x. (x.0, x.1.now)) result (spec.take spec.spec_word_of ts.now) }
{
    if ts.is_empty() {
        return Err(fault_at(ts));
    }
    match spec_word_of(&ts[0]) {
        None => Err(fault_at(ts)),
        Some(op) => Ok((op, &ts[1..])),
    }
}

fn op_of(level: usize, token: &Token) -> Option<(Place, BinOp)>
    ensures { result ≡ spec.op_of level token.now }
{
    match &token.kind {
        Kind::Mark(x) => match op_at(level, *x) {
            Some(op) => Some((token.place, op)),
            None => None,
        },
        _ => None,
    }
}

/// The operator of this level that stands next.
pub fn take_op(level: usize, ts: &[Token]) -> Read<(Place, BinOp)>
    ensures { spec.Gives (λ x. (x.0, x.1.now)) result (spec.take (spec.op_of level) ts.now) }
{
    if ts.is_empty() {
        return Err(fault_at(ts));
    }
    match op_of(level, &ts[0]) {
        None => Err(fault_at(ts)),
        Some(op) => Ok((op, &ts[1..])),
    }
}

pub fn has_assign_op(ts: &[Token]) -> bool
    ensures { result ≡ spec.has spec.assign_op_of ts.now }
{
    if ts.is_empty() {
        return false;
    }
    assign_op_of(&ts[0]).is_some()
}

pub fn has_un_op(ts: &[Token]) -> bool
    ensures { result ≡ spec.has spec.un_op_of ts.now }
{
    if ts.is_empty() {
        return false;
    }
    un_op_of(&ts[0]).is_some()
}

pub fn has_step_op(ts: &[Token]) -> bool
    ensures { result ≡ spec.has spec.step_op_of ts.now }
{
    if ts.is_empty() {
        return false;
    }
    step_op_of(&ts[0]).is_some()
}

pub fn has_spec_word(ts: &[Token]) -> bool
    ensures { result ≡ spec.has spec.spec_word_of ts.now }
{
    if ts.is_empty() {
        return false;
    }
    spec_word_of(&ts[0]).is_some()
}

pub fn has_op(level: usize, ts: &[Token]) -> bool
    ensures { result ≡ spec.has (spec.op_of level) ts.now }
{
    if ts.is_empty() {
        return false;
    }
    op_of(level, &ts[0]).is_some()
}
