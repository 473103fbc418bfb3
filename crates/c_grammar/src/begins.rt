//! What the next tokens begin.

ghost use Rattle.std.specs.Prelude.{◌≡◌};
ghost use Rattle.c_grammar.specs.Tokens as spec;

use crate::names::TypeNames;
use crate::operators::{spec_word_of, step_op_of, un_op_of};
use crate::tokens::{Sign, is, is_name, is_type, next_is};
use c_lex::token::{Keyword, Kind, Punct, Token};

fn spec_token(names: &TypeNames, token: &Token) -> bool
    ensures { result ≡ spec.spec_token names.now token.now }
{
    spec_word_of(token).is_some()
        || is(&token.kind, Sign::Word(Keyword::Struct))
        || is(&token.kind, Sign::Word(Keyword::Enum))
        || is(&token.kind, Sign::Word(Keyword::Attribute))
        || is_type(names, &token.kind)
}

/// Whether a specifier stands next.
pub fn begins_spec(names: &TypeNames, ts: &[Token]) -> bool
    ensures { result ≡ spec.begins_spec names.now ts.now }
{
    if ts.is_empty() {
        return false;
    }
    spec_token(names, &ts[0])
}

fn is_constant(kind: &Kind) -> bool
    ensures { result ≡ spec.is_constant kind.now }
{
    match kind {
        Kind::Number { .. } | Kind::Char(_) | Kind::Str(_) => true,
        _ => false,
    }
}

fn expr_token(names: &TypeNames, token: &Token) -> bool
    ensures { result ≡ spec.expr_token names.now token.now }
{
    is_name(names, &token.kind)
        || is_constant(&token.kind)
        || is(&token.kind, Sign::Mark(Punct::ParenOpen))
        || un_op_of(token).is_some()
        || step_op_of(token).is_some()
        || is(&token.kind, Sign::Word(Keyword::Sizeof))
}

/// Whether what begins an expression stands next.
pub fn begins_expr(names: &TypeNames, ts: &[Token]) -> bool
    ensures { result ≡ spec.begins_expr names.now ts.now }
{
    if ts.is_empty() {
        return false;
    }
    expr_token(names, &ts[0])
}

fn step_token(token: &Token) -> bool
    ensures { result ≡ spec.step_token token.now }
{
    step_op_of(token).is_some() || is(&token.kind, Sign::Word(Keyword::Sizeof))
}

/// Whether `++`, `--` or `sizeof` stands next.
pub fn begins_step(ts: &[Token]) -> bool
    ensures { result ≡ spec.begins_step ts.now }
{
    if ts.is_empty() {
        return false;
    }
    step_token(&ts[0])
}

fn access_token(token: &Token) -> bool
    ensures { result ≡ spec.access_token token.now }
{
    is(&token.kind, Sign::Mark(Punct::BracketOpen))
        || is(&token.kind, Sign::Mark(Punct::ParenOpen))
        || is(&token.kind, Sign::Mark(Punct::Dot))
        || is(&token.kind, Sign::Mark(Punct::Arrow))
        || step_op_of(token).is_some()
}

/// Whether what goes on a primary stands next.
pub fn begins_access(ts: &[Token]) -> bool
    ensures { result ≡ spec.begins_access ts.now }
{
    if ts.is_empty() {
        return false;
    }
    access_token(&ts[0])
}

fn suffix_token(token: &Token) -> bool
    ensures { result ≡ spec.suffix_token token.now }
{
    is(&token.kind, Sign::Mark(Punct::BracketOpen)) || is(&token.kind, Sign::Mark(Punct::ParenOpen))
}

/// Whether a suffix of a declarator stands next.
pub fn begins_suffix(ts: &[Token]) -> bool
    ensures { result ≡ spec.begins_suffix ts.now }
{
    if ts.is_empty() {
        return false;
    }
    suffix_token(&ts[0])
}

fn star_token(token: &Token) -> bool
    ensures { result ≡ spec.star_token token.now }
{
    is(&token.kind, Sign::Mark(Punct::Star))
        || is(&token.kind, Sign::Word(Keyword::Const))
        || is(&token.kind, Sign::Word(Keyword::Volatile))
        || is(&token.kind, Sign::Word(Keyword::Attribute))
}

/// Whether what stands after the first star of a declarator stands next.
pub fn begins_star(ts: &[Token]) -> bool
    ensures { result ≡ spec.begins_star ts.now }
{
    if ts.is_empty() {
        return false;
    }
    star_token(&ts[0])
}

fn label_token(token: &Token) -> bool
    ensures { result ≡ spec.label_token token.now }
{
    is(&token.kind, Sign::Word(Keyword::Case)) || is(&token.kind, Sign::Word(Keyword::Default))
}

/// Whether a label stands next.
pub fn begins_label(ts: &[Token]) -> bool
    ensures { result ≡ spec.begins_label ts.now }
{
    if ts.is_empty() {
        return false;
    }
    label_token(&ts[0])
}

fn group_token(token: &Token) -> bool
    ensures { result ≡ spec.group_token token.now }
{
    is(&token.kind, Sign::Mark(Punct::Star))
        || is(&token.kind, Sign::Mark(Punct::ParenOpen))
        || is(&token.kind, Sign::Mark(Punct::BracketOpen))
        || is(&token.kind, Sign::Word(Keyword::Attribute))
}

/// Whether what begins a declarator without a name stands next.
pub fn begins_abstract(ts: &[Token]) -> bool
    ensures { result ≡ spec.begins_abstract ts.now }
{
    if ts.is_empty() {
        return false;
    }
    group_token(&ts[0])
}

/// Whether what begins a declarator with or without a name stands next.
pub fn begins_either(names: &TypeNames, ts: &[Token]) -> bool
    ensures { result ≡ spec.begins_either names.now ts.now }
{
    if ts.is_empty() {
        return false;
    }
    group_token(&ts[0]) || is_name(names, &ts[0].kind)
}

fn declarator_token(names: &TypeNames, token: &Token) -> bool
    ensures { result ≡ spec.declarator_token names.now token.now }
{
    is_name(names, &token.kind)
        || is(&token.kind, Sign::Mark(Punct::ParenOpen))
        || is(&token.kind, Sign::Mark(Punct::Star))
        || is(&token.kind, Sign::Word(Keyword::Attribute))
}

/// Whether what begins a declarator stands next.
pub fn begins_declarator(names: &TypeNames, ts: &[Token]) -> bool
    ensures { result ≡ spec.begins_declarator names.now ts.now }
{
    if ts.is_empty() {
        return false;
    }
    declarator_token(names, &ts[0])
}

fn initial_token(names: &TypeNames, token: &Token) -> bool
    ensures { result ≡ spec.initial_token names.now token.now }
{
    is(&token.kind, Sign::Mark(Punct::BraceOpen)) || expr_token(names, token)
}

/// Whether what begins an initialiser stands next.
pub fn begins_initial(names: &TypeNames, ts: &[Token]) -> bool
    ensures { result ≡ spec.begins_initial names.now ts.now }
{
    if ts.is_empty() {
        return false;
    }
    initial_token(names, &ts[0])
}

fn stmt_word(w: Keyword) -> bool
    ensures { result ≡ spec.stmt_word w }
{
    match w {
        Keyword::Return
        | Keyword::Break
        | Keyword::Continue
        | Keyword::If
        | Keyword::While
        | Keyword::Do
        | Keyword::For
        | Keyword::Switch => true,
        _ => false,
    }
}

fn is_stmt_word(kind: &Kind) -> bool
    ensures { result ≡ spec.is_stmt_word kind.now }
{
    match kind {
        Kind::Word(w) => stmt_word(*w),
        _ => false,
    }
}

fn stmt_token(names: &TypeNames, token: &Token) -> bool
    ensures { result ≡ spec.stmt_token names.now token.now }
{
    is(&token.kind, Sign::Mark(Punct::BraceOpen))
        || is(&token.kind, Sign::Mark(Punct::Semicolon))
        || is_stmt_word(&token.kind)
        || expr_token(names, token)
}

/// Whether what begins a statement stands next.
pub fn begins_stmt(names: &TypeNames, ts: &[Token]) -> bool
    ensures { result ≡ spec.begins_stmt names.now ts.now }
{
    if ts.is_empty() {
        return false;
    }
    stmt_token(names, &ts[0])
}

/// Whether `(` and a specifier stands next.
pub fn type_follows(names: &TypeNames, ts: &[Token]) -> bool
    ensures { result ≡ spec.type_follows names.now ts.now }
{
    next_is(ts, Sign::Mark(Punct::ParenOpen)) && begins_spec(names, &ts[1..])
}

/// Whether `,` without `}` after it stands next.
pub fn comma_more(ts: &[Token]) -> bool
    ensures { result ≡ spec.comma_more ts.now }
{
    next_is(ts, Sign::Mark(Punct::Comma)) && !next_is(&ts[1..], Sign::Mark(Punct::BraceClose))
}

/// Whether `void` and `)` stands next.
pub fn void_params(ts: &[Token]) -> bool
    ensures { result ≡ spec.void_params ts.now }
{
    next_is(ts, Sign::Word(Keyword::Void)) && next_is(&ts[1..], Sign::Mark(Punct::ParenClose))
}

/// Whether `(` that groups a declarator without a name stands next.
pub fn opens_group(ts: &[Token]) -> bool
    ensures { result ≡ spec.opens_group ts.now }
{
    next_is(ts, Sign::Mark(Punct::ParenOpen)) && begins_abstract(&ts[1..])
}

/// Whether `(` that groups a declarator stands next.
pub fn opens_either(names: &TypeNames, ts: &[Token]) -> bool
    ensures { result ≡ spec.opens_either names.now ts.now }
{
    next_is(ts, Sign::Mark(Punct::ParenOpen)) && begins_either(names, &ts[1..])
}
