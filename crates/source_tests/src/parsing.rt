//! Texts and what they are parsed as. The answers are worked out from the rules of the language.

use c_ast::{
    Access, Decl, EnumSpec, Expr, External, First, ForHead, Item, NumberType, Spec, Stmt,
    StructSpec, Unit, first_place, initial_place, specs_place,
};
use c_lex::{MAX_SOURCE, lex};
use c_parse::{SyntaxFault, parse};
use std::alloc::{AllocError, Global};
use std::test::Fail;

/// The answer for a text that has tokens.
fn parsed(alloc: Global, text: &str) -> Result<Unit, SyntaxFault> {
    let bytes = text.as_bytes();
    let bytes = &bytes[..bytes.len().min(MAX_SOURCE)];
    match lex(alloc, 0, bytes) {
        Ok(tokens) => parse(alloc, tokens.as_slice()),
        Err(_fault) => Err(SyntaxFault::NoMemory),
    }
}

/// Whether the text is a unit of so many parts.
fn has(alloc: Global, text: &str, parts: usize) -> bool {
    match parsed(alloc, text) {
        Ok(unit) => unit.parts.len() == parts,
        Err(_fault) => false,
    }
}

/// Whether the text has this fault in its first line.
fn faults(alloc: Global, text: &str, code: u8, col: u32) -> bool {
    match parsed(alloc, text) {
        Err(SyntaxFault::At { code: found, place }) => found == code
            && place.line == 1
            && place.col == col,
        _ => false,
    }
}

#[test]
fn declarations(rt: HostRuntime) -> Result<(), Fail> {
    let alloc = rt.alloc();
    assert!(rt; has(alloc, "", 0));
    assert!(rt;
        has(
            alloc,
            "static inline unsigned long f(void); int; int a = 1, b[2] = { 1, { 2 }, };",
            3
        )
    );
    assert!(rt;
        has(
            alloc,
            "struct s { int a, *b; char c[3]; } x; struct s; enum e { A, B = 2, }; enum e y;",
            4
        )
    );
    assert!(rt;
        has(
            alloc,
            "__attribute__((a, b(\"c\"))) int * const __attribute__((d)) e __attribute__((f)) = 0;",
            1
        )
    );
    assert!(rt; has(alloc, "int (*f)(int);", 1));
    assert!(rt;
        has(
            alloc,
            "void f(int (*)(int), int (x), int ([3]), int (int), int (), int *);",
            1
        )
    );
    assert!(rt; has(alloc, "int * const volatile *p; const int q;", 2));
    assert!(rt; faults(alloc, "int const p, (const q);", 10, 15));
    assert!(rt; has(alloc, "typedef int t; t a; void f(t (t));", 3));
    assert!(rt; has(alloc, "typedef int t, u = (t)[1];", 1));
    assert!(rt; faults(alloc, "typedef int t; int u = (t)[1];", 10, 27));
    assert!(rt; faults(alloc, "int f( { }", 10, 8));
    assert!(rt; faults(alloc, "int a", 10, 5));
    Ok(())
}

#[test]
fn statements(rt: HostRuntime) -> Result<(), Fail> {
    let alloc = rt.alloc();
    assert!(rt;
        has(
            alloc,
            "void f(void) { ; { } int a; a; return; return a; }",
            1
        )
    );
    assert!(rt;
        has(
            alloc,
            "void f(int a) { while (a) { break; continue; } do a; while (a); if (a) ; else ; }",
            1
        )
    );
    assert!(rt;
        has(
            alloc,
            "void f(int a) { for (int i = 0; i; i++) ; for (a = 0; ; ) ; for (;;) ; }",
            1
        )
    );
    assert!(rt;
        has(
            alloc,
            "void f(int a) { switch (a) { case 1: a; default: int b; } }",
            1
        )
    );
    assert!(rt; faults(alloc, "void f(int a) { case 1: a; }", 10, 17));
    assert!(rt; faults(alloc, "void f(int a) { x: a; }", 10, 18));
    assert!(rt; faults(alloc, "void f(int a) { else ; }", 10, 17));
    Ok(())
}

#[test]
fn expressions(rt: HostRuntime) -> Result<(), Fail> {
    let alloc = rt.alloc();
    assert!(rt;
        has(
            alloc,
            "int a = f(1, 2)[3].b->c++--, d = ++*&-~!+e, g = \"s\"[0] + 'c';",
            1
        )
    );
    assert!(rt;
        has(
            alloc,
            "int a = b * c / d % e + f - g << h >> i < j > k <= l >= m == n != o & p ^ q | r && s || t;",
            1
        )
    );
    assert!(rt; has(alloc, "int a = b ? c, d : e ? f : g, h = i = j += k;", 1));
    assert!(rt;
        has(
            alloc,
            "typedef int t; int a = (t)b + (c) - sizeof (t) - sizeof (a) - sizeof a++;",
            2
        )
    );
    assert!(rt; has(alloc, "typedef int t; int a = (t (*)(t))b + (int [3])c;", 2));
    assert!(rt; faults(alloc, "typedef int t; int a = (t);", 10, 27));
    assert!(rt; faults(alloc, "int a = b c;", 10, 11));
    Ok(())
}

/// The first statement of the first function.
fn first_stmt(unit: &Unit) -> Option<&Stmt> {
    match unit.parts.get(0) {
        Some(External::Function(function)) => match function.get().body.items.get(0) {
            Some(Item::Stmt(stmt)) => Some(stmt),
            _ => None,
        },
        _ => None,
    }
}

/// Whether an `if` without `else` holds one that has it.
fn has_inner_else(stmt: &Stmt) -> bool {
    match stmt {
        Stmt::If(_, _, inner, None) => matches!(inner.get(), Stmt::If(_, _, _, Some(_))),
        _ => false,
    }
}

/// Whether an expression is a name and two operands after it.
fn is_flat(stmt: &Stmt) -> bool {
    match stmt {
        Stmt::Expr(Expr::Binary(first, more)) => matches!(first.get(), Expr::Name(_))
            && more.len() == 2,
        _ => false,
    }
}

#[test]
fn trees(rt: HostRuntime) -> Result<(), Fail> {
    let alloc = rt.alloc();
    let dangling = parsed(alloc, "void f(int a) { if (a) if (a) ; else ; }")?;
    assert!(rt; first_stmt(&dangling).is_some_and(has_inner_else));
    let flat = parsed(alloc, "void f(int a) { a - a - a; }")?;
    assert!(rt; first_stmt(&flat).is_some_and(is_flat));
    Ok(())
}

/// The column of what is done to an expression.
fn access_col(access: &Access) -> u32 {
    match access {
        Access::Index(place, _) => place.col,
        Access::Call(place, _) => place.col,
        Access::Member(place, _) => place.col,
        Access::Arrow(place, _) => place.col,
        Access::Step(place, _) => place.col,
    }
}

/// The columns of the first two operators of an expression, 0 where it has fewer.
fn operators(expr: &Expr) -> (u32, u32) {
    match expr {
        Expr::Binary(_, more) => (
            more.get(0).map_or(0, |link| link.place.col),
            more.get(1).map_or(0, |link| link.place.col),
        ),
        Expr::Comma(_, more) => (
            more.get(0).map_or(0, |next| next.place.col),
            more.get(1).map_or(0, |next| next.place.col),
        ),
        Expr::Postfix(_, more) => (
            more.get(0).map_or(0, access_col),
            more.get(1).map_or(0, access_col),
        ),
        Expr::Step(place, _, _) => (place.col, 0),
        Expr::Unary(place, _, _) => (place.col, 0),
        Expr::Choice(place, _, _, _) => (place.col, 0),
        Expr::Assign(place, _, _, _) => (place.col, 0),
        _ => (0, 0),
    }
}

/// Whether the expression of the first statement begins at column 16 and has its operators at these columns.
fn placed(alloc: Global, text: &str, first: u32, second: u32) -> bool {
    match parsed(alloc, text) {
        Ok(unit) => match first_stmt(&unit) {
            Some(Stmt::Expr(expr)) => first_place(expr).col == 16
                && operators(expr) == (first, second),
            _ => false,
        },
        Err(_fault) => false,
    }
}

#[test]
fn places_of_operators(rt: HostRuntime) -> Result<(), Fail> {
    let alloc = rt.alloc();
    assert!(rt; placed(alloc, "void f(void) { a - b - c; }", 18, 22));
    assert!(rt; placed(alloc, "void f(void) { a , bc, d; }", 18, 22));
    assert!(rt; placed(alloc, "void f(void) { a [1] . b; }", 18, 22));
    assert!(rt; placed(alloc, "void f(void) { a (1)->b; }", 18, 21));
    assert!(rt; placed(alloc, "void f(void) { a ++ --; }", 18, 21));
    assert!(rt; placed(alloc, "void f(void) { a = b = c; }", 18, 0));
    assert!(rt; placed(alloc, "void f(void) { a + b ? c : d; }", 22, 0));
    assert!(rt; placed(alloc, "void f(void) { -a * b; }", 19, 0));
    assert!(rt; placed(alloc, "void f(void) { (int)a + b; }", 23, 0));
    assert!(rt; placed(alloc, "void f(void) { sizeof (int) + b; }", 29, 0));
    assert!(rt; placed(alloc, "void f(void) { ++ a; }", 16, 0));
    assert!(rt; placed(alloc, "void f(void) { (a); }", 0, 0));
    assert!(rt; placed(alloc, "void f(void) { \"s\", 1; }", 19, 0));
    Ok(())
}

/// The columns of the three parts between the parentheses of a `for`.
fn head_cols(head: &ForHead) -> (u32, u32, u32) {
    let first = match head.first.get() {
        First::Expr(Some(expr)) => first_place(expr.get()).col,
        _ => 0,
    };
    let test = head
        .test
        .as_ref()
        .map_or(0, |expr| first_place(expr.get()).col);
    let step = head
        .step
        .as_ref()
        .map_or(0, |expr| first_place(expr.get()).col);
    (first, test, step)
}

/// The first declaration.
fn first_decl(unit: &Unit) -> Option<&Decl> {
    match unit.parts.get(0) {
        Some(External::Decl(decl)) => Some(decl),
        _ => None,
    }
}

/// The columns of a declaration's specifiers and of its first initialiser, 0 where there is none.
fn decl_cols(decl: &Decl) -> (u32, u32) {
    let specs = specs_place(decl.specs.as_slice()).map_or(0, |place| place.col);
    let value = match decl.inits.get(0) {
        Some(init) => match &init.value {
            Some(value) => initial_place(value.get()).col,
            None => 0,
        },
        None => 0,
    };
    (specs, value)
}

/// The columns of a specifier's word and of its tag, 0 where there is none.
fn tag_cols(spec: &Spec) -> (u32, u32) {
    match spec {
        Spec::Struct(found) => match found.get() {
            StructSpec::Body(place, tag, _) => (
                place.col,
                tag.as_ref().map_or(0, |name| name.place.col),
            ),
            StructSpec::Tag(place, name) => (place.col, name.place.col),
        },
        Spec::Enum(found) => match found.get() {
            EnumSpec::Body(place, tag, _) => (
                place.col,
                tag.as_ref().map_or(0, |name| name.place.col),
            ),
            EnumSpec::Tag(place, name) => (place.col, name.place.col),
        },
        _ => (0, 0),
    }
}

/// Whether the specifiers and the first initialiser of the first declaration stand at these columns, and the word and the tag
/// of its first specifier.
fn declared(alloc: Global, text: &str, parts: (u32, u32), tag: (u32, u32)) -> bool {
    match parsed(alloc, text) {
        Ok(unit) => match first_decl(&unit) {
            Some(decl) => decl_cols(decl) == parts
                && decl.specs.get(0).map_or((0, 0), tag_cols) == tag,
            None => false,
        },
        Err(_fault) => false,
    }
}

#[test]
fn places_of_parts(rt: HostRuntime) -> Result<(), Fail> {
    let alloc = rt.alloc();
    assert!(rt; declared(alloc, " int a = b + 1;", (2, 10), (0, 0)));
    assert!(rt; declared(alloc, " const int a[1] = { 1 };", (2, 19), (0, 0)));
    assert!(rt; declared(alloc, " struct { int x; } a;", (2, 0), (2, 0)));
    assert!(rt; declared(alloc, " struct s { int x; } a;", (2, 0), (2, 9)));
    assert!(rt; declared(alloc, " struct s a = { 1 };", (2, 15), (2, 9)));
    assert!(rt; declared(alloc, " enum { A } a;", (2, 0), (2, 0)));
    assert!(rt; declared(alloc, " enum e a = 1;", (2, 13), (2, 7)));
    let turns = parsed(alloc, "void f(void) { for (a = 1; a < 2; a++) ; }")?;
    match first_stmt(&turns) {
        Some(Stmt::For(place, head, _)) => {
            assert!(rt; place.col == 16);
            assert!(rt; head_cols(head) == (21, 28, 35));
        }
        _ => assert!(rt; false),
    }
    let number = parsed(alloc, "void f(void) { 7ul; }")?;
    match first_stmt(&number) {
        Some(Stmt::Expr(Expr::Number(place, value, number_type))) => {
            let expected = NumberType {
                unsigned: true,
                long: true,
            };
            assert!(rt; place.col == 16 && *value == 7 && *number_type == expected);
        }
        _ => assert!(rt; false),
    }
    Ok(())
}

/// A number in so many pairs of parentheses.
fn nested(alloc: Global, pairs: usize) -> Result<String, AllocError> {
    let mut text = String::new(alloc);
    text.push_str("int a = ")?;
    for _ in 0..pairs {
        text.push_str("(")?;
    }
    text.push_str("1")?;
    for _ in 0..pairs {
        text.push_str(")")?;
    }
    text.push_str(";")?;
    Ok(text)
}

#[test]
fn nesting(rt: HostRuntime) -> Result<(), Fail> {
    let alloc = rt.alloc();
    let most = nested(alloc, 65)?;
    assert!(rt; has(alloc, most.as_str(), 1));
    let too_many = nested(alloc, 66)?;
    assert!(rt; faults(alloc, too_many.as_str(), 11, 75));
    Ok(())
}

/// A service that keeps a key, and lets its callers verify a tag.
const KEY_SERVICE: &str = "#include <stdint.h>
#include <arm_cmse.h>
typedef void __attribute__((cmse_nonsecure_call)) note_fn(uint32_t);
enum { WORDS = 4, TRIES = 3 };
uint32_t key[WORDS] __attribute__((section(\".noinit\")));
static note_fn *listener;
static uint32_t failures;
static uint32_t mix(uint32_t h, uint32_t w)
{
    h = (h ^ w) * 16777619u;
    return h ^ (h >> 15);
}
static uint32_t tag_of(const uint32_t *text, uint32_t n)
{
    uint32_t h = 2166136261u;
    for (uint32_t i = 0; i < WORDS; i++) h = mix(h, key[i]);
    for (uint32_t i = 0; i < n; i++) h = mix(h, text[i]);
    return h;
}
void __attribute__((cmse_nonsecure_entry)) set_listener(note_fn *f)
{
    listener = cmse_nsfptr_create(f);
}
int __attribute__((cmse_nonsecure_entry)) verify(const uint32_t *text, uint32_t n, uint32_t tag)
{
    uint32_t copy[16];
    if (failures >= TRIES) return -2;
    if (n > 16) return -1;
    text = cmse_check_address_range((void *)text, n * sizeof(uint32_t),
                                    CMSE_NONSECURE | CMSE_MPU_READ);
    if (text == NULL) return -1;
    for (uint32_t i = 0; i < n; i++) copy[i] = text[i];
    if (tag_of(copy, n) == tag) { failures = 0; return 1; }
    failures++;
    if (listener != NULL) listener(failures);
    return 0;
}
";

#[test]
fn key_service(rt: HostRuntime) -> Result<(), Fail> {
    assert!(rt; has(rt.alloc(), KEY_SERVICE, 11));
    Ok(())
}
