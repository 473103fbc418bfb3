//! Lookups and declarations.

ghost use Rattle.std.specs.Prelude.{◌<◌, ◌^◌, length};

use c_ast::Name;
use c_lex::lex;
use c_lex::token::{Header, Kind};
use c_names::Ident;
use c_rows::TypeFault;
use c_scope::{
    Layout, Linkage, Scope, Tables, begin_struct, close_block, declare_local, declare_object,
    end_struct, include, member_of, named, open_block, struct_use, type_named,
};
use c_tree::ExprKind;
use c_types::{Arith, CType, type_size};
use cm_base::{NoMemory, Place};
use std::alloc::Global;
use std::test::Fail;

fn place(col: u32) -> Place {
    Place {
        unit: 0,
        line: 1,
        col,
    }
}

/// The name that a text of one name is.
fn ident(alloc: Global, text: &[u8]) -> Result<Ident, NoMemory>
    requires { length text.now < 2 ^ 32 }
{
    match lex(alloc, 0, text) {
        Ok(tokens) => match tokens.get(0) {
            Some(token) => match &token.kind {
                Kind::Name(name) => name.copy(alloc),
                _ => Err(NoMemory),
            },
            None => Err(NoMemory),
        },
        Err(_) => Err(NoMemory),
    }
}

fn name(alloc: Global, col: u32, text: &[u8]) -> Result<Name, NoMemory>
    requires { length text.now < 2 ^ 32 }
{
    Ok(Name {
        place: place(col),
        text: ident(alloc, text)?,
    })
}

fn plain() -> Linkage {
    Linkage {
        is_static: false,
        is_extern: false,
        is_entry: false,
    }
}

fn int() -> CType {
    CType::arith(Arith::Int)
}

fn char() -> CType {
    CType::arith(Arith::Char)
}

/// The column and the code of a fault, as column times 100 and the code; 0 where memory ran out.
fn told(fault: &TypeFault) -> u32 {
    match fault {
        TypeFault::At { code, place } => place.col.wrapping_mul(100).wrapping_add(*code as u32),
        TypeFault::NoMemory => 0,
    }
}

fn includes(alloc: Global, tables: &mut Tables, header: Header) -> bool {
    match include(alloc, tables, header, place(1)) {
        Ok(()) => true,
        Err(_) => false,
    }
}

/// How many bytes the type has that a name means.
fn type_bytes(alloc: Global, tables: &Tables, text: &Name) -> u32 {
    match type_named(alloc, tables, text) {
        Ok(t) => whole_size(&t),
        Err(_) => 0,
    }
}

fn whole_size(t: &CType) -> u32 {
    if !t.fits() {
        return 0;
    }
    match type_size(t) {
        Some(n) => n,
        None => 0,
    }
}

/// What a name is as an expression: a local's number, a constant's value, or its fault.
fn meant(alloc: Global, tables: &Tables, text: &Name) -> u32 {
    match named(alloc, tables, text) {
        Ok(e) => match &e.get().kind {
            ExprKind::Const(n) => *n,
            ExprKind::Local(n) => *n,
            _ => 99,
        },
        Err(fault) => told(&fault),
    }
}

/// Declares a local: its number, or its fault.
fn local(alloc: Global, tables: &mut Tables, scope: Scope, text: &Name, t: CType) -> u32 {
    match declare_local(alloc, tables, scope, text, t, false) {
        Ok(n) => n,
        Err(fault) => told(&fault),
    }
}

/// Declares an int: its number, or its fault.
fn object(alloc: Global, tables: &mut Tables, text: &Name, how: Linkage) -> u32 {
    match declare_object(alloc, tables, text, int(), how, false) {
        Ok(n) => n,
        Err(fault) => told(&fault),
    }
}

/// `#include <stdint.h>` twice, and then a name as a type.
fn std_int_bytes(alloc: Global, text: &Name) -> u32 {
    let mut tables = Tables::new(alloc);
    if includes(alloc, &mut tables, Header::StdInt)
        && includes(alloc, &mut tables, Header::StdInt)
    {
        return type_bytes(alloc, &tables, text);
    }
    0
}

/// `#include <arm_cmse.h>`, and then a name as an expression.
fn arm_cmse_meant(alloc: Global, text: &Name) -> u32 {
    let mut tables = Tables::new(alloc);
    if includes(alloc, &mut tables, Header::ArmCmse) {
        return meant(alloc, &tables, text);
    }
    0
}

fn is_void_pointer(alloc: Global, tables: &Tables, text: &Name) -> bool {
    match named(alloc, tables, text) {
        Ok(e) => e.get().ctype.is_void_pointer(),
        Err(_) => false,
    }
}

/// `#include <arm_cmse.h>`, and then whether a name is a pointer to void.
fn arm_cmse_pointer(alloc: Global, text: &Name) -> bool {
    let mut tables = Tables::new(alloc);
    includes(alloc, &mut tables, Header::ArmCmse) && is_void_pointer(alloc, &tables, text)
}

/// `{ int a; { char a; a` means the inner one, and behind the block the outer one.
fn innermost(alloc: Global, a: &Name) -> bool {
    let mut tables = Tables::new(alloc);
    let outer = open_block(&tables);
    let first = local(alloc, &mut tables, outer, a, int());
    let inner = open_block(&tables);
    let second = local(alloc, &mut tables, inner, a, char());
    let within = meant(alloc, &tables, a);
    close_block(&mut tables, inner);
    let behind = meant(alloc, &tables, a);
    first == 0 && second == 1 && within == 1 && behind == 0
}

/// `{ int a; int a;`: the fault of the second.
fn twice_in_a_block(alloc: Global, a: &Name, again: &Name) -> u32 {
    let mut tables = Tables::new(alloc);
    let block = open_block(&tables);
    let _first = local(alloc, &mut tables, block, a, int());
    local(alloc, &mut tables, block, again, int())
}

/// `int a;` with this linkage, and once more without: the number, or the fault of the second.
fn declared_twice(alloc: Global, before: Linkage, a: &Name, again: &Name) -> u32 {
    let mut tables = Tables::new(alloc);
    let _first = object(alloc, &mut tables, a, before);
    object(alloc, &mut tables, again, plain())
}

fn extern_before() -> Linkage {
    Linkage {
        is_extern: true,
        ..plain()
    }
}

/// A struct of a char, an int and a char.
fn char_int_char(alloc: Global, a: &Name, b: &Name, c: &Name) -> Result<Layout, TypeFault> {
    let mut layout = Layout::new(alloc);
    layout.add(alloc, a, char())?;
    layout.add(alloc, b, int())?;
    layout.add(alloc, c, char())?;
    Ok(layout)
}

/// Ends a struct: its size.
fn ended(alloc: Global, tables: &mut Tables, n: u32, layout: Layout) -> u32 {
    match end_struct(alloc, tables, n, layout, place(1)) {
        Ok(t) => whole_size(&t),
        Err(fault) => told(&fault),
    }
}

/// The offset of a member.
fn offset(alloc: Global, t: &CType, tables: &Tables, b: &Name) -> u32 {
    match member_of(alloc, t, tables, place(3), b) {
        Ok(found) => found.offset,
        Err(fault) => told(&fault),
    }
}

/// `struct s { char a; int b; char c; };`: its size.
fn struct_bytes(alloc: Global, tables: &mut Tables, tag: &Name, layout: Layout) -> u32 {
    match begin_struct(alloc, tables, Some(tag)) {
        Ok(n) => ended(alloc, tables, n, layout),
        Err(fault) => told(&fault),
    }
}

/// `struct s *p; struct s { .. };` and then `p->b`: the size and the offset.
fn early_use(alloc: Global, tag: &Name, b: &Name, layout: Layout) -> bool {
    let mut tables = Tables::new(alloc);
    match struct_use(alloc, &mut tables, Scope::file(), tag) {
        Ok(early) => {
            let size = struct_bytes(alloc, &mut tables, tag, layout);
            size == 12 && offset(alloc, &early, &tables, b) == 4
        }
        Err(_) => false,
    }
}

fn members(alloc: Global, tag: &Name, a: &Name, b: &Name, c: &Name) -> bool {
    match char_int_char(alloc, a, b, c) {
        Ok(layout) => early_use(alloc, tag, b, layout),
        Err(_) => false,
    }
}

#[test]
fn headers(rt: HostRuntime) -> Result<(), Fail> {
    let alloc = rt.alloc();
    let half = name(alloc, 3, b"uint16_t".as_slice())?;
    let flags = name(alloc, 2, b"CMSE_NONSECURE".as_slice())?;
    let call = name(alloc, 4, b"cmse_is_nsfptr".as_slice())?;
    let null = name(alloc, 3, b"NULL".as_slice())?;
    let told = std_int_bytes(alloc, &half) == 2
        && arm_cmse_pointer(alloc, &null)
        && arm_cmse_meant(alloc, &flags) == 18
        && arm_cmse_meant(alloc, &call) == 429;
    assert!(rt; told);
    Ok(())
}

#[test]
fn blocks(rt: HostRuntime) -> Result<(), Fail> {
    let alloc = rt.alloc();
    let a = name(alloc, 1, b"a".as_slice())?;
    let again = name(alloc, 2, b"a".as_slice())?;
    let told = innermost(alloc, &a) && twice_in_a_block(alloc, &a, &again) == 221;
    assert!(rt; told);
    Ok(())
}

#[test]
fn objects(rt: HostRuntime) -> Result<(), Fail> {
    let alloc = rt.alloc();
    let a = name(alloc, 1, b"a".as_slice())?;
    let again = name(alloc, 2, b"a".as_slice())?;
    let told = declared_twice(alloc, extern_before(), &a, &again) == 0
        && declared_twice(alloc, plain(), &a, &again) == 221;
    assert!(rt; told);
    Ok(())
}

#[test]
fn structs(rt: HostRuntime) -> Result<(), Fail> {
    let alloc = rt.alloc();
    let tag = name(alloc, 1, b"s".as_slice())?;
    let a = name(alloc, 1, b"a".as_slice())?;
    let b = name(alloc, 2, b"b".as_slice())?;
    let c = name(alloc, 3, b"c".as_slice())?;
    let told = members(alloc, &tag, &a, &b, &c);
    assert!(rt; told);
    Ok(())
}
