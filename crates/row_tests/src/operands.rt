//! Operands to test with, and what is asked of the whole. All are shared nodes, and a function owns few of them.

use c_rows::{Arg, TypeFault, node, null_node, number};
use c_tree::{Expr, ExprKind};
use c_types::{Arith, CType};
use cm_base::{List, NoMemory, Place, Shared};
use std::alloc::Global;

pub type Node = Shared<Expr>;

pub const HERE: Place = Place {
    unit: 0,
    line: 1,
    col: 1,
};

/// A variable of this type.
pub fn local(alloc: Global, ctype: CType) -> Result<Node, NoMemory> {
    node(alloc, ExprKind::Local(0), ctype, HERE)
}

/// A variable of an arithmetic type.
pub fn variable(alloc: Global, a: Arith) -> Result<Node, NoMemory> {
    local(alloc, CType::arith(a))
}

/// A variable that points to an arithmetic type, which may be const.
pub fn pointer(alloc: Global, a: Arith, is_const: bool) -> Result<Node, NoMemory> {
    let to = CType::arith(a).qualified(alloc, is_const, false)?;
    local(alloc, CType::pointer_to(Shared::new(alloc, to)?))
}

/// A variable of type array of three.
pub fn array(alloc: Global, a: Arith) -> Result<Node, NoMemory> {
    let element = Shared::new(alloc, CType::arith(a))?;
    local(alloc, CType::array_of(element, Some(3)))
}

/// The function of number 5, which takes a char and gives a short.
pub fn function(alloc: Global, nonsecure: bool) -> Result<CType, NoMemory> {
    let mut params = List::new(alloc);
    params.push(CType::arith(Arith::Char))?;
    let gives = Shared::new(alloc, CType::arith(Arith::Short))?;
    Ok(CType::function(gives, params, nonsecure))
}

/// A number of type int.
pub fn int(alloc: Global, n: u32) -> Result<Node, NoMemory> {
    number(alloc, HERE, n, false, false)
}

pub fn null(alloc: Global) -> Result<Node, NoMemory> {
    null_node(alloc, HERE)
}

/// A list of one argument.
pub fn one(alloc: Global, value: Node) -> Result<List<Arg>, NoMemory> {
    let mut args = List::new(alloc);
    args.push(Arg { value, first: HERE })?;
    Ok(args)
}

/// Whether a whole has this arithmetic type.
pub fn is_of(e: &Expr, a: Arith) -> bool {
    e.ctype.arithmetic() == Some(a)
}

pub fn is_conversion(e: &Expr) -> bool {
    match &e.kind {
        ExprKind::Convert(_) => true,
        _ => false,
    }
}

/// Whether it is an operator on two operands, of which these are converted.
pub fn converts_operands(e: &Expr, first: bool, second: bool) -> bool {
    match &e.kind {
        ExprKind::Binary(_, a, b) => {
            is_conversion(a.get()) == first && is_conversion(b.get()) == second
        }
        _ => false,
    }
}

/// Whether there is a fault of this code.
pub fn fails(whole: Result<Node, TypeFault>, wanted: u8) -> bool {
    match whole {
        Err(TypeFault::At { code, .. }) => code == wanted,
        _ => false,
    }
}
