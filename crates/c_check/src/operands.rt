//! Expressions before their values are taken, and which operation an operator is.

ghost use Rattle.std.specs.Prelude.{◌≡◌, IfOk};
ghost use Rattle.c_rows.specs.Answers.{Gives};
ghost use Rattle.c_rows.specs.Nodes as numbers;
ghost use Rattle.c_types.specs.Kind.{referenced};
ghost use Rattle.c_check.specs.Operands as spec;

use c_ast::{AssignOp, BinOp, Name, NumberType, StepOp, UnOp};
use c_rows::{
    Arg, Intrinsic, TypeFault, added, address, array_length, assigned, assigned_by, at, binary,
    both_or_either, called, cast, character, chosen, dereferenced, element, equated, in_order,
    integer_constant, intrinsic_called, member, negated, number, ordered, shifted, size_of,
    stepped, subtracted, unary, valued,
};
use c_scope::{Tables, intrinsic_named, member_of, named};
use c_tree::Expr;
use c_types::{CType, Shape};
use cm_base::{NoMemory, Place, Shared};
use std::alloc::Global;

/// A tree, or a call that arm_cmse.h declares.
#[derive(Drop)]
pub enum What {
    Tree(Shared<Expr>),
    Intrinsic(Intrinsic),
}

/// An expression, and the place of its first token.
#[derive(Drop)]
pub struct Operand {
    pub what: What,
    pub first: Place,
}

impl Operand {
    /// A tree, whose text begins with this place.
    pub fn new(first: Place, e: Shared<Expr>) -> Operand
        ensures { result ≡ spec.operand first e }
    {
        Operand {
            what: What::Tree(e),
            first,
        }
    }

    /// The tree; E29 at the first token where it is the name of a call of arm_cmse.h.
    pub fn tree(self) -> Result<Shared<Expr>, TypeFault>
        ensures { Gives result (spec.tree_of self) }
    {
        let Operand { what, first } = self;
        match what {
            What::Tree(e) => Ok(e),
            What::Intrinsic(_) => Err(at(29, first)),
        }
    }

    /// The value; E29 at the first token where it has none.
    pub fn value(self, alloc: Global) -> Result<Shared<Expr>, TypeFault>
        ensures { Gives result (spec.value_of self) }
    {
        let first = self.first;
        let e = self.tree()?;
        valued(alloc, e, first)
    }
}

/// An operator between two values.
fn binary_row(
    alloc: Global,
    op: BinOp,
    place: Place,
    a: Shared<Expr>,
    b: Shared<Expr>,
) -> Result<Shared<Expr>, TypeFault>
    ensures { Gives result (spec.binary_row op place a b) }
{
    match op {
        BinOp::OrElse => both_or_either(alloc, false, place, a, b),
        BinOp::AndThen => both_or_either(alloc, true, place, a, b),
        BinOp::BitOr => binary(alloc, c_tree::BinOp::Or, place, a, b),
        BinOp::BitXor => binary(alloc, c_tree::BinOp::Xor, place, a, b),
        BinOp::BitAnd => binary(alloc, c_tree::BinOp::And, place, a, b),
        BinOp::Equal => equated(alloc, c_tree::BinOp::Eq, place, a, b),
        BinOp::NotEqual => equated(alloc, c_tree::BinOp::Ne, place, a, b),
        BinOp::Less => ordered(alloc, c_tree::BinOp::Lt, place, a, b),
        BinOp::Greater => ordered(alloc, c_tree::BinOp::Gt, place, a, b),
        BinOp::LessEqual => ordered(alloc, c_tree::BinOp::Le, place, a, b),
        BinOp::GreaterEqual => ordered(alloc, c_tree::BinOp::Ge, place, a, b),
        BinOp::Shl => shifted(alloc, c_tree::BinOp::Shl, place, a, b),
        BinOp::Shr => shifted(alloc, c_tree::BinOp::Shr, place, a, b),
        BinOp::Add => added(alloc, place, a, b),
        BinOp::Sub => subtracted(alloc, place, a, b),
        BinOp::Mul => binary(alloc, c_tree::BinOp::Mul, place, a, b),
        BinOp::Div => binary(alloc, c_tree::BinOp::Div, place, a, b),
        BinOp::Rem => binary(alloc, c_tree::BinOp::Rem, place, a, b),
    }
}

/// An operator before its operand.
fn unary_row(alloc: Global, op: UnOp, place: Place, o: Operand) -> Result<Shared<Expr>, TypeFault>
    ensures { Gives result (spec.unary_row op place o) }
{
    match op {
        UnOp::Address => address(alloc, place, o.tree()?),
        UnOp::Deref => dereferenced(alloc, place, o.value(alloc)?),
        UnOp::Plus => unary(alloc, c_tree::UnOp::Plus, place, o.value(alloc)?),
        UnOp::Minus => unary(alloc, c_tree::UnOp::Minus, place, o.value(alloc)?),
        UnOp::Complement => unary(alloc, c_tree::UnOp::Compl, place, o.value(alloc)?),
        UnOp::Not => negated(alloc, place, o.value(alloc)?),
    }
}

/// The operator of an assignment that changes its place.
fn changes(op: AssignOp) -> Option<c_tree::BinOp>
    ensures { result ≡ spec.changes op }
{
    match op {
        AssignOp::Set => None,
        AssignOp::Mul => Some(c_tree::BinOp::Mul),
        AssignOp::Div => Some(c_tree::BinOp::Div),
        AssignOp::Rem => Some(c_tree::BinOp::Rem),
        AssignOp::Add => Some(c_tree::BinOp::Add),
        AssignOp::Sub => Some(c_tree::BinOp::Sub),
        AssignOp::Shl => Some(c_tree::BinOp::Shl),
        AssignOp::Shr => Some(c_tree::BinOp::Shr),
        AssignOp::And => Some(c_tree::BinOp::And),
        AssignOp::Xor => Some(c_tree::BinOp::Xor),
        AssignOp::Or => Some(c_tree::BinOp::Or),
    }
}

/// An operator that assigns, on what stands left of it.
fn assign_tree(
    alloc: Global,
    op: AssignOp,
    place: Place,
    to: Shared<Expr>,
    v: Operand,
) -> Result<Shared<Expr>, TypeFault>
    ensures { Gives result (spec.assign_tree op place to v) }
{
    match changes(op) {
        None => {
            let first = v.first;
            assigned(alloc, place, to, v.tree()?, first)
        }
        Some(op) => assigned_by(alloc, op, place, to, v.value(alloc)?),
    }
}

/// Whether it is `++`.
fn is_up(op: StepOp) -> bool
    ensures { result ≡ spec.is_up op }
{
    match op {
        StepOp::Increment => true,
        StepOp::Decrement => false,
    }
}

/// A name. It is E20 where nothing is declared so.
pub fn named_operand(alloc: Global, tables: &Tables, name: &Name) -> Result<Operand, TypeFault>
    ensures { Gives result (spec.named_operand tables.now name.now) }
{
    match intrinsic_named(tables, name.text.as_slice()) {
        Some(i) => Ok(Operand {
            what: What::Intrinsic(i),
            first: name.place,
        }),
        None => Ok(Operand::new(name.place, named(alloc, tables, name)?)),
    }
}

/// The same in parentheses, the first of which stands here.
pub fn in_parentheses(first: Place, o: Operand) -> Operand
    ensures { result ≡ spec.from first o }
{
    let Operand { what, .. } = o;
    Operand { what, first }
}

/// A number.
pub fn number_operand(
    alloc: Global,
    place: Place,
    n: u32,
    ty: NumberType,
) -> Result<Operand, NoMemory>
    ensures { IfOk result (λ o. o ≡ spec.operand place (numbers.number place n ty.unsigned ty.long)) }
{
    Ok(Operand::new(place, number(alloc, place, n, ty.unsigned, ty.long)?))
}

/// A character.
pub fn character_operand(alloc: Global, place: Place, c: u8) -> Result<Operand, NoMemory>
    ensures { IfOk result (λ o. o ≡ spec.operand place (numbers.constant_node place c)) }
{
    Ok(Operand::new(place, character(alloc, place, c)?))
}

/// An operator between a value and what stands right of it.
pub fn joined(
    alloc: Global,
    op: BinOp,
    place: Place,
    left: Shared<Expr>,
    right: Operand,
) -> Result<Shared<Expr>, TypeFault>
    ensures { Gives result (spec.joined op place left right) }
{
    let right = right.value(alloc)?;
    binary_row(alloc, op, place, left, right)
}

/// A comma between a value and what stands right of it.
pub fn followed(
    alloc: Global,
    place: Place,
    left: Shared<Expr>,
    right: Operand,
) -> Result<Shared<Expr>, TypeFault>
    ensures { Gives result (spec.followed place left right) }
{
    let right = right.value(alloc)?;
    Ok(in_order(alloc, place, left, right)?)
}

/// An operator before its operand.
pub fn unary_operand(
    alloc: Global,
    op: UnOp,
    place: Place,
    o: Operand,
) -> Result<Operand, TypeFault>
    ensures { Gives result (spec.unary_operand op place o) }
{
    Ok(Operand::new(place, unary_row(alloc, op, place, o)?))
}

/// `++` or `--`, which gives the old value where it stands behind its operand.
pub fn stepped_operand(
    alloc: Global,
    op: StepOp,
    place: Place,
    old: bool,
    first: Place,
    o: Operand,
) -> Result<Operand, TypeFault>
    ensures { Gives result (spec.stepped_operand op place old first o) }
{
    let e = o.tree()?;
    Ok(Operand::new(first, stepped(alloc, place, e, is_up(op), old)?))
}

/// `sizeof` of an expression.
pub fn sized_operand(alloc: Global, place: Place, o: Operand) -> Result<Operand, TypeFault>
    ensures { Gives result (spec.sized_operand place o) }
{
    let e = o.tree()?;
    Ok(Operand::new(place, size_of(alloc, place, &e.get().ctype)?))
}

/// `sizeof` of a type.
pub fn sized_type(alloc: Global, place: Place, t: &CType) -> Result<Operand, TypeFault>
    ensures { Gives result (spec.sized_type place t.now) }
{
    Ok(Operand::new(place, size_of(alloc, place, t)?))
}

/// A cast.
pub fn cast_operand(
    alloc: Global,
    place: Place,
    to: &CType,
    o: Operand,
) -> Result<Operand, TypeFault>
    ensures { Gives result (spec.cast_operand place to.now o) }
{
    let e = o.value(alloc)?;
    Ok(Operand::new(place, cast(alloc, place, to, e)?))
}

/// `? :` of the values before it and in its middle, and of what stands behind it.
pub fn chosen_operand(
    alloc: Global,
    place: Place,
    first: Place,
    c: Shared<Expr>,
    a: Shared<Expr>,
    b: Operand,
) -> Result<Operand, TypeFault>
    ensures { Gives result (spec.chosen_operand place first c a b) }
{
    let b = b.value(alloc)?;
    Ok(Operand::new(first, chosen(alloc, place, c, a, b)?))
}

/// An operator that assigns.
pub fn assigned_operand(
    alloc: Global,
    op: AssignOp,
    place: Place,
    first: Place,
    to: Shared<Expr>,
    v: Operand,
) -> Result<Operand, TypeFault>
    ensures { Gives result (spec.assigned_operand op place first to v) }
{
    Ok(Operand::new(first, assign_tree(alloc, op, place, to, v)?))
}

/// `a[i]`
pub fn element_operand(
    alloc: Global,
    place: Place,
    first: Place,
    a: Shared<Expr>,
    i: Operand,
) -> Result<Operand, TypeFault>
    ensures { Gives result (spec.element_operand place first a i) }
{
    let i = i.value(alloc)?;
    Ok(Operand::new(first, element(alloc, place, a, i)?))
}

fn called_what(
    alloc: Global,
    place: Place,
    in_entry: bool,
    what: What,
    args: &[Arg],
) -> Result<Shared<Expr>, TypeFault>
    ensures { Gives result (spec.called_what place in_entry what args.now) }
{
    match what {
        What::Tree(f) => called(alloc, place, f, args),
        What::Intrinsic(i) => intrinsic_called(alloc, place, i, args, in_entry),
    }
}

/// A call of what stands before the parenthesis at `place`.
pub fn called_operand(
    alloc: Global,
    place: Place,
    in_entry: bool,
    f: Operand,
    args: &[Arg],
) -> Result<Operand, TypeFault>
    ensures { Gives result (spec.called_operand place in_entry f args.now) }
{
    let Operand { what, first } = f;
    Ok(Operand::new(first, called_what(alloc, place, in_entry, what, args)?))
}

/// An argument of a call.
pub fn argument(alloc: Global, o: Operand) -> Result<Arg, TypeFault>
    ensures { Gives result (spec.argument o) }
{
    let first = o.first;
    let value = o.value(alloc)?;
    Ok(Arg { value, first })
}

fn member_row(
    alloc: Global,
    tables: &Tables,
    place: Place,
    name: &Name,
    e: Shared<Expr>,
) -> Result<Shared<Expr>, TypeFault>
    ensures { Gives result (spec.member_row tables.now place name.now e) }
{
    let found = member_of(alloc, &e.get().ctype, tables, place, name)?;
    Ok(member(alloc, place, e, &found.ctype, found.offset)?)
}

/// `e.name`
pub fn member_operand(
    alloc: Global,
    tables: &Tables,
    place: Place,
    name: &Name,
    o: Operand,
) -> Result<Operand, TypeFault>
    ensures { Gives result (spec.member_operand tables.now place name.now o) }
{
    let first = o.first;
    let e = o.tree()?;
    Ok(Operand::new(first, member_row(alloc, tables, place, name, e)?))
}

/// Whether what a pointer points to has members.
fn has_members(t: &CType) -> bool
    ensures { result ≡ spec.has_members (referenced t.now) }
{
    match &t.shape {
        Shape::Pointer(to) => to.get().is_struct(),
        _ => false,
    }
}

/// A member of what a pointer points to: E22 at the operator where that is no struct.
fn arrow_row(
    alloc: Global,
    tables: &Tables,
    place: Place,
    name: &Name,
    p: Shared<Expr>,
) -> Result<Shared<Expr>, TypeFault>
    ensures { Gives result (spec.arrow_row tables.now place name.now p) }
{
    if !has_members(&p.get().ctype) {
        return Err(at(22, place));
    }
    let e = dereferenced(alloc, place, p)?;
    member_row(alloc, tables, place, name, e)
}

/// `p->name`
pub fn arrow_operand(
    alloc: Global,
    tables: &Tables,
    place: Place,
    name: &Name,
    o: Operand,
) -> Result<Operand, TypeFault>
    ensures { Gives result (spec.arrow_operand tables.now place name.now o) }
{
    let first = o.first;
    let p = o.value(alloc)?;
    Ok(Operand::new(first, arrow_row(alloc, tables, place, name, p)?))
}

/// An array's length: E24 at the first token where it is no constant from 1 to 49,152.
pub fn length_operand(alloc: Global, o: Operand) -> Result<u32, TypeFault>
    ensures { Gives result (spec.length_operand o) }
{
    let first = o.first;
    let e = o.value(alloc)?;
    array_length(e.get(), first)
}

/// An integer constant: E24 at the first token where it is none.
pub fn constant_operand(alloc: Global, o: Operand) -> Result<u32, TypeFault>
    ensures { Gives result (spec.constant_operand o) }
{
    let first = o.first;
    let e = o.value(alloc)?;
    integer_constant(e.get(), first)
}
