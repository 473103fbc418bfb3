//! The calls of arm_cmse.h.

ghost use Rattle.std.specs.Prelude.{◌≡◌, IfOk};
ghost use Rattle.c_rows.specs.Answers.{Gives};
ghost use Rattle.c_rows.specs.Intrinsics as spec;

use crate::calls::{Arg, points_to_nonsecure};
use crate::fault::{TypeFault, at};
use crate::nodes::{node, size_node, void_pointer};
use crate::pointers::step_of;
use crate::values::fitted;
use c_tree::{Expr, ExprKind};
use c_types::{Arith, CType};
use cm_base::{NoMemory, Place, Shared};
use std::alloc::Global;

/// A call of arm_cmse.h.
#[derive(Clone, Copy, Debug, PartialEq, Eq)]
pub enum Intrinsic {
    /// `cmse_check_address_range`
    CheckRange,
    /// `cmse_check_pointed_object`
    CheckObject,
    /// `cmse_nsfptr_create`
    CreatePointer,
    /// `cmse_is_nsfptr`
    IsPointer,
    /// `cmse_nonsecure_caller`
    Caller,
}

/// An argument as a value of a type.
fn as_type(alloc: Global, to: &CType, arg: &Arg) -> Result<Shared<Expr>, TypeFault>
    ensures { Gives result (spec.as_type to.now arg.now) }
{
    let value = arg.value.share()?;
    fitted(alloc, to, value, arg.first)
}

fn range_checked(
    alloc: Global,
    place: Place,
    p: &Arg,
    n: &Arg,
    flags: &Arg,
) -> Result<Shared<Expr>, TypeFault>
    ensures { Gives result (spec.range_checked place p.now n.now flags.now) }
{
    let to = void_pointer(alloc)?;
    let p = as_type(alloc, &to, p)?;
    let n = as_type(alloc, &CType::arith(Arith::Unsigned), n)?;
    let flags = as_type(alloc, &CType::arith(Arith::Int), flags)?;
    Ok(node(alloc, ExprKind::Range(p, n, flags), to, place)?)
}

fn range_of(alloc: Global, place: Place, args: &[Arg]) -> Result<Shared<Expr>, TypeFault>
    ensures { Gives result (spec.range_of place args.now) }
{
    match args {
        [p, n, flags] => range_checked(alloc, place, p, n, flags),
        _ => Err(at(22, place)),
    }
}

/// The check of an object of this size.
fn object_range(
    alloc: Global,
    place: Place,
    p: &Expr,
    it: Shared<Expr>,
    size: u32,
    flags: Shared<Expr>,
) -> Result<Shared<Expr>, NoMemory>
    ensures { IfOk result (λ r. r ≡ spec.object_range place p.now it size flags) }
{
    let n = size_node(alloc, p.place, size)?;
    let ctype = p.ctype.unqualified(alloc)?;
    node(alloc, ExprKind::Range(it, n, flags), ctype, place)
}

fn object_checked(
    alloc: Global,
    place: Place,
    p: &Arg,
    flags: &Arg,
    size: u32,
) -> Result<Shared<Expr>, TypeFault>
    ensures { Gives result (spec.object_checked place p.now flags.now size) }
{
    let flags = as_type(alloc, &CType::arith(Arith::Int), flags)?;
    let it = p.value.share()?;
    Ok(object_range(alloc, place, p.value.get(), it, size, flags)?)
}

fn object_of(alloc: Global, place: Place, args: &[Arg]) -> Result<Shared<Expr>, TypeFault>
    ensures { Gives result (spec.object_of place args.now) }
{
    match args {
        [p, flags] => match step_of(&p.value.get().ctype) {
            Some(size) => object_checked(alloc, place, p, flags, size),
            None => Err(at(22, p.first)),
        },
        _ => Err(at(22, place)),
    }
}

fn created(alloc: Global, place: Place, p: &Arg) -> Result<Shared<Expr>, TypeFault>
    ensures { Gives result (spec.created place p.now) }
{
    if !points_to_nonsecure(&p.value.get().ctype) {
        return Err(at(22, p.first));
    }
    let ctype = p.value.get().ctype.unqualified(alloc)?;
    let value = p.value.share()?;
    Ok(node(alloc, ExprKind::NsCreate(value), ctype, place)?)
}

fn created_of(alloc: Global, place: Place, args: &[Arg]) -> Result<Shared<Expr>, TypeFault>
    ensures { Gives result (spec.created_of place args.now) }
{
    match args {
        [p] => created(alloc, place, p),
        _ => Err(at(22, place)),
    }
}

fn tested(alloc: Global, place: Place, p: &Arg) -> Result<Shared<Expr>, TypeFault>
    ensures { Gives result (spec.tested place p.now) }
{
    if !points_to_nonsecure(&p.value.get().ctype) {
        return Err(at(22, p.first));
    }
    let value = p.value.share()?;
    Ok(node(
        alloc,
        ExprKind::NsTest(value),
        CType::arith(Arith::Int),
        place,
    )?)
}

fn tested_of(alloc: Global, place: Place, args: &[Arg]) -> Result<Shared<Expr>, TypeFault>
    ensures { Gives result (spec.tested_of place args.now) }
{
    match args {
        [p] => tested(alloc, place, p),
        _ => Err(at(22, place)),
    }
}

fn caller_of(
    alloc: Global,
    place: Place,
    args: &[Arg],
    in_entry: bool,
) -> Result<Shared<Expr>, TypeFault>
    ensures { Gives result (spec.caller_of place args.now in_entry) }
{
    if args.len() != 0 {
        return Err(at(22, place));
    }
    if !in_entry {
        return Err(at(44, place));
    }
    Ok(node(alloc, ExprKind::NsCaller, CType::arith(Arith::Int), place)?)
}

/// A call of one of them. The place is that of the `(`, and `in_entry` says that it stands in an entry function.
///
/// # Errors
/// Code 22 at the `(` for another number of arguments, and at the first token of an argument that doesn't fit; code 44 at the
/// `(` where the caller is asked for outside of an entry function.
pub fn intrinsic_called(
    alloc: Global,
    place: Place,
    which: Intrinsic,
    args: &[Arg],
    in_entry: bool,
) -> Result<Shared<Expr>, TypeFault>
    ensures { Gives result (spec.intrinsic_called place which args.now in_entry) }
{
    match which {
        Intrinsic::CheckRange => range_of(alloc, place, args),
        Intrinsic::CheckObject => object_of(alloc, place, args),
        Intrinsic::CreatePointer => created_of(alloc, place, args),
        Intrinsic::IsPointer => tested_of(alloc, place, args),
        Intrinsic::Caller => caller_of(alloc, place, args, in_entry),
    }
}
