//! Calls.

ghost use Rattle.std.specs.Prelude.{◌≡◌, IfOk, length};
ghost use Rattle.c_rows.specs.Answers.{Gives};
ghost use Rattle.c_rows.specs.Calls as spec;

use crate::fault::{TypeFault, at};
use crate::nodes::node;
use crate::values::fitted;
use c_tree::{Expr, ExprKind};
use c_types::{CType, Shape};
use cm_base::{List, NoMemory, Place, Shared};
use std::alloc::Global;

/// An argument: a value, and the place of its first token.
#[derive(Drop)]
pub struct Arg {
    pub value: Shared<Expr>,
    pub first: Place,
}

/// Each argument as its parameter, from left to right.
///
/// # Errors
/// Code 22 at the first token of one that isn't converted.
fn fitted_args(
    alloc: Global,
    params: &[CType],
    args: &[Arg],
) -> Result<List<Shared<Expr>>, TypeFault>
    requires { length params.now ≡ length args.now }
    ensures { Gives result (spec.fitted_args params.now args.now) }
{
    let mut done = List::new(alloc);
    for i in 0..params.len() {
        let value = args[i].value.share()?;
        done.push(fitted(alloc, &params[i], value, args[i].first)?)?;
    }
    Ok(done)
}

/// The arguments of a function of this type: as many as it has parameters.
fn arguments(
    alloc: Global,
    place: Place,
    t: &CType,
    args: &[Arg],
) -> Result<List<Shared<Expr>>, TypeFault>
    ensures { Gives result (spec.arguments place t.now args.now) }
{
    match &t.shape {
        Shape::Function { params, .. } => {
            if params.len() != args.len() {
                return Err(at(22, place));
            }
            fitted_args(alloc, params.as_slice(), args)
        }
        _ => Err(at(22, place)),
    }
}

/// What a function of this type gives.
fn result_of(alloc: Global, t: &CType) -> Result<CType, NoMemory>
    ensures { IfOk result (λ r. r ≡ spec.result_of t.now) }
{
    match &t.shape {
        Shape::Function { gives, .. } => gives.get().unqualified(alloc),
        _ => Ok(CType::plain(Shape::Void)),
    }
}

fn is_secure_function(t: &CType) -> bool
    ensures { result ≡ spec.is_secure_function t.now }
{
    match &t.shape {
        Shape::Function { nonsecure, .. } => !*nonsecure,
        _ => false,
    }
}

/// The number of the Secure function whose name an expression is.
fn secure_number(f: &Expr) -> Option<u32>
    ensures { result ≡ spec.secure_number f.now }
{
    match &f.kind {
        ExprKind::Global(n) => {
            if is_secure_function(&f.ctype) {
                return Some(*n);
            }
            None
        }
        _ => None,
    }
}

fn secure_call(
    alloc: Global,
    place: Place,
    f: &Expr,
    n: u32,
    args: &[Arg],
) -> Result<Shared<Expr>, TypeFault>
    ensures { Gives result (spec.secure_call place f.now n args.now) }
{
    let values = arguments(alloc, place, &f.ctype, args)?;
    let ctype = result_of(alloc, &f.ctype)?;
    Ok(node(alloc, ExprKind::Call(n, values), ctype, place)?)
}

/// Whether it is a pointer to a Non-secure function.
pub fn points_to_nonsecure(t: &CType) -> bool
    ensures { result ≡ spec.points_to_nonsecure t.now }
{
    match &t.shape {
        Shape::Pointer(to) => to.get().is_nonsecure_function(),
        _ => false,
    }
}

/// The type of the function that a pointer to a Non-secure function points to.
fn nonsecure_target(t: &CType) -> Result<Option<Shared<CType>>, NoMemory>
    ensures { IfOk result (λ r. r ≡ spec.nonsecure_target t.now) }
{
    match &t.shape {
        Shape::Pointer(to) => {
            if !to.get().is_nonsecure_function() {
                return Ok(None);
            }
            Ok(Some(to.share()?))
        }
        _ => Ok(None),
    }
}

fn nonsecure_call(
    alloc: Global,
    place: Place,
    f: Shared<Expr>,
    args: &[Arg],
    to: &CType,
) -> Result<Shared<Expr>, TypeFault>
    ensures { Gives result (spec.nonsecure_call place f args.now to.now) }
{
    let values = arguments(alloc, place, to, args)?;
    let ctype = result_of(alloc, to)?;
    Ok(node(alloc, ExprKind::NsCall(f, values), ctype, place)?)
}

fn called_by_pointer(
    alloc: Global,
    place: Place,
    f: Shared<Expr>,
    args: &[Arg],
) -> Result<Shared<Expr>, TypeFault>
    ensures { Gives result (spec.called_by_pointer place f args.now) }
{
    match nonsecure_target(&f.get().ctype)? {
        Some(to) => nonsecure_call(alloc, place, f, args, to.get()),
        None => Err(at(22, place)),
    }
}

/// A call of a Secure function by its name, which isn't valued, or of a Non-secure function by a pointer, which is. The place is
/// that of the `(`.
///
/// # Errors
/// Code 22 at the `(` where nothing is called or the arguments aren't as many as the parameters, and at the first token of an
/// argument that isn't converted to its parameter's type.
pub fn called(
    alloc: Global,
    place: Place,
    f: Shared<Expr>,
    args: &[Arg],
) -> Result<Shared<Expr>, TypeFault>
    ensures { Gives result (spec.called place f args.now) }
{
    match secure_number(f.get()) {
        Some(n) => secure_call(alloc, place, f.get(), n, args),
        None => called_by_pointer(alloc, place, f, args),
    }
}
