//! Expressions as values, and conversions of values.

ghost use Rattle.std.specs.Prelude.{◌≡◌, IfOk};
ghost use Rattle.c_types.specs.Kind.{element};
ghost use Rattle.c_rows.specs.Answers.{Gives};
ghost use Rattle.c_rows.specs.Values as spec;

use crate::fault::{TypeFault, at};
use crate::nodes::node;
use c_const::is_null_constant;
use c_tree::{Expr, ExprKind};
use c_types::{Arith, CType, Shape, converts, same_unqualified};
use cm_base::{NoMemory, Place, Shared};
use std::alloc::Global;

/// An expression as a value (C11 6.3.2.1): an array is a pointer to its first element. `first` is the place of its first token.
///
/// # Errors
/// Code 29 at `first` for a function and for a struct.
pub fn valued(alloc: Global, e: Shared<Expr>, first: Place) -> Result<Shared<Expr>, TypeFault>
    ensures { Gives result (spec.valued e first) }
{
    match element_of(&e.get().ctype)? {
        Some(of) => Ok(first_element(alloc, e, of)?),
        None => value_itself(e, first),
    }
}

fn value_itself(e: Shared<Expr>, first: Place) -> Result<Shared<Expr>, TypeFault>
    ensures { Gives result (spec.value_itself e first) }
{
    if e.get().ctype.is_function() || e.get().ctype.is_struct() {
        return Err(at(29, first));
    }
    Ok(e)
}

/// The type of an array's elements.
fn element_of(t: &CType) -> Result<Option<Shared<CType>>, NoMemory>
    ensures { IfOk result (λ r. r ≡ element t.now) }
{
    match &t.shape {
        Shape::Array { of, .. } => Ok(Some(of.share()?)),
        _ => Ok(None),
    }
}

fn first_element(
    alloc: Global,
    e: Shared<Expr>,
    of: Shared<CType>,
) -> Result<Shared<Expr>, NoMemory>
    ensures { IfOk result (λ r. r ≡ spec.first_element e of) }
{
    let place = e.get().place;
    node(alloc, ExprKind::Addr(e), CType::pointer_to(of), place)
}

/// A value in a type: itself where its own is that one, qualifiers of the two left aside, else a conversion at its place.
pub fn converted_to(alloc: Global, to: &CType, v: Shared<Expr>) -> Result<Shared<Expr>, NoMemory>
    ensures { IfOk result (λ r. r ≡ spec.converted_to to.now v) }
{
    if same_unqualified(&v.get().ctype, to) {
        return Ok(v);
    }
    let ctype = to.unqualified(alloc)?;
    let place = v.get().place;
    node(alloc, ExprKind::Convert(v), ctype, place)
}

/// A value in an arithmetic type.
pub fn in_kind(alloc: Global, k: Arith, v: Shared<Expr>) -> Result<Shared<Expr>, NoMemory>
    ensures { IfOk result (λ r. r ≡ spec.in_kind k v) }
{
    let to = CType::arith(k);
    converted_to(alloc, &to, v)
}

/// A value implicitly converted to a type, as an assignment, a call, a return and an initialiser do (C11 6.5.16.1).
///
/// # Errors
/// Code 22 at `place` where there is no such conversion.
pub fn fitted(
    alloc: Global,
    to: &CType,
    v: Shared<Expr>,
    place: Place,
) -> Result<Shared<Expr>, TypeFault>
    ensures { Gives result (spec.fitted to.now v place) }
{
    let null = is_null_constant(v.get());
    if !converts(&v.get().ctype, to, null) {
        return Err(at(22, place));
    }
    Ok(converted_to(alloc, to, v)?)
}
