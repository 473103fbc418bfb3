//! Non-secure function types, and pointers to Secure functions.

ghost use Rattle.std.specs.Prelude.{◌≡◌, IfOk};
ghost use Rattle.c_rows.specs.Answers.{Gives};
ghost use Rattle.cmse_rules.specs.Pointers as spec;

use c_rows::{TypeFault, at};
use c_types::{CType, Shape, share_all};
use cm_base::{NoMemory, Place, Shared};
use std::alloc::Global;

/// The type in which the function type that is reached through pointers and arrays is Non-secure, or None where none is
/// reached.
pub fn nonsecure_marked(alloc: Global, t: &CType) -> Result<Option<CType>, NoMemory>
    ensures { IfOk result (λ r. r ≡ spec.marked t.now) }
{
    match &t.shape {
        Shape::Pointer(to) => match nonsecure_marked(alloc, to.get())? {
            Some(to) => Ok(Some(reshaped(t, Shape::Pointer(Shared::new(alloc, to)?)))),
            None => Ok(None),
        },
        Shape::Array { of, len } => match nonsecure_marked(alloc, of.get())? {
            Some(of) => {
                let of = Shared::new(alloc, of)?;
                Ok(Some(reshaped(t, Shape::Array { of, len: *len })))
            }
            None => Ok(None),
        },
        Shape::Function { gives, params, .. } => {
            let shape = Shape::Function {
                gives: gives.share()?,
                params: share_all(alloc, params.as_slice())?,
                nonsecure: true,
            };
            Ok(Some(reshaped(t, shape)))
        }
        _ => Ok(None),
    }
}

/// A type of this shape with the qualifiers of `t`.
fn reshaped(t: &CType, shape: Shape) -> CType
    ensures { result ≡ spec.reshaped t.now shape }
{
    CType {
        shape,
        is_const: t.is_const,
        is_volatile: t.is_volatile,
    }
}

/// How many parameters the function type has that is reached through pointers and arrays; None where none is reached.
pub fn reached_params(t: &CType) -> Option<usize>
    ensures { result ≡ spec.reached_params t.now }
{
    match &t.shape {
        Shape::Pointer(to) => reached_params(to.get()),
        Shape::Array { of, .. } => reached_params(of.get()),
        Shape::Function { params, .. } => Some(params.len()),
        _ => None,
    }
}

/// The declared type that `cmse_nonsecure_call` makes of a type. It is E40 where no function type is reached through pointers
/// and arrays, and E42 where that has more than four parameters, both at the declared name.
pub fn nonsecure_declared(alloc: Global, t: &CType, name: Place) -> Result<CType, TypeFault>
    ensures { Gives result (spec.nonsecure_declared t.now name) }
{
    if has_many(t) {
        return Err(at(42, name));
    }
    match nonsecure_marked(alloc, t)? {
        Some(marked) => Ok(marked),
        None => Err(at(40, name)),
    }
}

/// Whether the function type that is reached has more parameters than registers hold.
fn has_many(t: &CType) -> bool
    ensures { result ≡ spec.is_many (spec.reached_params t.now) }
{
    match reached_params(t) {
        Some(n) => n > 4,
        None => false,
    }
}

/// Whether somewhere in the type a pointer points to a function type that isn't Non-secure. The members of a struct are
/// looked at where they are declared.
#[cycle(pointers)]
pub fn has_secure_pointer(t: &CType) -> bool
    ensures { result ≡ spec.has_secure_pointer t.now }
{
    match &t.shape {
        Shape::Void => false,
        Shape::Arith(_) => false,
        Shape::Pointer(to) => is_secure_function(to.get()) || has_secure_pointer(to.get()),
        Shape::Array { of, .. } => has_secure_pointer(of.get()),
        Shape::Struct { .. } => false,
        Shape::Function { gives, params, .. } => {
            has_secure_pointer(gives.get()) || any_secure_pointer(params.as_slice())
        }
    }
}

#[cycle(pointers)]
fn any_secure_pointer(ts: &[CType]) -> bool
    ensures { result ≡ spec.any_secure_pointer ts.now }
{
    for t in ts {
        if has_secure_pointer(t) {
            return true;
        }
    }
    false
}

/// A function type that isn't Non-secure.
fn is_secure_function(t: &CType) -> bool
    ensures { result ≡ (spec.secure t.now).is_function }
{
    match &t.shape {
        Shape::Void => false,
        Shape::Arith(_) => false,
        Shape::Pointer(_) => false,
        Shape::Array { .. } => false,
        Shape::Struct { .. } => false,
        Shape::Function { nonsecure, .. } => !*nonsecure,
    }
}
