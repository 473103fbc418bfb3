//! Which conversions are allowed.

ghost use Rattle.std.specs.Prelude.{◌≡◌};
ghost use Rattle.c_types.specs.Convert as spec;

use crate::ctype::{CType, Shape};
use crate::same::same_unqualified;

/// Whether a value of type `from` is implicitly converted to `to`, `null` telling whether it is a null constant: between
/// arithmetic types, from a null constant to any pointer, and between pointers as `pointer_converts` says.
pub fn converts(from: &CType, to: &CType, null: bool) -> bool
    ensures { result ≡ spec.converts from.now to.now null }
{
    from.is_arithmetic() && to.is_arithmetic()
        || null && to.is_pointer()
        || pointer_converts(from, to)
}

/// Whether a pointer is implicitly converted to another type of pointer: the types that they point to are one, their own
/// qualifiers left aside, or one is void and the other an object type; and that of `to` has the qualifiers of that of `from`
/// (C11 6.3.2.3, paragraphs 1 and 2, and 6.5.16.1).
pub fn pointer_converts(from: &CType, to: &CType) -> bool
    ensures { result ≡ spec.pointer_converts from.now to.now }
{
    match &from.shape {
        Shape::Pointer(a) => match &to.shape {
            Shape::Pointer(b) => referenced_converts(a.get(), b.get()),
            _ => false,
        },
        _ => false,
    }
}

fn referenced_converts(from: &CType, to: &CType) -> bool
    ensures { result ≡ spec.referenced_converts from.now to.now }
{
    qualifiers_within(from, to)
        && (same_unqualified(from, to)
            || from.is_void() && to.is_object()
            || from.is_object() && to.is_void())
}

/// Whether `to` has the qualifiers of `from`.
fn qualifiers_within(from: &CType, to: &CType) -> bool
    ensures { result ≡ spec.qualifiers_within from.now to.now }
{
    (!from.is_const || to.is_const) && (!from.is_volatile || to.is_volatile)
}

/// Whether a cast may go from one type to the other: between scalars, and to void (C11 6.5.4, paragraph 2).
pub fn casts(from: &CType, to: &CType) -> bool
    ensures { result ≡ spec.casts from.now to.now }
{
    to.is_void() || from.is_scalar() && to.is_scalar()
}
