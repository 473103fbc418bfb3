//! Where parts of a source begin.

ghost use Rattle.std.specs.Prelude.{◌≡◌};
ghost use Rattle.c_ast.specs.Places as begins;

use crate::expr::{EnumSpec, Expr, Spec, StructSpec};
use crate::stmt::Initial;
use cm_base::Place;

/// The place of an expression's first token.
pub fn first_place(expr: &Expr) -> Place
    ensures { result ≡ begins.first_place expr.now }
{
    match expr {
        Expr::Name(name) => name.place,
        Expr::Number(place, _, _) => *place,
        Expr::Char(place, _) => *place,
        Expr::Str(place, _) => *place,
        Expr::Group(place, _) => *place,
        Expr::Postfix(primary, _) => first_place(primary.get()),
        Expr::Step(place, _, _) => *place,
        Expr::Unary(place, _, _) => *place,
        Expr::SizeofExpr(place, _) => *place,
        Expr::SizeofType(place, _) => *place,
        Expr::Cast(place, _, _) => *place,
        Expr::Binary(first, _) => first_place(first.get()),
        Expr::Choice(_, test, _, _) => first_place(test.get()),
        Expr::Assign(_, _, to, _) => first_place(to.get()),
        Expr::Comma(first, _) => first_place(first.get()),
    }
}

/// The place of an initialiser's first token.
pub fn initial_place(initial: &Initial) -> Place
    ensures { result ≡ begins.initial_place initial.now }
{
    match initial {
        Initial::Assign(value) => first_place(value),
        Initial::Braces(place, _) => *place,
    }
}

/// The place of a specifier's first token.
pub fn spec_place(found: &Spec) -> Place
    ensures { result ≡ begins.spec_place found.now }
{
    match found {
        Spec::Word(place, _) => *place,
        Spec::TypeName(name) => name.place,
        Spec::Struct(inner) => struct_place(inner.get()),
        Spec::Enum(inner) => enum_place(inner.get()),
        Spec::Attr(attr) => attr.place,
    }
}

fn struct_place(found: &StructSpec) -> Place
    ensures { result ≡ begins.struct_place found.now }
{
    match found {
        StructSpec::Body(place, _, _) => *place,
        StructSpec::Tag(place, _) => *place,
    }
}

fn enum_place(found: &EnumSpec) -> Place
    ensures { result ≡ begins.enum_place found.now }
{
    match found {
        EnumSpec::Body(place, _, _) => *place,
        EnumSpec::Tag(place, _) => *place,
    }
}

/// The place of the first token of specifiers, and so of a declaration or of a type's name; None where there are none.
pub fn specs_place(specs: &[Spec]) -> Option<Place>
    ensures { result ≡ begins.specs_place specs.now }
{
    match specs.first() {
        Some(first) => Some(spec_place(first)),
        None => None,
    }
}
