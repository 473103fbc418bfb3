//! Declared types: what declarators and attributes make of the type before them.

ghost use Rattle.std.specs.Prelude.{◌≡◌, Some, None, IfOk};
ghost use Rattle.c_rows.specs.Answers.{Gives};
ghost use Rattle.c_scope.specs.Steps.{Leaves};
ghost use Rattle.c_check.specs.Formed as spec;

use crate::around::Around;
use crate::specified::Head;
use c_ast::{Name, Star};
use c_derive::{Derivation, Param, declarator_derivations, derived};
use c_rows::{TypeFault, at};
use c_scope::{Layout, Scope, Tables, declare_parameter};
use c_types::CType;
use cm_base::{List, NoMemory, Place};
use cmse_rules::{Attributes, Subject, attribute_of, has_secure_pointer, nonsecure_declared};
use std::alloc::Global;

/// What a declarator derives: the steps from the type before it, and the attributes, those before it included.
#[derive(Drop)]
pub struct Formed {
    pub derivations: List<Derivation>,
    pub attributes: Attributes,
}

/// The attributes among stars, beside those so far. The first that isn't known is E40 at its name.
pub fn star_attributes(stars: &[Star], so_far: Attributes) -> Result<Attributes, TypeFault>
    ensures { Gives result (spec.star_attributes stars.now so_far) }
{
    let mut all = so_far;
    for star in stars {
        match star {
            Star::Attr(attr) => all = attribute_of(attr, all)?,
            _ => {}
        }
    }
    Ok(all)
}

/// What a declarator of these stars and suffixes derives, around what stands in parentheses.
pub fn plain_declarator(
    alloc: Global,
    stars: &[Star],
    suffixes: List<Derivation>,
    inner: List<Derivation>,
    attributes: Attributes,
) -> Result<Formed, NoMemory>
    ensures { IfOk result (λ f. f ≡ spec.formed stars.now suffixes inner attributes) }
{
    Ok(Formed {
        derivations: declarator_derivations(alloc, stars, suffixes, inner)?,
        attributes,
    })
}

/// The same around a declarator in parentheses.
pub fn grouped_declarator(
    alloc: Global,
    stars: &[Star],
    suffixes: List<Derivation>,
    inner: Formed,
) -> Result<Formed, NoMemory>
    ensures { IfOk result (λ f. f ≡ spec.formed stars.now suffixes inner.derivations inner.attributes) }
{
    let Formed {
        derivations,
        attributes,
    } = inner;
    plain_declarator(alloc, stars, suffixes, derivations, attributes)
}

/// What attributes make of a declared type. At `place` it is E40 where one of them stands on the wrong thing, and E42 where
/// a Non-secure function has more than four parameters.
pub fn attributed(
    alloc: Global,
    attributes: Attributes,
    on: Subject,
    t: CType,
    place: Place,
) -> Result<CType, TypeFault>
    ensures { Gives result (spec.attributed attributes on t place) }
{
    if attributes.misplaced(on) {
        return Err(at(40, place));
    }
    match attributes.call {
        Some(_) => nonsecure_declared(alloc, &t, place),
        None => Ok(t),
    }
}

/// The type of a parameter, a member or a type name. The faults, of its declarator and then of its attributes, stand at
/// `place`.
fn inner_type(alloc: Global, formed: &Formed, base: CType, place: Place) -> Result<CType, TypeFault>
    ensures { Gives result (spec.inner_type base formed.now place) }
{
    let t = derived(alloc, formed.derivations.as_slice(), base, place)?;
    attributed(alloc, formed.attributes, Subject::Other, t, place)
}

/// A type in which no pointer to a Secure function may stand: E29 at `first` where one does.
fn without_pointer(t: CType, first: Place) -> Result<CType, TypeFault>
    ensures { Gives result (spec.without_pointer t first) }
{
    if has_secure_pointer(&t) {
        return Err(at(29, first));
    }
    Ok(t)
}

/// The type of a type name. Its faults stand at its first token.
pub fn type_of_name(alloc: Global, head: Head, formed: &Formed) -> Result<CType, TypeFault>
    ensures { Gives result (spec.type_of_name head formed.now) }
{
    let Head { base, first, .. } = head;
    let t = inner_type(alloc, formed, base, first)?;
    without_pointer(t, first)
}

/// A struct's members with one more. Its faults stand at its name.
pub fn with_member(
    alloc: Global,
    base: &CType,
    name: &Name,
    formed: &Formed,
    layout: Layout,
) -> Result<Layout, TypeFault>
    ensures { Gives result (spec.with_member base.now name.now formed.now layout) }
{
    let mut layout = layout;
    let t = inner_type(alloc, formed, base.share(alloc)?, name.place)?;
    layout.add(alloc, name, t)?;
    Ok(layout)
}

/// The same, in a scope within.
pub fn inside(around: Around, scope: Scope) -> Around
    ensures { result ≡ spec.inside around scope }
{
    Around {
        scope,
        in_entry: around.in_entry,
    }
}

/// Declares a parameter with a name, its type adjusted. Its faults stand at the name.
pub fn named_parameter(
    alloc: Global,
    tables: &mut Tables,
    around: Around,
    name: &Name,
    head: Head,
    formed: &Formed,
) -> Result<Param, TypeFault>
    ensures { Leaves result tables.new (spec.parameter (Some name.now) head formed.now around tables.old) }
{
    let Head { base, .. } = head;
    let t = inner_type(alloc, formed, base, name.place)?;
    let ctype = t.decayed(alloc)?;
    let own = ctype.share(alloc)?;
    declare_parameter(alloc, tables, around.scope, Some(name), own, name.place)?;
    Ok(Param {
        name: name.text.text().try_clone(alloc)?,
        place: name.place,
        ctype,
    })
}

/// Declares a parameter without a name, its type adjusted. Its faults stand at its first token.
pub fn unnamed_parameter(
    alloc: Global,
    tables: &mut Tables,
    around: Around,
    head: Head,
    formed: &Formed,
) -> Result<Param, TypeFault>
    ensures { Leaves result tables.new (spec.parameter None head formed.now around tables.old) }
{
    let Head { base, first, .. } = head;
    let t = inner_type(alloc, formed, base, first)?;
    let ctype = t.decayed(alloc)?;
    let own = ctype.share(alloc)?;
    declare_parameter(alloc, tables, around.scope, None, own, first)?;
    Ok(Param {
        name: List::new(alloc),
        place: first,
        ctype,
    })
}
