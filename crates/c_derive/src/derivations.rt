//! What declarators make of the type before them.

ghost use Rattle.std.specs.Prelude.{◌≡◌, IfOk, [], reverse};
ghost use Rattle.c_rows.specs.Answers.{Gives};
ghost use Rattle.c_derive.specs.Derivations as spec;

use c_ast::Star;
use c_rows::{TypeFault, at};
use c_types::CType;
use cm_base::{List, NoMemory, Place, Shared, Text};
use std::alloc::Global;

/// A parameter. The name of one without a name is empty, and its place is that of its first token.
#[derive(Drop)]
pub struct Param {
    pub name: Text,
    pub place: Place,
    /// Its type; an array is a pointer.
    pub ctype: CType,
}

/// A step from a type to the next that is derived from it.
#[derive(Drop)]
pub enum Derivation {
    Pointer,
    /// `const` behind a star.
    Const,
    /// `volatile` behind a star.
    Volatile,
    Array(Option<u32>),
    Function(List<Param>),
}

/// The derivations of stars and the qualifiers among them.
fn pointers(alloc: Global, stars: &[Star]) -> Result<List<Derivation>, NoMemory>
    ensures { IfOk result (λ r. r ≡ spec.pointer_parts [] stars.now) }
{
    let mut done = List::new(alloc);
    for star in stars {
        match star {
            Star::Star(_) => done.push(Derivation::Pointer)?,
            Star::Const(_) => done.push(Derivation::Const)?,
            Star::Volatile(_) => done.push(Derivation::Volatile)?,
            Star::Attr(_) => {}
        }
    }
    Ok(done)
}

/// The derivations of stars, a name, and suffixes, which are in the order of the text. The stars act first, and then the
/// suffixes, the last one first; those of a declarator in parentheses follow.
pub fn declarator_derivations(
    alloc: Global,
    stars: &[Star],
    suffixes: List<Derivation>,
    inner: List<Derivation>,
) -> Result<List<Derivation>, NoMemory>
    ensures { IfOk result (λ r. r ≡ spec.derivations (spec.pointer_parts [] stars.now) suffixes inner) }
{
    let mut done = pointers(alloc, stars)?;
    done.append(reversed(suffixes))?;
    done.append(inner)?;
    Ok(done)
}

/// The last one first.
fn reversed(all: List<Derivation>) -> List<Derivation>
    ensures { result ≡ reverse all }
{
    let mut items = all.into_vec();
    items.reverse();
    List::from_vec(items)
}

/// The type that one derivation makes of a type. The faults are those of an array or a function type, at `place`: E27 an
/// array of functions, a function that gives an array or a function; E25 an array of what is incomplete; E24 one of more
/// than 49,152 bytes; E29 a function that gives a struct.
fn derive(alloc: Global, by: &Derivation, t: CType, place: Place) -> Result<CType, TypeFault>
    ensures { Gives result (spec.derive t by.now place) }
{
    match by {
        Derivation::Pointer => Ok(CType::pointer_to(Shared::new(alloc, t)?)),
        Derivation::Const => {
            let mut t = t;
            t.is_const = true;
            Ok(t)
        }
        Derivation::Volatile => {
            let mut t = t;
            t.is_volatile = true;
            Ok(t)
        }
        Derivation::Array(len) => array_type(alloc, t, *len, place),
        Derivation::Function(params) => function_type(alloc, params.as_slice(), t, place),
    }
}

fn array_type(alloc: Global, t: CType, len: Option<u32>, place: Place) -> Result<CType, TypeFault>
    ensures { Gives result (spec.array_type t len place) }
{
    if t.is_function() {
        return Err(at(27, place));
    }
    if !t.is_complete() {
        return Err(at(25, place));
    }
    let whole = CType::array_of(Shared::new(alloc, t)?, len);
    if !whole.fits() {
        return Err(at(24, place));
    }
    Ok(whole)
}

fn function_type(
    alloc: Global,
    params: &[Param],
    t: CType,
    place: Place,
) -> Result<CType, TypeFault>
    ensures { Gives result (spec.function_type t params.now place) }
{
    if !t.is_result() {
        return Err(at(27, place));
    }
    if t.is_struct() {
        return Err(at(29, place));
    }
    let types = param_types(alloc, params)?;
    Ok(CType::function(Shared::new(alloc, t)?, types, false))
}

fn param_types(alloc: Global, params: &[Param]) -> Result<List<CType>, NoMemory>
    ensures { IfOk result (λ r. r ≡ spec.param_types params.now) }
{
    let mut done = List::new(alloc);
    for p in params {
        done.push(p.ctype.parameter(alloc)?)?;
    }
    Ok(done)
}

/// The type that all of them make of a type, one after another.
pub fn derived(
    alloc: Global,
    all: &[Derivation],
    t: CType,
    place: Place,
) -> Result<CType, TypeFault>
    ensures { Gives result (spec.derived t all.now place) }
{
    let mut t = t;
    for by in all {
        t = derive(alloc, by, t, place)?;
    }
    Ok(t)
}
