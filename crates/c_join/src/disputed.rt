//! Names whose types differ between units.
ghost use Rattle.std.specs.Prelude.{◌≡◌, [], option_map};
ghost use Rattle.join_laws.specs.Joined as spec;
ghost use Rattle.c_tree.specs.Conditions.{declared, extern_names};
ghost use Rattle.join_laws.specs.Keys.{unit_names};

use crate::names::Names;
use c_tree::{Extern, TUnit};
use c_types::same_across_units;
use cm_base::Shared;

/// Whether a unit declares this name for all units with another type.
fn differs(x: &Extern, other: &TUnit, names: &Names) -> bool
    requires { names.now ≡ extern_names other.now.externs }
    ensures { result ≡ spec.differs x.now (declared other.now.externs x.now.name) }
{
    match names.place(x.name.as_slice()) {
        None => false,
        Some(at) => match other.externs.get(at) {
            None => false,
            Some(y) => !y.is_static && !same_across_units(&y.ctype, &x.ctype),
        },
    }
}

/// Whether an earlier unit declares this name with another type.
fn is_disputed(x: &Extern, before: &[Shared<TUnit>], names: &[Names]) -> bool
    requires { names.now ≡ unit_names before.now }
    ensures { result ≡ spec.is_disputed before.now x.now }
{
    if x.is_static {
        return false;
    }
    for i in 0..before.len() {
        if differs(x, before[i].get(), &names[i]) {
            return true;
        }
    }
    false
}

/// The first name of these externs that an earlier unit declares with another type.
fn first_disputed<'a>(
    externs: &'a [Extern],
    before: &[Shared<TUnit>],
    names: &[Names],
) -> Option<&'a [u8]>
    requires { names.now ≡ unit_names before.now }
    ensures { option_map (λ n. n.now) result ≡ spec.first_disputed before.now externs.now }
{
    for x in externs {
        if is_disputed(x, before, names) {
            return Some(x.name.as_slice());
        }
    }
    None
}

/// The first name of all units that an earlier unit declares with another type.
pub fn disputed<'a>(units: &'a [Shared<TUnit>], names: &[Names]) -> Option<&'a [u8]>
    requires { names.now ≡ unit_names units.now }
    ensures { option_map (λ n. n.now) result ≡ spec.disputed [] units.now }
{
    for i in 0..units.len() {
        let found = first_disputed(units[i].get().externs.as_slice(), &units[..i], &names[..i]);
        if found.is_some() {
            return found;
        }
    }
    None
}
