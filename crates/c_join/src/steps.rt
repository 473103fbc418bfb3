//! The steps of a join over all units.
ghost use Rattle.std.specs.Prelude.{◌≡◌, None, IfOk, All};
ghost use Rattle.join_laws.specs.Keys as keys;
ghost use Rattle.join_laws.specs.Joined as spec;
ghost use Rattle.c_tree.specs.Conditions.{IsUnit};

use crate::earliest::Earliest;
use crate::names::Names;
use crate::seen::Seen;
use crate::uses::note_functions;
use c_tree::TUnit;
use cm_base::{NoMemory, Shared};
use std::alloc::Global;

/// What holds of each unit.
pub fn all_within(units: &[Shared<TUnit>])
    ensures { All IsUnit units.now }
{
    for u in units {
        u.get().within();
    }
}

/// The names of each unit's externs.
pub fn unit_names<'a>(alloc: Global, units: &'a [Shared<TUnit>]) -> Result<Vec<Names<'a>>, NoMemory>
    ensures { IfOk result (λ r. r.items ≡ keys.unit_names units.now) }
{
    let mut names = Vec::new(alloc);
    for u in units {
        let unit = u.get();
        unit.within();
        names.push(Names::of(alloc, unit.externs.as_slice())?)?;
    }
    Ok(names)
}

/// Who is defined.
pub fn seen_in<'a>(
    alloc: Global,
    units: &'a [Shared<TUnit>],
    names: &[Names<'a>],
) -> Result<Seen<'a>, NoMemory>
    requires { names.now ≡ keys.unit_names units.now }
    ensures { IfOk result (λ r. r ≡ spec.seen_in units.now) }
{
    let mut seen = Seen::nobody(alloc);
    for i in 0..units.len() {
        let unit = units[i].get();
        let externs = unit.externs.as_slice();
        seen.see_functions(unit.functions.as_slice(), i, externs, &names[i])?;
        seen.see_globals(unit.globals.as_slice(), i, externs, &names[i])?;
    }
    Ok(seen)
}

/// The earliest use of a name that no unit defines.
pub fn undefined_use<'a>(
    alloc: Global,
    units: &'a [Shared<TUnit>],
    defined: &Seen<'a>,
) -> Result<Earliest<'a>, NoMemory>
    ensures { IfOk result (λ r. r
        ≡ spec.undefined_from defined.now.functions defined.now.globals 0 None units.now) }
{
    let mut first = Earliest::none();
    for i in 0..units.len() {
        let unit = units[i].get();
        let externs = unit.externs.as_slice();
        let numbers = defined.numbers(alloc, i, externs)?;
        note_functions(
            unit.functions.as_slice(),
            numbers.as_slice(),
            externs,
            &mut first,
        );
    }
    Ok(first)
}
