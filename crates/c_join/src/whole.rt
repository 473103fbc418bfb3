//! The join.
ghost use Rattle.std.specs.Prelude.{◌≡◌, ◌⊎◌, ◌≤◌, ◌<◌, None, Some, Ok, Err, IfErr, OnOk, All, length, option_map, ℕ, List};
ghost use Rattle.c_tree.specs.Conditions.{IsProgram, IsUnit};
ghost use Rattle.join_laws.specs.Keys.{unit_names};
ghost use Rattle.join_laws.specs.Joined as spec;
ghost use Rattle.join_laws.specs.declared.fault.JoinFault.TheVariants as faults;
ghost use Rattle.c_join.specs.Causes.{Cause, Joins, NoneUndefined, made};

use crate::build::{all_functions, all_globals, entry_names, units_nodes};
use crate::disputed::disputed;
use crate::names::Names;
use crate::seen::Seen;
use crate::steps::{all_within, seen_in, undefined_use, unit_names};
use c_tree::{Program, TFunction, TGlobal, TUnit, globals_bytes};
use cm_base::{List, Shared, Text};
use join_laws::JoinFault;
use std::alloc::Global;

/// A fault where there is a name.
fn no_name(alloc: Global, code: u8, name: Option<&[u8]>) -> Result<(), JoinFault>
    ensures ok { OnOk result (option_map (λ n. n.now) name.entry ≡ None) }
    ensures fault { IfErr result (λ e. (e ≡ faults.NoMemory)
        ⊎ ((n : List ℕ) × (option_map (λ n. n.now) name.entry ≡ Some n) × (e ≡ faults.Named code n))) }
{
    match name {
        None => Ok(()),
        Some(name) => {
            let name = Text::from_slice(alloc, name)?;
            Err(JoinFault::Named { code, name })
        }
    }
}

/// A fault where there are more than `most`.
fn at_most(code: u8, most: u64, found: u64) -> Result<(), JoinFault>
    ensures ok { OnOk result (found ≤ most) }
    ensures fault { IfErr result (λ e. (most < found) × (e ≡ faults.Count code found)) }
{
    if found <= most {
        return Ok(());
    }
    Err(JoinFault::Count { code, found })
}

/// The first fault of names: 61, 62 or 60.
fn names_agree<'a>(
    alloc: Global,
    units: &'a [Shared<TUnit>],
    names: &[Names<'a>],
    seen: &Seen<'a>,
) -> Result<(), JoinFault>
    requires names { names.now ≡ unit_names units.now }
    requires seen { seen.now ≡ spec.seen_in units.now }
    ensures ok { OnOk result (NoneUndefined units.now) }
    ensures fault { IfErr result (λ e. Joins units.now (Err e)) }
{
    no_name(alloc, 61, seen.again())?;
    no_name(alloc, 62, disputed(units, names))?;
    let missing = undefined_use(alloc, units, seen)?;
    no_name(alloc, 60, missing.name())
}

/// The program of these functions and globals, or 54 for too many entry functions.
fn finished(
    alloc: Global,
    functions: List<TFunction>,
    globals: List<TGlobal>,
) -> Result<Shared<Program>, JoinFault>
    requires { length (spec.entry_names functions) ≤ 512 → IsProgram (made functions globals) }
    ensures { (result ≡ Err faults.NoMemory)
        ⊎ (result ≡ spec.at_most 54 512 (length (spec.entry_names functions)) (Ok (made functions globals))) }
{
    let entries = entry_names(alloc, functions.as_slice())?;
    at_most(54, 512, entries.len() as u64)?;
    let program = Program::new(functions, globals, entries);
    Ok(Shared::new(alloc, program)?)
}

/// The program of units whose names agree, or the first fault of their numbers: 51, 52 or 54.
fn counted<'a>(
    alloc: Global,
    units: &'a [Shared<TUnit>],
    seen: &Seen<'a>,
) -> Result<Shared<Program>, JoinFault>
    requires units { All IsUnit units.now }
    requires numbered { spec.Numbered 0 units.now }
    requires seen { seen.now ≡ spec.seen_in units.now }
    requires names { NoneUndefined units.now }
    ensures { Joins units.now result }
{
    at_most(51, 16_000, units_nodes(units))?;
    let globals = all_globals(alloc, units)?;
    at_most(52, 49_152, globals_bytes(globals.as_slice()))?;
    let functions = all_functions(alloc, units, seen)?;
    finished(alloc, functions, globals)
}

/// The steps of a join, in their order.
fn joined(alloc: Global, units: &[Shared<TUnit>]) -> Result<Shared<Program>, JoinFault>
    requires { spec.Numbered 0 units.now }
    ensures { Joins units.now result }
{
    all_within(units);
    let names = unit_names(alloc, units)?;
    let seen = seen_in(alloc, units, names.as_slice())?;
    names_agree(alloc, units, names.as_slice(), &seen)?;
    counted(alloc, units, &seen)
}

/// The program of these units, or the first fault: a name with two definitions (61), types of a name that differ between
/// units (62), a used name without a definition (60), too many nodes (51), bytes of globals (52) or entry functions (54).
/// The functions and globals of unit i have i as their unit, and so have all places in it.
pub fn join(alloc: Global, units: &[Shared<TUnit>]) -> Result<Shared<Program>, JoinFault>
    requires { spec.Numbered 0 units.now }
    // What is answered is what the units join to, the program or the first fault, unless memory runs out.
    ensures joined { (result ≡ Err faults.NoMemory) ⊎ (result ≡ spec.joined units.now) }
    // Each fault comes for its cause alone.
    ensures fault { IfErr result (Cause units.now) }
{
    joined(alloc, units)
}
