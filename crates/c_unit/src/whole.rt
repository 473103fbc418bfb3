//! Units: what their parts define, with the functions and the globals that they declare.

ghost use Rattle.std.specs.Prelude.{◌≡◌, IfOk};
ghost use Rattle.c_tree.specs.Conditions.{IsUnit};
ghost use Rattle.c_rows.specs.Answers.{Gives};
ghost use Rattle.c_define.specs.Units as spec;

use c_ast::Unit;
use c_define::{Made, parts_typed};
use c_rows::TypeFault;
use c_scope::{Known, Tables};
use c_tree::{Extern, TUnit};
use cm_base::{List, NoMemory, Shared};
use define_laws::laws::unit_law;
use std::alloc::Global;

fn extern_of(alloc: Global, known: &Known) -> Result<Extern, NoMemory>
    ensures { IfOk result (λ x. x ≡ spec.extern_of known.now) }
{
    Ok(Extern {
        name: known.name.copy(alloc)?,
        ctype: known.ctype.share(alloc)?,
        is_static: known.state.is_static,
        place: known.place,
    })
}

/// What a unit declares.
fn externs_of(alloc: Global, known: &[Known]) -> Result<List<Extern>, NoMemory>
    ensures { IfOk result (λ xs. xs ≡ spec.externs_of known.now) }
{
    let mut all = List::new(alloc);
    for one in known {
        all.push(extern_of(alloc, one)?)?;
    }
    Ok(all)
}

fn unit_of(alloc: Global, all: Made, known: &[Known]) -> Result<Shared<TUnit>, NoMemory>
    requires { IsUnit (spec.unit_of all known.now) }
    ensures { IfOk result (λ u. u ≡ spec.unit_of all known.now) }
{
    let externs = externs_of(alloc, known)?;
    let Made { functions, globals } = all;
    Shared::new(alloc, TUnit::new(functions, globals, externs))
}

/// The typed tree of a unit, or its first fault: declarations in order, and in each of them its parts before the whole.
///
/// # Errors
/// `At`: the codes 20 to 29, 40 to 45, 50, 53, 55 and 56 of docs/LANGUAGE.md. `NoMemory`: memory ran out.
pub fn check(alloc: Global, unit: &Unit) -> Result<Shared<TUnit>, TypeFault>
    ensures { Gives result (spec.unit_typed unit.now) }
{
    let mut tables = Tables::new(alloc);
    let all = parts_typed(alloc, unit.parts.as_slice(), &mut tables)?;
    unit_law();
    Ok(unit_of(alloc, all, tables.externs.as_slice())?)
}
