//! The parts of the program.
ghost use Rattle.std.specs.Prelude.{◌≡◌, ◌≤◌, ◌++◌, IfOk, OnOk, IsTrue, length, map};
ghost use Rattle.join_laws.specs.Keys.{per_unit};
ghost use Rattle.join_laws.specs.Renumber as renumber;
ghost use Rattle.join_laws.specs.Joined as spec;
ghost use Rattle.c_tree.specs.Limits.{capped};

use crate::bodies::renumber_stmt;
use crate::seen::Seen;
use c_names::Ident;
use c_tree::{TFunction, TGlobal, TLocal, TUnit, program_nodes};
use cm_base::{List, NoMemory, Shared};
use std::alloc::Global;

/// The nodes of all units, at most as many as a u64 counts.
pub fn units_nodes(units: &[Shared<TUnit>]) -> u64
    ensures { result ≡ capped (spec.units_nodes units.now) }
{
    let mut n: u64 = 0;
    for u in units {
        let unit = u.get();
        n = n.saturating_add(program_nodes(unit.functions.as_slice(), unit.globals.as_slice()));
    }
    n
}

fn copy_locals(alloc: Global, locals: &[TLocal]) -> Result<List<TLocal>, NoMemory>
    ensures { IfOk result (λ r. r ≡ locals.now) }
{
    let mut done = List::new(alloc);
    for x in locals {
        let name = x.name.try_clone(alloc)?;
        let ctype = x.ctype.share(alloc)?;
        done.push(TLocal { name, ctype })?;
    }
    Ok(done)
}

fn renumber_function(
    alloc: Global,
    f: &TFunction,
    numbers: &[Option<u32>],
) -> Result<TFunction, NoMemory>
    ensures { IfOk result (λ r. r ≡ renumber.renumbered_function numbers.now f.now) }
{
    Ok(TFunction {
        name: f.name.copy(alloc)?,
        unit: f.unit,
        ctype: f.ctype.share(alloc)?,
        entry: f.entry,
        is_static: f.is_static,
        params: copy_locals(alloc, f.params.as_slice())?,
        locals: copy_locals(alloc, f.locals.as_slice())?,
        body: renumber_stmt(alloc, f.body.get(), numbers)?,
        place: f.place,
    })
}

fn copy_global(alloc: Global, g: &TGlobal) -> Result<TGlobal, NoMemory>
    ensures { IfOk result (λ r. r ≡ g.now) }
{
    Ok(TGlobal {
        name: g.name.copy(alloc)?,
        unit: g.unit,
        ctype: g.ctype.share(alloc)?,
        noinit: g.noinit,
        init: g.init.try_clone(alloc)?,
        place: g.place,
    })
}

/// Adds the functions of a unit, renumbered.
fn add_functions(
    alloc: Global,
    functions: &[TFunction],
    numbers: &[Option<u32>],
    done: &mut List<TFunction>,
) -> Result<(), NoMemory>
    ensures { OnOk result (done.new ≡ done.old ++ map (renumber.renumbered_function numbers.now) functions.now) }
{
    for f in functions {
        done.push(renumber_function(alloc, f, numbers)?)?;
    }
    Ok(())
}

/// Adds the globals of a unit.
fn add_globals(alloc: Global, globals: &[TGlobal], done: &mut List<TGlobal>) -> Result<(), NoMemory>
    ensures { OnOk result (done.new ≡ done.old ++ globals.now) }
{
    for g in globals {
        done.push(copy_global(alloc, g)?)?;
    }
    Ok(())
}

/// The globals of all units, in order.
pub fn all_globals(alloc: Global, units: &[Shared<TUnit>]) -> Result<List<TGlobal>, NoMemory>
    ensures { IfOk result (λ r. r ≡ spec.all_globals units.now) }
{
    let mut done = List::new(alloc);
    for u in units {
        add_globals(alloc, u.get().globals.as_slice(), &mut done)?;
    }
    Ok(done)
}

/// Numbers that are small, in less room.
fn narrowed(alloc: Global, numbers: &[Option<usize>]) -> Result<List<Option<u32>>, NoMemory>
    requires { IsTrue (renumber.all_small numbers.now) }
    ensures { IfOk result (λ r. r ≡ numbers.now) }
{
    let mut done = List::new(alloc);
    for n in numbers {
        done.push(narrow(*n))?;
    }
    Ok(done)
}

fn narrow(n: Option<usize>) -> Option<u32>
    requires { IsTrue (renumber.is_small n) }
    ensures { result ≡ n }
{
    match n {
        None => None,
        Some(n) => Some(n as u32),
    }
}

/// The functions of all units, in order, renumbered.
pub fn all_functions<'a>(
    alloc: Global,
    units: &'a [Shared<TUnit>],
    defined: &Seen<'a>,
) -> Result<List<TFunction>, NoMemory>
    requires functions { length defined.now.functions ≤ 16000 }
    requires globals { length defined.now.globals ≤ 16000 }
    ensures { IfOk result (λ r. r
        ≡ per_unit (spec.unit_functions defined.now.functions defined.now.globals) 0 units.now) }
{
    let mut done = List::new(alloc);
    for i in 0..units.len() {
        let unit = units[i].get();
        let numbers = defined.numbers(alloc, i, unit.externs.as_slice())?;
        let numbers = narrowed(alloc, numbers.as_slice())?;
        add_functions(
            alloc,
            unit.functions.as_slice(),
            numbers.as_slice(),
            &mut done,
        )?;
    }
    Ok(done)
}

/// The names of the entry functions, in order.
pub fn entry_names(alloc: Global, functions: &[TFunction]) -> Result<List<Ident>, NoMemory>
    ensures { IfOk result (λ r. r ≡ spec.entry_names functions.now) }
{
    let mut names = List::new(alloc);
    for f in functions {
        if f.entry {
            names.push(f.name.copy(alloc)?)?;
        }
    }
    Ok(names)
}
