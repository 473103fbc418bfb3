//! All that a run needs to know.

ghost use Rattle.std.specs.Prelude.{◌≡◌, ◌≤◌, All, IfOk, length, map};
ghost use Rattle.ns_types.specs.Veneers.{place_of};
ghost use Rattle.c_tree.specs.Nodes.{function_nodes};
ghost use Rattle.c_world.specs.Plans.{plan_of};
ghost use Rattle.c_world.specs.Setups as spec;

use crate::plan::plan_of;
use c_homes::homes;
use c_names::Ident;
use c_tree::{Program, TFunction};
use c_world::{Door, Plan, Setup};
use cm_base::{List, NoMemory};
use ns_types::{Turn, Veneer, Veneers};
use std::alloc::Global;

/// The place of a name among names, the first one where it stands more than once.
fn place_of(names: &[Ident], name: &[u8]) -> Option<u32>
    requires { length names.now ≤ 512 }
    ensures { result ≡ place_of names.now name.now }
{
    let mut n: u32 = 0;
    for other in names {
        if other.as_slice() == name {
            return Some(n);
        }
        n += 1;
    }
    None
}

/// The doors of veneers.
fn doors_of(alloc: Global, entries: &[Ident], veneers: &[Veneer]) -> Result<List<Door>, NoMemory>
    requires { length entries.now ≤ 512 }
    ensures { IfOk result (λ doors. doors ≡ map (spec.door_of entries.now) veneers.now) }
{
    let mut doors = List::new(alloc);
    for v in veneers {
        let entry = place_of(entries, v.name.as_slice());
        doors.push(Door {
            address: v.address,
            entry,
        })?;
    }
    Ok(doors)
}

/// The plans of functions.
fn plans_of(alloc: Global, functions: &[TFunction]) -> Result<List<Plan>, NoMemory>
    requires { All (λ f. function_nodes f ≤ 2000) functions.now }
    ensures { IfOk result (λ plans. plans ≡ map plan_of functions.now) }
{
    let mut plans = List::new(alloc);
    for f in functions {
        plans.push(plan_of(alloc, f)?)?;
    }
    Ok(plans)
}

/// The numbers of the entry functions.
fn entries_of(alloc: Global, functions: &[TFunction]) -> Result<List<u32>, NoMemory>
    ensures { IfOk result (λ entries. entries ≡ spec.entry_numbers 0 functions.now) }
{
    let mut entries = List::new(alloc);
    let mut n: u32 = 0;
    for f in functions {
        if f.entry {
            entries.push(n)?;
        }
        n = n.checked_add(1).ok_or(NoMemory)?;
    }
    Ok(entries)
}

/// Works out what a run of a program needs to know, where its entries are called at these veneers.
#[tactic(auto, using(crate::proofs::ReadyLaws::few_nodes, crate::proofs::ReadyLaws::few_globals))]
pub fn prepare<'a>(
    alloc: Global,
    program: &'a Program,
    veneers: &'a Veneers,
    script: &'a [Turn],
    turns: u32,
) -> Result<Setup<'a>, NoMemory>
    ensures { IfOk result
        (λ s. s ≡ record { program = program.now; veneers = veneers.now.list; script = script.now; turns = turns }) }
{
    program.within();
    let functions = program.functions.as_slice();
    let plans = plans_of(alloc, functions)?;
    let entries = entries_of(alloc, functions)?;
    let homes = homes(alloc, program.globals.as_slice())?;
    let doors = doors_of(alloc, program.entries.as_slice(), veneers.list.as_slice())?;
    Ok(Setup::new(
        program, veneers, script, turns, plans, entries, homes, doors,
    ))
}
