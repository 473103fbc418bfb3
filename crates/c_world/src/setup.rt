//! What stays as it is through a run.

ghost use Rattle.std.specs.Prelude.{◌≡◌, option_copied, option_map, slice_get, slice_index};
ghost use Rattle.ns_types.specs.Boundary.{goes_of, goes_outside};
ghost use Rattle.c_mean.specs.Calls.{entry_functions};
ghost use Rattle.c_world.specs.Here as around;
ghost use Rattle.c_world.specs.Plans.{plan_of};
ghost use Rattle.c_world.specs.Setups as spec;
ghost use Rattle.c_world.specs.declared.plan.At.{At};
ghost use Rattle.c_world.specs.declared.plan.Plan.{Plan};

use crate::plan::{At, Plan};
use c_memory::{align, is_nonsecure, is_secure};
use c_tree::{Program, TFunction};
use cm_base::List;
use ns_types::{Goes, Turn, Veneers};
use std::marker::Model;

/// A veneer's address, and the entry that it enters by its place among the program's entries.
#[derive(Clone, Copy)]
pub struct Door {
    pub address: u32,
    pub entry: Option<u32>,
}

/// A program with the veneers of its entries, the turns of a script and the bound on turns, and what is worked out of them once.
#[derive(Drop)]
pub struct Setup<'a> {
    program: &'a Program,
    veneers: &'a Veneers,
    script: &'a [Turn],
    turns: u32,
    plans: List<Plan>,
    /// The numbers of the entry functions among all functions.
    entries: List<u32>,
    /// Where each global stands.
    homes: List<u32>,
    doors: List<Door>,
}

impl<'a> Model for Setup<'a> {
    ghost use Rattle.c_world.specs.Setups as spec;
    ghost use Rattle.std.specs.Coded.{codes};
    ghost use Rattle.c_tree.specs.contracts.program.TFunction as f;
    ghost use Rattle.c_tree.specs.contracts.program.TGlobal as g;

    ghost Value = { spec.Setup };

    ghost coded = { Prim.hlevel (codes, f.the_row.coded, g.the_row.coded) };

    ghost view = { λ s. record { program = s.program.now; veneers = s.veneers.now.list; script = s.script.now; turns = s.turns } };

    ghost invariant = { λ s. spec.AreReady s.program.now s.veneers.now.list s.plans s.entries s.homes s.doors };
}

/// The entry that stands at an address.
fn entry_at(doors: &[Door], a: u32) -> Option<u32>
    ensures { result ≡ spec.entry_at doors.now a }
{
    for door in doors {
        if a == door.address {
            return door.entry;
        }
    }
    None
}

/// Where a branch goes to an even address where no entry stands.
fn goes_outside(a: u32) -> Goes
    ensures { result ≡ goes_outside a }
{
    if a == 0xFEFF_FFFE {
        Goes::Return
    } else if is_nonsecure(a) {
        Goes::Turn
    } else if is_secure(a) {
        Goes::EntryPoint
    } else {
        Goes::Astray
    }
}

impl<'a> Setup<'a> {
    /// A run of a program, from what was worked out of it.
    pub fn new(
        program: &'a Program,
        veneers: &'a Veneers,
        script: &'a [Turn],
        turns: u32,
        plans: List<Plan>,
        entries: List<u32>,
        homes: List<u32>,
        doors: List<Door>,
    ) -> Setup<'a>
        requires { spec.AreReady program.now veneers.now.list plans entries homes doors }
        ensures { result ≡ record { program = program.now; veneers = veneers.now.list; script = script.now; turns = turns } }
    {
        Setup {
            program,
            veneers,
            script,
            turns,
            plans,
            entries,
            homes,
            doors,
        }
    }

    /// The function with this number.
    pub fn function(&self, n: Option<u32>) -> Option<&TFunction>
        ensures { option_copied result ≡ spec.function_at self.now n }
    {
        match n {
            Some(n) => {
                let program = self.program;
                program.functions.get(n as usize)
            }
            None => None,
        }
    }

    /// The plan of a function, by its number.
    #[tactic(auto, using(crate::proofs::SetupLaws::plan_at))]
    pub fn plan(&self, n: Option<u32>) -> Option<&Plan>
        ensures { option_copied result ≡ option_map plan_of (spec.function_at self.now n) }
    {
        match n {
            Some(n) => self.plans.get(n as usize),
            None => None,
        }
    }

    /// The number of the function of an entry.
    #[tactic(auto, using(crate::proofs::SetupLaws::entries_are))]
    pub fn entry(&self, e: u32) -> Option<u32>
        ensures { spec.function_at self.now result ≡ slice_get (entry_functions self.now.program) e }
    {
        match self.entries.get(e as usize) {
            Some(n) => Some(*n),
            None => None,
        }
    }

    /// Where a global stands.
    #[tactic(auto, unfolding(crate::specs::Here::here))]
    pub fn home(&self, n: u32) -> u32
        ensures { (plan : Plan) (at : At) → result ≡ slice_index (around.here self.now plan at).globals n }
    {
        match self.homes.get(n as usize) {
            Some(a) => *a,
            None => 0,
        }
    }

    /// Where a branch goes; bit 0 of the target is ignored.
    #[tactic(auto, using(crate::proofs::SetupLaws::doors_are), unfolding(ns_types::specs::Boundary::goes_of))]
    pub fn goes(&self, target: u32) -> Goes
        ensures { result ≡ goes_of (spec.enters self.now) target }
    {
        let a = align(2, target);
        match entry_at(self.doors.as_slice(), a) {
            Some(e) => Goes::Enter(e),
            None => goes_outside(a),
        }
    }

    /// How many turns each loop may take, and how many entries are entered after one turn of the script.
    #[tactic(auto, unfolding(crate::specs::Here::here))]
    pub fn turns(&self) -> u32
        ensures value { result ≡ self.now.turns }
        ensures here { (plan : Plan) (at : At) → result ≡ (around.here self.now plan at).turns }
    {
        self.turns
    }

    /// The turns of the script.
    pub fn script(&self) -> &[Turn]
        ensures { result.now ≡ self.now.script }
    {
        self.script
    }
}
