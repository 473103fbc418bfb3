//! The front end.

ghost use Rattle.std.specs.Prelude.{◌≡◌, ◌≤◌, length, nat_eq};
ghost use Rattle.std.specs.List.{list_all};
ghost use Rattle.c_front.specs.Answers.{Answers, JoinTold};
ghost use Rattle.c_front.specs.Numbers.{all_numbered, unit_numbered};

use crate::sources::{BuildFault, Source};
use crate::units::units_of;
use c_join::{JoinFault, join};
use c_tree::{Program, TFunction, TGlobal, TUnit};
use cm_base::{Refusal, Shared};
use std::alloc::Global;

/// Whether all these functions have this number as their unit.
fn have_functions(number: u32, functions: &[TFunction]) -> bool
    ensures { result ≡ list_all (λ f. nat_eq f.unit number) functions.now }
{
    functions.iter().all(|f| f.unit == number)
}

/// The same of globals.
fn have_globals(number: u32, globals: &[TGlobal]) -> bool
    ensures { result ≡ list_all (λ g. nat_eq g.unit number) globals.now }
{
    globals.iter().all(|g| g.unit == number)
}

/// Whether what a unit defines has this number as its unit.
fn is_numbered(number: u32, unit: &TUnit) -> bool
    ensures { result ≡ unit_numbered number unit.now }
{
    have_functions(number, unit.functions.as_slice())
        && have_globals(number, unit.globals.as_slice())
}

/// The same of each unit.
fn are_numbered(units: &[Shared<TUnit>]) -> bool
    requires { length units.now ≤ 32 }
    ensures { result ≡ all_numbered 0 units.now }
{
    for i in 0..units.len() {
        if !is_numbered(i as u32, units[i].get()) {
            return false;
        }
    }
    true
}

/// The program that units join to, or the first fault.
#[tactic(auto, using(crate::proofs::AnswerLaws::numbered))]
fn joined(alloc: Global, units: &[Shared<TUnit>]) -> Result<Shared<Program>, BuildFault>
    requires { length units.now ≤ 32 }
    ensures { JoinTold units.now result }
{
    // All places in a tree have the number of their source, as its tokens have it.
    if !are_numbered(units) {
        return Err(BuildFault::NoMemory);
    }
    match join(alloc, units) {
        Ok(program) => Ok(program),
        Err(JoinFault::Named { code, name }) => {
            Err(BuildFault::Refused(Refusal::Named { code, name }))
        }
        Err(JoinFault::Count { code, found }) => {
            Err(BuildFault::Refused(Refusal::Count { code, found }))
        }
        Err(JoinFault::NoMemory) => Err(BuildFault::NoMemory),
    }
}

/// The program of these sources, or the first fault: for each source in order those of its text, its tokens and its types, and then
/// those of the join.
///
/// # Errors
/// `Refused`: the codes of docs/LANGUAGE.md. `NoMemory`: memory ran out.
#[tactic(auto, using(crate::proofs::AnswerLaws::few_units, crate::proofs::AnswerLaws::finished, crate::proofs::AnswerLaws::unfinished))]
pub fn front(alloc: Global, sources: &[Source]) -> Result<Shared<Program>, BuildFault>
    requires { length sources.now ≤ 32 }
    ensures { Answers sources.now result }
{
    let units = units_of(alloc, sources)?;
    joined(alloc, units.as_slice())
}
