//! What a call of a function needs to know.

ghost use Rattle.std.specs.Prelude.{◌≡◌, ◌≤◌, IfOk};
ghost use Rattle.c_tree.specs.Nodes.{function_nodes};
ghost use Rattle.c_world.specs.Plans as spec;

use c_homes::{Block, block_of};
use c_tree::{TFunction, slots};
use c_types::{CType, Shape};
use c_world::{Gives, Plan};
use cm_base::NoMemory;
use std::alloc::Global;

/// What a function with this result makes of a value.
fn gives_as(t: &CType) -> Gives
    ensures { result ≡ spec.gives_as t.now }
{
    if t.is_void() {
        return Gives::Nothing;
    }
    match t.arithmetic() {
        Some(a) => Gives::Narrowed(a),
        None => Gives::Same,
    }
}

/// What a function makes of the value that it gives. An entry function converts it to its result.
fn gives_of(f: &TFunction) -> Gives
    ensures { result ≡ spec.gives_of f.now }
{
    if !f.entry {
        return Gives::Same;
    }
    match &f.ctype.shape {
        Shape::Function { gives, .. } => gives_as(gives.get()),
        _ => Gives::Same,
    }
}

/// The plan of a function.
pub fn plan_of(alloc: Global, f: &TFunction) -> Result<Plan, NoMemory>
    requires { function_nodes f.now ≤ 2000 }
    ensures { IfOk result (λ plan. plan ≡ spec.plan_of f.now) }
{
    let need = need_of(slots(f))?;
    let Block { offsets, bytes } = block_of(alloc, f)?;
    Ok(Plan {
        offsets,
        bytes,
        need,
        gives: gives_of(f),
    })
}

/// The stack that an active function of so many slots needs. There are far fewer slots than a u64 counts.
fn need_of(slots: u64) -> Result<u64, NoMemory>
    ensures { spec.IsNeed result slots }
{
    if slots >= 0x1_0000_0000 {
        return Err(NoMemory);
    }
    Ok(128 + 4 * slots)
}
