//! The slots of a function, and the bytes of its placed locals.
ghost use Rattle.std.specs.Prelude.{◌≡◌, ◌≤◌, ◌<◌, ◌||◌, IsTrue, false, slice_index_or};
ghost use Rattle.c_tree.specs.Limits.{capped};
ghost use Rattle.c_tree.specs.Nodes.{function_nodes};
ghost use Rattle.c_tree.specs.Placed.{is_aggregate};
ghost use Rattle.c_tree.specs.Slots as spec;
ghost use Rattle.c_types.specs.Sizes.{fits};

use crate::depth::function_depth;
use crate::marks::{Marks, marks_of};
use crate::program::{TFunction, TLocal};
use c_types::{CType, type_size};

fn is_aggregate(t: &CType) -> bool
    ensures { result ≡ is_aggregate t.now }
{
    t.is_array() || t.is_struct()
}

/// Whether a local is placed that is local n.
fn is_placed(local: &TLocal, n: usize, marks: &Marks) -> bool
    requires { n < 2048 }
    ensures { result ≡ (is_aggregate local.now.ctype || slice_index_or marks.now.set n false) }
{
    is_aggregate(&local.ctype) || marks.has(n)
}

/// How many locals aren't placed.
fn unplaced(f: &TFunction) -> u64
    requires { function_nodes f.now ≤ 2000 }
    ensures { result ≡ spec.unplaced f.now }
{
    let marks = marks_of(f.body.get());
    let locals = f.locals.as_slice();
    let mut n = f.params.len();
    let mut count: u64 = 0;
    for local in locals {
        if !is_placed(local, n, &marks) {
            count += 1;
        }
        n += 1;
    }
    count
}

/// The bytes of an object of this type.
pub fn bytes_of(t: &CType) -> u64
    requires { IsTrue (fits t.now) }
    ensures { result ≡ spec.bytes_of t.now }
{
    match type_size(t) {
        Some(size) => u64::from(size),
        None => 0,
    }
}

/// The slots of a function, at most as many as a u64 counts: its parameters, the locals that aren't placed, and the
/// greatest depth of an expression.
pub fn slots(f: &TFunction) -> u64
    requires { function_nodes f.now ≤ 2000 }
    ensures { result ≡ capped (spec.slots f.now) }
{
    (f.params.len() as u64)
        .saturating_add(unplaced(f))
        .saturating_add(function_depth(f))
}

/// The bytes of a function's placed locals, without gaps and without parameters, at most as many as a u64 counts.
pub fn placed_bytes(f: &TFunction) -> u64
    requires nodes { function_nodes f.now ≤ 2000 }
    requires types { IsTrue (spec.all_fit f.now.locals) }
    ensures { result ≡ capped (spec.placed_bytes f.now) }
{
    let marks = marks_of(f.body.get());
    let locals = f.locals.as_slice();
    let mut n = f.params.len();
    let mut bytes: u64 = 0;
    for local in locals {
        if is_placed(local, n, &marks) {
            bytes = bytes.saturating_add(bytes_of(&local.ctype));
        }
        n += 1;
    }
    bytes
}
