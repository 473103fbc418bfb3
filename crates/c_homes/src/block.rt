//! Blocks of the data stack.

ghost use Rattle.std.specs.Prelude.{◌≡◌, ◌≤◌, ◌+◌, ◌<◌, ◌||◌, false, IfOk, OnOk, List, ℕ, length, slice_index_or};
ghost use Rattle.c_homes.specs.Blocks as spec;
ghost use Rattle.c_mean.specs.Homes.{block_bytes, block_of, with_local};
ghost use Rattle.c_tree.specs.Nodes.{function_nodes};
ghost use Rattle.c_tree.specs.Placed.{AreMarks, is_aggregate};

use crate::globals::{begins, bytes_of, round_up};
use crate::marks::{Marks, marks_of};
use c_tree::{TFunction, TLocal};
use cm_base::{List, NoMemory};
use std::alloc::Global;

/// The block of a function on the data stack.
#[derive(Drop)]
pub struct Block {
    /// Where each parameter and local stands in it, parameters first, if it is placed.
    pub offsets: List<Option<u32>>,
    pub bytes: u32,
}

/// Whether a local is placed that is local n.
fn is_placed(x: &TLocal, n: usize, marks: &Marks) -> bool
    requires { n < 2048 }
    ensures { result ≡ (is_aggregate x.now.ctype || slice_index_or marks.now.set n false) }
{
    x.ctype.is_array() || x.ctype.is_struct() || marks.has(n)
}

/// Places a parameter or local, or says that it isn't placed. Its type is too large for the data stack only where there is no
/// memory for it.
fn add_local(block: &mut Block, x: &TLocal, marks: &Marks) -> Result<(), NoMemory>
    requires { length block.old.offsets < 2048 }
    ensures many { OnOk result (length block.new.offsets ≡ length block.old.offsets + 1) }
    ensures placed { OnOk result
        ((taken : List ℕ) → AreMarks marks.now.set taken → spec.seen block.new ≡ with_local taken (spec.seen block.old) x.now) }
{
    if !is_placed(x, block.offsets.len(), marks) {
        return block.offsets.push(None);
    }
    if !x.ctype.fits() {
        return Err(NoMemory);
    }
    let at = begins(block.bytes as u64, &x.ctype);
    block.bytes = word(at + bytes_of(&x.ctype))?;
    let offset = word(at)?;
    block.offsets.push(Some(offset))
}

/// A number that a word holds.
fn word(n: u64) -> Result<u32, NoMemory>
    ensures { IfOk result (λ x. x ≡ n) }
{
    match u32::try_from(n) {
        Ok(x) => Ok(x),
        Err(_) => Err(NoMemory),
    }
}

/// Places parameters or locals, in order of declaration.
fn add_locals(block: &mut Block, xs: &[TLocal], marks: &Marks) -> Result<(), NoMemory>
    requires { length block.old.offsets + length xs.now ≤ 2048 }
    ensures many { OnOk result (length block.new.offsets ≡ length block.old.offsets + length xs.now) }
    ensures placed { OnOk result
        ((taken : List ℕ) → AreMarks marks.now.set taken → spec.seen block.new ≡ spec.with_locals taken (spec.seen block.old) xs.now) }
{
    for x in xs {
        add_local(block, x, marks)?;
    }
    Ok(())
}

/// The block of a function: its placed parameters and locals in order of declaration, each aligned, and the whole rounded up
/// to a multiple of 8.
#[tactic(auto, using(crate::proofs::BlockLaws::block_is))]
pub fn block_of(alloc: Global, f: &TFunction) -> Result<Block, NoMemory>
    requires { function_nodes f.now ≤ 2000 }
    ensures { IfOk result (λ b. b ≡ record { offsets = (block_of f.now).offsets; bytes = block_bytes f.now }) }
{
    let marks = marks_of(f.body.get());
    let mut block = Block {
        offsets: List::new(alloc),
        bytes: 0,
    };
    add_locals(&mut block, f.params.as_slice(), &marks)?;
    add_locals(&mut block, f.locals.as_slice(), &marks)?;
    block.bytes = word(round_up(block.bytes as u64, 8))?;
    Ok(block)
}
