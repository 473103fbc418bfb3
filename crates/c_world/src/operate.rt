//! Operators and tests.

ghost use Rattle.std.specs.Prelude.{◌≡◌, ℕ, List, true, not, eqb, map};
ghost use Rattle.std.specs.List.{position_or_len};
ghost use Rattle.c_const.specs.Constant as consts;
ghost use Rattle.c_const.specs.Operate.{operate as operate_of};
ghost use Rattle.c_mean.specs.Parts.{or_halt};
ghost use Rattle.c_mean.specs.Stmts as stmts;
ghost use Rattle.c_tree.specs.declared.expr.BinOp.TheVariants as bin;
ghost use Rattle.ns_types.specs.Operators as ops;
ghost use Rattle.ns_types.specs.Turns as turns;
ghost use Rattle.c_world.specs.Seen as spec;

use crate::halt::Halt;
use crate::live::{Live, stop};
use c_const::operate;
use c_tree::{BinOp, Part};

/// 1 or 0.
pub fn truth(holds: bool) -> u32
    ensures { result ≡ ops.truth holds }
{
    if holds { 1 } else { 0 }
}

/// 1 where a word isn't 0, and 0 where it is.
pub fn tested(x: u32) -> u32
    ensures { result ≡ ops.truth (not (eqb x 0)) }
{
    truth(x != 0)
}

/// An operator on two words, signed or not.
pub fn operated(live: &mut Live, op: BinOp, signed: bool, x: u32, y: u32) -> Result<u32, Halt>
    ensures { (script : List turns.Turn) (l : List ℕ)
        → spec.Leaves result l (spec.seen script live.new) (or_halt (operate_of op signed x y) l (spec.seen script live.old)) }
{
    match operate(op, signed, x, y) {
        Ok(z) => Ok(z),
        Err(why) => Err(stop(live, why)),
    }
}

/// How many objects of a size two pointers are apart.
pub fn difference(live: &mut Live, x: u32, y: u32, size: u32) -> Result<u32, Halt>
    ensures { (script : List turns.Turn) (l : List ℕ)
        → spec.Leaves result l (spec.seen script live.new) (or_halt (operate_of bin.Div true (ops.subtract x y) size) l (spec.seen script live.old)) }
{
    operated(live, BinOp::Div, true, x.wrapping_sub(y), size)
}

/// A pointer so many objects of a size on.
pub fn pointer_sum(size: u32, x: u32, y: u32) -> u32
    ensures { result ≡ consts.pointer_sum size x y }
{
    x.wrapping_add(y.wrapping_mul(size))
}

/// Whether control enters at a part of a switch for a value.
fn is_case(part: &Part, x: u32) -> bool
    ensures { result ≡ (stmts.arm part.now).is_case x }
{
    match part {
        Part::Case(n) => x == *n,
        _ => false,
    }
}

/// Whether control enters there as the default.
fn is_default(part: &Part) -> bool
    ensures { result ≡ (stmts.arm part.now).is_default }
{
    match part {
        Part::Default => true,
        _ => false,
    }
}

/// The number of parts before the case of a value.
fn case_at(x: u32, parts: &[Part]) -> usize
    ensures { result ≡ position_or_len (λ (arm : stmts.Arm). arm.is_case x) (map stmts.arm parts.now) }
{
    let mut k: usize = 0;
    for part in parts {
        if is_case(part, x) {
            return k;
        }
        k += 1;
    }
    k
}

/// The number of parts before the default.
fn default_at(parts: &[Part]) -> usize
    ensures { result ≡ position_or_len (λ (arm : stmts.Arm). arm.is_default) (map stmts.arm parts.now) }
{
    let mut k: usize = 0;
    for part in parts {
        if is_default(part) {
            return k;
        }
        k += 1;
    }
    k
}

/// The number of parts of a switch before the one where control enters for a value (C11 6.8.4.2).
pub fn skipped(x: u32, parts: &[Part]) -> usize
    ensures { result ≡ stmts.skipped x (map stmts.arm parts.now) }
{
    let k = case_at(x, parts);
    if k < parts.len() {
        k
    } else {
        default_at(parts)
    }
}
