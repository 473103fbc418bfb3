//! What code costs, in bytes, and how many statements there are.
ghost use Rattle.std.specs.Prelude.{◌≡◌};
ghost use Rattle.mid_ir.specs.Cost as spec;
ghost use Rattle.mid_ir.specs.Limits.{capped};

use crate::program::MidFn;
use crate::stmt::{MidStmt, SetOp};

fn op_cost(op: SetOp) -> u64
    ensures { result ≡ spec.op_cost op }
{
    match op {
        SetOp::DivS | SetOp::DivU | SetOp::RemS | SetOp::RemU => 48,
        _ => 40,
    }
}

/// The cost of a statement, in bytes, at most as much as a u64 counts: its code has at most so many bytes.
#[cycle(costs)]
pub fn stmt_cost(s: &MidStmt) -> u64
    ensures { result ≡ capped (spec.cost s.now) }
{
    match s {
        MidStmt::Seq(list) => all_cost(list.as_slice()),
        MidStmt::Set(_, op, _, _) => op_cost(*op),
        MidStmt::Load(_, _, _, _) | MidStmt::Store(_, _, _) => 112,
        MidStmt::Call(_, _, args) => (args.len() as u64).saturating_mul(8).saturating_add(64),
        MidStmt::NsCall(_, _, _, _) => 224,
        MidStmt::Range(_, _, _, _) => 320,
        MidStmt::If(_, on, off) => stmt_cost(on.get())
            .saturating_add(stmt_cost(off.get()))
            .saturating_add(40),
        MidStmt::Loop(body) | MidStmt::Block(body) => stmt_cost(body.get()).saturating_add(40),
        MidStmt::Const(_, _)
        | MidStmt::Home(_, _)
        | MidStmt::Caller(_)
        | MidStmt::Break(_)
        | MidStmt::Return(_) => 40,
    }
}

#[cycle(costs)]
fn all_cost(list: &[MidStmt]) -> u64
    ensures { result ≡ capped (spec.all_cost list.now) }
{
    let mut n: u64 = 0;
    for s in list {
        n = n.saturating_add(stmt_cost(s));
    }
    n
}

/// The cost of a function, in bytes, at most as much as a u64 counts.
pub fn function_cost(f: &MidFn) -> u64
    ensures { result ≡ capped (spec.function_cost f.now) }
{
    stmt_cost(&f.body)
        .saturating_add((f.vars as u64).saturating_mul(8))
        .saturating_add(200)
}

/// How many statements there are, the statement itself and all in it, at most as many as a u64 counts.
#[cycle(counts)]
pub fn stmt_count(s: &MidStmt) -> u64
    ensures { result ≡ capped (spec.count s.now) }
{
    match s {
        MidStmt::Seq(list) => all_count(list.as_slice()).saturating_add(1),
        MidStmt::If(_, on, off) => stmt_count(on.get())
            .saturating_add(stmt_count(off.get()))
            .saturating_add(1),
        MidStmt::Loop(body) | MidStmt::Block(body) => stmt_count(body.get()).saturating_add(1),
        MidStmt::Const(_, _)
        | MidStmt::Set(_, _, _, _)
        | MidStmt::Home(_, _)
        | MidStmt::Load(_, _, _, _)
        | MidStmt::Store(_, _, _)
        | MidStmt::Call(_, _, _)
        | MidStmt::NsCall(_, _, _, _)
        | MidStmt::Range(_, _, _, _)
        | MidStmt::Caller(_)
        | MidStmt::Break(_)
        | MidStmt::Return(_) => 1,
    }
}

#[cycle(counts)]
fn all_count(list: &[MidStmt]) -> u64
    ensures { result ≡ capped (spec.all_count list.now) }
{
    let mut n: u64 = 0;
    for s in list {
        n = n.saturating_add(stmt_count(s));
    }
    n
}
