//! A loop around a call with two arguments, a remainder, a load and a break, and a function with this body.

use cm_base::{List, NoMemory, Text};
use mid_ir::{MidFn, MidStmt, SetOp, function_cost, stmt_cost, stmt_count};
use sqlite_items::Boxed;
use std::alloc::Global;
use std::test::Fail;

fn body(alloc: Global) -> Result<MidStmt, NoMemory> {
    let args = List::from_slice(alloc, &[0, 1])?;
    let mut parts = List::new(alloc);
    parts.push(MidStmt::Call(0, 1, args))?;
    parts.push(MidStmt::Set(0, SetOp::RemU, 0, 1))?;
    parts.push(MidStmt::Load(2, 0, 2, true))?;
    parts.push(MidStmt::Break(0))?;
    let parts = Boxed::new(alloc, MidStmt::Seq(parts))?;
    Ok(MidStmt::Loop(parts))
}

fn function(alloc: Global) -> Result<MidFn, NoMemory> {
    let name = Text::from_slice(alloc, b"f.1")?;
    let narrow = List::from_slice(alloc, &[0, 4])?;
    let body = body(alloc)?;
    Ok(MidFn {
        name,
        unit: 1,
        entry: false,
        gives: true,
        narrow,
        vars: 4,
        block: 8,
        body,
    })
}

fn counted(alloc: Global) -> Result<bool, NoMemory> {
    let f = function(alloc)?;
    let is_cost = stmt_cost(&f.body) == 40 + (64 + 16) + 48 + 112 + 40;
    let is_count = stmt_count(&f.body) == 6;
    let is_whole = function_cost(&f) == 200 + 32 + 320;
    Ok(is_cost && is_count && is_whole)
}

#[test]
fn costs(rt: HostRuntime) -> Result<(), Fail> {
    assert!(rt; counted(rt.alloc())?);
    Ok(())
}

#[test]
fn single(rt: HostRuntime) -> Result<(), Fail> {
    let s = MidStmt::Range(3, 0, 1, 2);
    assert!(rt; stmt_cost(&s) == 320 && s.sets() == Some(3));
    let s = MidStmt::Store(0, 4, 1);
    assert!(rt; stmt_cost(&s) == 112 && s.sets() == None);
    Ok(())
}
