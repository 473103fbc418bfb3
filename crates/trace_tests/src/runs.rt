//! Runs of small programs.

ghost use Rattle.std.specs.Prelude.{IfOk};
ghost use Rattle.ns_types.specs.Memory.{IsStart};

use crate::programs::{calls_itself, calls_out};
use c_trace::trace;
use c_tree::Program;
use cm_base::{Bytes, List, NoMemory, Text};
use ns_types::{Bound, CEvent, CEvents, End, Start, Turn, Veneer, Veneers};
use std::alloc::Global;
use std::test::Fail;

/// Non-secure ROM begins with the stack pointer 20020000 and the reset address 00000101.
fn start(alloc: Global) -> Result<Start, NoMemory>
    ensures { IfOk result (λ start. IsStart start) }
{
    let mut rom = vec![in alloc; 0u8; 0x4_0000]?;
    rom[2] = 2;
    rom[3] = 0x20;
    rom[4] = 1;
    rom[5] = 1;
    Ok(Start {
        secure_ram: Bytes::from_vec(vec![in alloc; 0u8; 0x1_A000]?),
        ns_ram: Bytes::from_vec(vec![in alloc; 0u8; 0x2_0000]?),
        ns_rom: Bytes::from_vec(rom),
    })
}

fn turn(alloc: Global, target: u32, r0: u32, r1: u32, r4: u32, lr: u32) -> Turn {
    Turn {
        r: [r0, r1, 0, 0, r4, 0, 0, 0, 0, 0, 0, 0, 0],
        lr,
        nzcvq: 0,
        msp_ns: 0x2002_0000,
        psp_ns: 0,
        items: List::new(alloc),
        target,
    }
}

fn veneers(alloc: Global, names: &[&[u8]]) -> Result<Veneers, NoMemory> {
    let mut list = List::new(alloc);
    let mut address: u32 = 0x103F_F000;
    for name in names {
        list.push(Veneer {
            name: Text::from_slice(alloc, *name)?,
            address,
        })?;
        address = address.wrapping_add(8);
    }
    Ok(Veneers { list })
}

fn run(
    alloc: Global,
    program: &Program,
    names: &[&[u8]],
    turns: &[Turn],
) -> Result<CEvents, NoMemory> {
    let veneers = veneers(alloc, names)?;
    let start = start(alloc)?;
    trace(
        alloc,
        program,
        &veneers,
        &start,
        turns,
        Bound {
            turns: 1000,
            deep: 256,
        },
    )
}

fn is_started(e: &CEvent) -> bool {
    match e {
        CEvent::Started => true,
        _ => false,
    }
}

fn is_result(e: &CEvent, n: u32, x: u32) -> bool {
    match e {
        CEvent::Result { entry, r0 } => *entry == n && *r0 == x,
        _ => false,
    }
}

fn is_called(e: &CEvent, to: u32, x: u32) -> bool {
    match e {
        CEvent::Called { target, args } => *target == to && args.as_slice() == [x].as_slice(),
        _ => false,
    }
}

/// A Non-secure function is called with 5, which enters `one` before it gives its result: that of its own, or where the
/// entry's result goes to it at once, that one.
fn is_nested(events: &CEvents, gives: u32) -> bool {
    match events.list.as_slice() {
        [a, b, c, d] => is_started(a)
            && is_called(b, 0x300, 5)
            && is_result(c, 1, 10)
            && is_result(d, 0, gives)
            && events.end == End::Waiting
            && events.peak == 288,
        _ => false,
    }
}

fn returns_in_a_turn(alloc: Global) -> Result<bool, NoMemory> {
    let turns = vec![in alloc;
        turn(alloc, 0x103F_F000, 0x301, 5, 0x44, 0x201),
        turn(alloc, 0x103F_F008, 9, 0, 0x99, 0x305),
        turn(alloc, 0xFEFF_FFFE, 0x100, 0, 0, 0),
    ]?;
    let program = calls_out(alloc)?;
    Ok(is_nested(&run(alloc, &program, &[b"twice", b"one"], &turns)?, 0x105))
}

fn returns_by_a_result(alloc: Global) -> Result<bool, NoMemory> {
    let turns = vec![in alloc;
        turn(alloc, 0x103F_F000, 0x301, 5, 0x44, 0x201),
        turn(alloc, 0x103F_F008, 9, 0, 0x99, 0xFEFF_FFFF),
    ]?;
    let program = calls_out(alloc)?;
    Ok(is_nested(&run(alloc, &program, &[b"twice", b"one"], &turns)?, 15))
}

/// 256 functions are active at once, and no more.
fn goes_too_deep(alloc: Global) -> Result<bool, NoMemory> {
    let turns = vec![in alloc; turn(alloc, 0x103F_F000, 0, 0, 0, 0x201)]?;
    let program = calls_itself(alloc)?;
    let events = run(alloc, &program, &[b"go"], &turns)?;
    match events.list.as_slice() {
        [a] => Ok(is_started(a) && events.end == End::Spent && events.peak == 35832),
        _ => Ok(false),
    }
}

#[test]
fn nested(rt: HostRuntime) -> Result<(), Fail> {
    assert!(rt; returns_in_a_turn(rt.alloc())?);
    assert!(rt; returns_by_a_result(rt.alloc())?);
    assert!(rt; goes_too_deep(rt.alloc())?);
    Ok(())
}
