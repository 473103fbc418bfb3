//! A run with turns: its events in order, and the end by the test that comes first.

ghost use Rattle.std.specs.Prelude.{◌≡◌, IfOk, length, vec_len};
ghost use Rattle.ns_types.specs.Memory.{IsStart, rom_size};

use cm_base::{Bytes, List, NoMemory, Stop};
use ns_turns::run;
use ns_types::{End, Event, Events, Item, Start, Turn, View};
use std::alloc::Global;
use std::test::Fail;
use v8m_core::{Image, Machine};

fn filled(alloc: Global, n: usize) -> Result<Vec<u8>, NoMemory>
    ensures { IfOk result (λ b. vec_len b ≡ n) }
{
    Ok(vec![in alloc; 0; n]?)
}

/// Puts halfwords into bytes.
fn put(bytes: &mut [u8], at: usize, halfwords: &[u16]) {
    let mut o = at;
    for h in halfwords {
        if o < bytes.len() {
            bytes[o] = (*h % 256) as u8;
            if o + 1 < bytes.len() {
                bytes[o + 1] = (*h / 256) as u8;
            }
        }
        o = o.wrapping_add(2);
    }
}

/// ROM whose start code is `bxns r0`, and which has the entry `str.w r1, [r0]; bxns lr` behind its gateway.
fn image(alloc: Global) -> Result<Image, NoMemory>
    ensures { IfOk result (λ image. length image.rom ≡ rom_size) }
{
    let mut rom = filled(alloc, 0x40_0000)?;
    put(&mut rom, 0, &[0x7FF8, 0x3001, 0x0100, 0x1000]);
    put(&mut rom, 0x100, &[0x4704]);
    put(
        &mut rom,
        0x3F_F000,
        &[0xE97F, 0xE97F, 0xF8C0, 0x1000, 0x4774],
    );
    Ok(Image {
        rom: Bytes::from_vec(rom),
    })
}

fn start(alloc: Global) -> Result<Start, NoMemory>
    ensures { IfOk result (λ start. IsStart start) }
{
    Ok(Start {
        secure_ram: Bytes::from_vec(filled(alloc, 0x1_A000)?),
        ns_ram: Bytes::from_vec(filled(alloc, 0x2_0000)?),
        ns_rom: Bytes::from_vec(filled(alloc, 0x4_0000)?),
    })
}

fn machine(alloc: Global) -> Result<Machine, NoMemory> {
    let image = image(alloc)?;
    let start = start(alloc)?;
    Machine::new(alloc, &image, &start)
}

fn turn(alloc: Global, r0: u32, target: u32) -> Result<Turn, NoMemory> {
    Ok(Turn {
        r: [r0, 7, 0, 0, 0, 0, 0, 0, 0, 0, 0, 0, 0],
        lr: 0x2000_0000,
        nzcvq: 0,
        msp_ns: 0,
        psp_ns: 0,
        items: List::from_slice(alloc, &[Item::Read { at: 0 }])?,
        target,
    })
}

/// A turn that enters, one that goes on in Non-secure code, and one that enters with an address that isn't mapped.
fn turns(alloc: Global) -> Result<List<Turn>, NoMemory> {
    let mut turns = List::new(alloc);
    turns.push(turn(alloc, 0x2000_0010, 0x103F_F000)?)?;
    turns.push(turn(alloc, 0, 0x2000_0000)?)?;
    turns.push(turn(alloc, 0x1000_0000, 0x103F_F001)?)?;
    Ok(turns)
}

/// The run of these turns.
fn events_of(alloc: Global, turns: &[Turn], steps: u64) -> Result<Events, NoMemory> {
    let mut m = machine(alloc)?;
    run(alloc, &mut m, turns, steps)
}

/// The run of the first `n` turns.
fn run_of(alloc: Global, n: usize, steps: u64) -> Result<Events, NoMemory> {
    let turns = turns(alloc)?;
    let n = if n < turns.len() { n } else { turns.len() };
    events_of(alloc, &turns.as_slice()[..n], steps)
}

/// Whether the run of the first `n` turns has so many events, and this end.
fn ends(alloc: Global, n: usize, steps: u64, count: usize, end: End) -> bool {
    match run_of(alloc, n, steps) {
        Ok(events) => events.list.len() == count && events.end == end,
        Err(_memory) => false,
    }
}

/// Whether the events of the run of all turns are these.
fn shows(alloc: Global, all: &[Event]) -> bool {
    match run_of(alloc, 3, 99) {
        Ok(events) => events.list.as_slice() == all,
        Err(_memory) => false,
    }
}

#[test]
fn events_of_a_run(rt: HostRuntime) -> Result<(), Fail> {
    let started = View {
        r: [0, 0, 0, 0, 0, 0, 0, 0, 0, 0, 0, 0, 0],
        lr: 0xFFFF_FFFF,
        pc: 0,
        nzcvq: 0,
        msp_ns: 0,
        psp_ns: 0,
    };
    let left = View {
        r: [0x2000_0010, 7, 0, 0, 0, 0, 0, 0, 0, 0, 0, 0, 0],
        lr: 0x2000_0000,
        pc: 0x2000_0000,
        nzcvq: 0,
        msp_ns: 0,
        psp_ns: 0,
    };
    let all = [
        Event::Given(started),
        Event::Wrote {
            at: 0x2000_0010,
            size: 4,
            value: 7,
        },
        Event::Given(left),
        Event::Stopped(Stop::Unmapped),
    ];
    assert!(rt; shows(rt.alloc(), &all));
    Ok(())
}

#[test]
fn ends_of_runs(rt: HostRuntime) -> Result<(), Fail> {
    let alloc = rt.alloc();
    assert!(rt; ends(alloc, 3, 0, 0, End::Spent));
    assert!(rt; ends(alloc, 0, 1, 1, End::Waiting));
    assert!(rt; ends(alloc, 3, 1, 1, End::Spent));
    assert!(rt; ends(alloc, 1, 4, 3, End::Waiting));
    assert!(rt; ends(alloc, 3, 6, 3, End::Spent));
    assert!(rt; ends(alloc, 3, 7, 4, End::Stopped));
    Ok(())
}
