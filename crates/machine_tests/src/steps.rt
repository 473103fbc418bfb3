//! Expected values from the instruction manual and the table of regions; the halfwords are an assembler's.

ghost use Rattle.std.specs.Prelude.{◌≡◌, IfOk, length, vec_len};
ghost use Rattle.ns_types.specs.Memory.{IsStart, rom_size};

use cm_base::{Bytes, List, NoMemory, Stop};
use ns_types::{Item, Side, Start, Turn, View};
use std::alloc::Global;
use std::test::Fail;
use v8m_core::{Image, Machine, Stepped};

fn filled(alloc: Global, n: usize, byte: u8) -> Result<Vec<u8>, NoMemory>
    ensures { IfOk result (λ b. vec_len b ≡ n) }
{
    Ok(vec![in alloc; byte; n]?)
}

/// Puts halfwords into bytes.
fn put(bytes: &mut [u8], at: usize, halfwords: &[u16]) {
    let mut o = at;
    for h in halfwords {
        if o < bytes.len() {
            bytes[o] = (*h % 256) as u8;
            if o + 1 < bytes.len() {
                bytes[o + 1] = (*h / 256) as u8;
            }
        }
        o = o.wrapping_add(2);
    }
}

/// ROM with code at 10000100, a gateway with `bxns lr` behind it at 103FF000, and `udf #2` at 10000200.
fn image(alloc: Global, code: &[u16]) -> Result<Image, NoMemory>
    ensures { IfOk result (λ image. length image.rom ≡ rom_size) }
{
    let mut rom = filled(alloc, 0x40_0000, 0)?;
    put(&mut rom, 0, &[0x7FFB, 0x3001, 0x0101, 0x1000]);
    put(&mut rom, 0x100, code);
    put(&mut rom, 0x200, &[0xDE02]);
    put(&mut rom, 0x3F_F000, &[0xE97F, 0xE97F, 0x4774]);
    Ok(Image {
        rom: Bytes::from_vec(rom),
    })
}

/// Memory with two words at the stack pointer.
fn start(alloc: Global, words: &[u16]) -> Result<Start, NoMemory>
    ensures { IfOk result (λ start. IsStart start) }
{
    let mut secure_ram = filled(alloc, 0x1_A000, 0)?;
    put(&mut secure_ram, 0x1_7FF8, words);
    Ok(Start {
        secure_ram: Bytes::from_vec(secure_ram),
        ns_ram: Bytes::from_vec(filled(alloc, 0x2_0000, 0)?),
        ns_rom: Bytes::from_vec(filled(alloc, 0x4_0000, 0)?),
    })
}

/// A machine with this code, and these words at the stack pointer.
fn machine(alloc: Global, code: &[u16], words: &[u16]) -> Result<Machine, NoMemory> {
    let image = image(alloc, code)?;
    let start = start(alloc, words)?;
    Machine::new(alloc, &image, &start)
}

/// A step, or a turn where Non-secure code runs.
fn go(machine: &mut Machine, turn: &Turn) -> Option<Stepped> {
    match machine.side() {
        Side::Secure => Some(machine.step()),
        Side::NonSecure => Some(machine.turn(turn)),
        Side::Stopped(_) => None,
    }
}

fn turn(alloc: Global, items: &[Item], target: u32) -> Result<Turn, NoMemory> {
    Ok(Turn {
        r: [1, 2, 3, 4, 5, 6, 7, 8, 9, 10, 11, 12, 13],
        lr: 0x2000_0001,
        nzcvq: 5,
        msp_ns: 0x2000_0403,
        psp_ns: 0x2000_0802,
        items: List::from_slice(alloc, items)?,
        target,
    })
}

/// Whether the next steps are these, but for those that only go on.
fn shows(machine: &mut Machine, turn: &Turn, steps: u8, all: &[Stepped]) -> bool {
    let mut left = all;
    for _ in 0..steps {
        match go(machine, turn) {
            Some(Stepped::Went) | None => {}
            Some(what) => match left {
                [first, rest @ ..] if *first == what => left = rest,
                _ => return false,
            },
        }
    }
    left.is_empty()
}

/// Whether code, and this turn where it hands over, show these steps.
fn runs(alloc: Global, code: &[u16], turn: &Turn, steps: u8, all: &[Stepped]) -> bool {
    match machine(alloc, code, &[]) {
        Ok(mut m) => shows(&mut m, turn, steps, all),
        Err(_memory) => false,
    }
}

/// Whether code, and a turn to `target` where it hands over, show these steps.
fn plays(alloc: Global, code: &[u16], target: u32, steps: u8, all: &[Stepped]) -> bool {
    match turn(alloc, &[], target) {
        Ok(turn) => runs(alloc, code, &turn, steps, all),
        Err(_memory) => false,
    }
}

/// What the last of the next steps is, but for those that only go on.
fn last(machine: &mut Machine, turn: &Turn, steps: u8) -> Option<Stepped> {
    let mut last = None;
    for _ in 0..steps {
        match go(machine, turn) {
            Some(Stepped::Went) | None => {}
            what => last = what,
        }
    }
    last
}

/// Whether code, with these words at the stack pointer, and a turn come to this stop.
fn comes_to(
    alloc: Global,
    code: &[u16],
    words: &[u16],
    turn: &Turn,
    steps: u8,
    stop: Stop,
) -> bool {
    match machine(alloc, code, words) {
        Ok(mut m) => last(&mut m, turn, steps) == Some(Stepped::Stopped(stop)),
        Err(_memory) => false,
    }
}

/// Whether code, with these words at the stack pointer, and a turn of one item come to this stop in four steps.
fn stops(alloc: Global, code: &[u16], words: &[u16], item: Item, target: u32, stop: Stop) -> bool {
    match turn(alloc, &[item], target) {
        Ok(turn) => comes_to(alloc, code, words, &turn, 4, stop),
        Err(_memory) => false,
    }
}

/// Whether 16 steps are these, and what they leave in Non-secure RAM.
fn leaves(machine: &mut Machine, turn: &Turn, all: &[Stepped]) -> bool {
    shows(machine, turn, 16, all)
        && machine.ns_ram().get(7).copied() == Some(0x5A)
        && machine.ns_ram().get(0x1236).copied() == Some(0x65)
}

fn runs_with_items(alloc: Global, code: &[u16], turn: &Turn, all: &[Stepped]) -> bool {
    match machine(alloc, code, &[]) {
        Ok(mut m) => leaves(&mut m, turn, all),
        Err(_memory) => false,
    }
}

/// Whether code, and a turn that reads, writes and enters by the gateway, show these steps.
fn plays_items(alloc: Global, code: &[u16], all: &[Stepped]) -> bool {
    let write = Item::Write {
        at: 0x2000_0007,
        byte: 0x5A,
    };
    match turn(alloc, &[Item::Read { at: 0 }, write], 0x103F_F001) {
        Ok(turn) => runs_with_items(alloc, code, &turn, all),
        Err(_memory) => false,
    }
}

#[test]
fn instructions_and_gates(rt: HostRuntime) -> Result<(), Fail> {
    // movw r0, #0x1234; movt r0, #0x2000; movw r1, #0xABCD; movt r1, #0x8765; str.w r1, [r0]; ldr.w r2, [r0];
    // mov r3, r1; bic r4, r1, r0; sg; b.w over the next two halfwords; udf #1; udf #1; msr msplim, r0;
    // msr apsr_nzcvq, r1; msr msp_ns, r1; bxns r0
    let code = [
        0xF241, 0x2034, 0xF2C2, 0x0000, 0xF64A, 0x31CD, 0xF2C8, 0x7165, 0xF8C0, 0x1000, 0xF8D0,
        0x2000, 0x460B, 0xEA21, 0x0400, 0xE97F, 0xE97F, 0xF000, 0xB802, 0xDE01, 0xDE01, 0xF380,
        0x880A, 0xF381, 0x8800, 0xF381, 0x8888, 0x4704,
    ];
    // the start code hands over; a turn enters by the gateway, whose LR loses bit 0, and `bxns lr` goes back
    let all = [
        Stepped::Wrote {
            at: 0x2000_1234,
            size: 4,
            value: 0x8765_ABCD,
        },
        Stepped::Given(View {
            r: [
                0x2000_1234,
                0x8765_ABCD,
                0x8765_ABCD,
                0x8765_ABCD,
                0x8765_A9C9,
                0,
                0,
                0,
                0,
                0,
                0,
                0,
                0,
            ],
            lr: 0xFFFF_FFFF,
            pc: 0x2000_1234,
            nzcvq: 16,
            msp_ns: 0x8765_ABCC,
            psp_ns: 0,
        }),
        Stepped::Given(View {
            r: [1, 2, 3, 4, 5, 6, 7, 8, 9, 10, 11, 12, 13],
            lr: 0x2000_0000,
            pc: 0x2000_0000,
            nzcvq: 5,
            msp_ns: 0x2000_0400,
            psp_ns: 0x2000_0800,
        }),
    ];
    assert!(rt; plays_items(rt.alloc(), &code, &all));
    Ok(())
}

/// A read, and the two words of a seal.
const READ: Item = Item::Read { at: 0 };

const SEAL: [u16; 4] = [0xEDA5, 0xFEF5, 0xEDA5, 0xFEF5];

#[test]
fn faults(rt: HostRuntime) -> Result<(), Fail> {
    let alloc = rt.alloc();
    assert!(rt; stops(alloc, &[0xDE01], &SEAL, READ, 0, Stop::Divide));
    assert!(rt; stops(alloc, &[0xDE05], &SEAL, READ, 0, Stop::CallTarget));
    assert!(rt; stops(alloc, &[0xDE06], &SEAL, READ, 0, Stop::Undefined));
    assert!(rt; stops(alloc, &[0xFFFF, 0xFFFF], &SEAL, READ, 0, Stop::Undefined));
    // str.w r1, [r0] at 0; ldr.w r1, [r0, #2]; bxns lr with LR FFFFFFFF
    assert!(rt; stops(alloc, &[0xF8C0, 0x1000], &SEAL, READ, 0, Stop::Unmapped));
    assert!(rt; stops(alloc, &[0xF8D0, 0x1002], &SEAL, READ, 0, Stop::Unaligned));
    assert!(rt; stops(alloc, &[0x4774], &SEAL, READ, 0, Stop::BadState));
    Ok(())
}

/// Whether a function return with these words at the stack pointer comes to this stop.
fn returns(alloc: Global, words: &[u16], stop: Stop) -> bool {
    // movw r0, #0xFFFE; movt r0, #0xFEFF; bxns r0
    let code = [0xF64F, 0x70FE, 0xF6CF, 0x60FF, 0x4704];
    stops(alloc, &code, words, READ, 0, stop)
}

#[test]
fn function_returns(rt: HostRuntime) -> Result<(), Fail> {
    let alloc = rt.alloc();
    // a return that goes on to UDF 2, and three that don't
    assert!(rt; returns(alloc, &[0x0201, 0x1000, 0x0200, 0x0000], Stop::Outside));
    assert!(rt; returns(alloc, &[0x0201, 0x1000, 0x0100, 0x0000], Stop::ReturnFault));
    assert!(rt; returns(alloc, &[0x0201, 0x3000, 0x0000, 0x0000], Stop::BadState));
    assert!(rt; returns(alloc, &SEAL, Stop::ReturnFault));
    Ok(())
}

/// Whether a turn of one item, after `bxns r0`, comes to this stop.
fn ends(alloc: Global, item: Item, target: u32, stop: Stop) -> bool {
    stops(alloc, &[0x4704], &SEAL, item, target, stop)
}

/// The same, where the item writes.
fn writes(alloc: Global, at: u32, stop: Stop) -> bool {
    ends(alloc, Item::Write { at, byte: 1 }, 0, stop)
}

#[test]
fn turns_that_stop(rt: HostRuntime) -> Result<(), Fail> {
    let alloc = rt.alloc();
    assert!(rt; writes(alloc, 0x2002_0000, Stop::Astray));
    assert!(rt; writes(alloc, 0x0000_0000, Stop::Astray));
    assert!(rt; writes(alloc, 0x3000_0000, Stop::Access));
    assert!(rt; ends(alloc, READ, 0x1000_0100, Stop::EntryPoint));
    assert!(rt; ends(alloc, READ, 0x103F_F004, Stop::EntryPoint));
    assert!(rt; ends(alloc, READ, 0x5000_0000, Stop::Astray));
    assert!(rt; ends(alloc, READ, 0xFEFF_FFFF, Stop::ReturnFault));
    Ok(())
}

#[test]
fn values(rt: HostRuntime) -> Result<(), Fail> {
    // movw r0, #0; movt r0, #0x2000; movw r1, #0x8480; strh r1, [r0]; ldrsb r2, [r0]; ldrsh r3, [r0];
    // ldrb r4, [r0, #1]; movw r5, #0; movt r5, #0x8000; mvn r6, r5; orr r6, r6, r5; sdiv r7, r5, r6; movw r8, #0;
    // sdiv r8, r5, r8; movw r9, #0x128; asr r10, r5, r9; movw r9, #32; lsl r11, r6, r9; lsr r12, r5, r9;
    // cmp r5, r1; mrs r1, apsr; bxns r0
    let code = [
        0xF240, 0x0000, 0xF2C2, 0x0000, 0xF248, 0x4180, 0xF8A0, 0x1000, 0xF990, 0x2000, 0xF9B0,
        0x3000, 0xF890, 0x4001, 0xF240, 0x0500, 0xF2C8, 0x0500, 0xEA6F, 0x0605, 0xEA46, 0x0605,
        0xFB95, 0xF7F6, 0xF240, 0x0800, 0xFB95, 0xF8F8, 0xF240, 0x1928, 0xFA45, 0xFA09, 0xF240,
        0x0920, 0xFA06, 0xFB09, 0xFA25, 0xFC09, 0xEBB5, 0x0F01, 0xF3EF, 0x8100, 0x4704,
    ];
    let wrote = Stepped::Wrote {
        at: 0x2000_0000,
        size: 2,
        value: 0x8480,
    };
    let given = Stepped::Given(View {
        r: [
            0x2000_0000,
            0x3000_0000,
            0xFFFF_FF80,
            0xFFFF_8480,
            0x84,
            0x8000_0000,
            0xFFFF_FFFF,
            0x8000_0000,
            0,
            32,
            0xFFFF_FFFF,
            0,
            0,
        ],
        lr: 0xFFFF_FFFF,
        pc: 0x2000_0000,
        nzcvq: 6,
        msp_ns: 0,
        psp_ns: 0,
    });
    assert!(rt; plays(rt.alloc(), &code, 0, 22, &[wrote, given]));
    Ok(())
}

#[test]
fn lists_and_calls(rt: HostRuntime) -> Result<(), Fail> {
    // movw r1, #0x1111; movw r2, #0x2222; push {r1, r2, lr}; mrs r3, msp; pop {r4, r5}; addw sp, sp, #4;
    // movw r0, #0xF000; movt r0, #0x103F; tt r6, r0; movw r7, #0; movt r7, #0x2000; ttat r7, r7; cmp r1, r2;
    // bcs to the beginning; bl over the next halfword; udf #1; movw r12, #0x300; blxns r12; subw r8, sp, #8;
    // ldr r9, [r8]; ldr r10, [r8, #4]; mrs r11, msp; bxns r1
    let code = [
        0xF241, 0x1111, 0xF242, 0x2222, 0xE92D, 0x4006, 0xF3EF, 0x8308, 0xE8BD, 0x0030, 0xF20D,
        0x0D04, 0xF24F, 0x0000, 0xF2C1, 0x003F, 0xE840, 0xF600, 0xF240, 0x0700, 0xF2C2, 0x0700,
        0xE847, 0xF7C0, 0xEBB1, 0x0F02, 0xF4BF, 0xAFE4, 0xF000, 0xF801, 0xDE01, 0xF240, 0x3C00,
        0x47E4, 0xF2AD, 0x0808, 0xF8D8, 0x9000, 0xF8D8, 0xA004, 0xF3EF, 0x8B08, 0x470C,
    ];
    // the call, whose caller comes back by the function return address, and what the call pushed
    let all = [
        Stepped::Given(View {
            r: [
                0x103F_F000,
                0x1111,
                0x2222,
                0x3001_7FEC,
                0x1111,
                0x2222,
                0x03C4_0000,
                0x01BC_0000,
                0,
                0,
                0,
                0,
                0x300,
            ],
            lr: 0xFEFF_FFFF,
            pc: 0x300,
            nzcvq: 16,
            msp_ns: 0,
            psp_ns: 0,
        }),
        Stepped::Given(View {
            r: [
                1,
                2,
                3,
                4,
                5,
                6,
                7,
                8,
                0x3001_7FF0,
                0x1000_0145,
                0,
                0x3001_7FF8,
                13,
            ],
            lr: 0x2000_0001,
            pc: 2,
            nzcvq: 5,
            msp_ns: 0x2000_0400,
            psp_ns: 0x2000_0800,
        }),
    ];
    assert!(rt; plays(rt.alloc(), &code, 0xFEFF_FFFE, 23, &all));
    Ok(())
}

/// Whether six steps of code come to this stop.
fn halts(alloc: Global, code: &[u16], stop: Stop) -> bool {
    match turn(alloc, &[], 0) {
        Ok(turn) => comes_to(alloc, code, &[], &turn, 6, stop),
        Err(_memory) => false,
    }
}

#[test]
fn stacks(rt: HostRuntime) -> Result<(), Fail> {
    // movw r0, #4; movt r0, #0x3000; msr msp, r0; push {r0, r1}: the second word would stand below the region
    let code = [
        0xF240, 0x0004, 0xF2C3, 0x0000, 0xF380, 0x8808, 0xE92D, 0x0003,
    ];
    assert!(rt; halts(rt.alloc(), &code, Stop::Unmapped));
    // movw r0, #0x9FFC; movt r0, #0x3001; msr msp, r0; pop {r0, r1}: the second word would stand above it
    let code = [
        0xF649, 0x70FC, 0xF2C3, 0x0001, 0xF380, 0x8808, 0xE8BD, 0x0003,
    ];
    assert!(rt; halts(rt.alloc(), &code, Stop::Unmapped));
    // movw r0, #0x7FF0; movt r0, #0x3001; msr msplim, r0; subw sp, sp, #8 to the limit; udf #1
    let code = [
        0xF647, 0x70F0, 0xF2C3, 0x0001, 0xF380, 0x880A, 0xF2AD, 0x0D08, 0xDE01,
    ];
    assert!(rt; halts(rt.alloc(), &code, Stop::Divide));
    // the same, and below the limit
    let code = [
        0xF647, 0x70F0, 0xF2C3, 0x0001, 0xF380, 0x880A, 0xF2AD, 0x0D0C, 0xDE01,
    ];
    assert!(rt; halts(rt.alloc(), &code, Stop::StackLimit));
    // the same by mov sp, r1, where r1 is 0
    let code = [
        0xF647, 0x70F0, 0xF2C3, 0x0001, 0xF380, 0x880A, 0x468D, 0xDE01,
    ];
    assert!(rt; halts(rt.alloc(), &code, Stop::StackLimit));
    Ok(())
}

#[test]
fn branches(rt: HostRuntime) -> Result<(), Fail> {
    // movw r0, #0x200; movt r0, #0x1000; bx r0: bit 0 is clear
    let code = [0xF240, 0x2000, 0xF2C1, 0x0000, 0x4700];
    assert!(rt; halts(rt.alloc(), &code, Stop::BadState));
    // movw r0, #0x201; movt r0, #0x1000; bx r0: to UDF 2
    let code = [0xF240, 0x2001, 0xF2C1, 0x0000, 0x4700];
    assert!(rt; halts(rt.alloc(), &code, Stop::Outside));
    // subw sp, sp, #4; blxns r0: SP is no multiple of 8
    let code = [0xF2AD, 0x0D04, 0x4784];
    assert!(rt; halts(rt.alloc(), &code, Stop::BadState));
    // movw r0, #0xFFFE; movt r0, #0xFEFF; blxns r0, which returns at once; udf #3
    let code = [0xF64F, 0x70FE, 0xF6CF, 0x60FF, 0x4784, 0xDE03];
    assert!(rt; halts(rt.alloc(), &code, Stop::Misaligned));
    Ok(())
}
