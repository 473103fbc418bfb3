//! What `build` makes of a source, and the machine on it. The expected values are worked out by hand from the platform's
//! description.

ghost use Rattle.std.specs.Prelude.{◌≡◌, ◌<◌, ◌^◌, IfOk, length, vec_len};
ghost use Rattle.ns_types.specs.Memory.{IsStart, rom_size};

use crate::calls::{BUILD, answering, ends_over, store_of};
use cm_base::{Bytes, List, MemStore, NoMemory};
use cmse_build::load_image;
use ns_turns::play_turn;
use ns_types::{Side, Start, Turn, View};
use std::alloc::Global;
use std::test::Fail;
use v8m_core::{Image, Machine, Stepped};

/// Whether a source without an entry is refused, and no library is written.
fn is_refused(alloc: Global) -> bool {
    match store_of(alloc, b"int answer(void) { return 42; }", 0) {
        Ok(mut store) => {
            ends_over(alloc, BUILD, &mut store, "a.c:1:1: E90\n") && store.get("a.lib").is_none()
        }
        Err(_memory) => false,
    }
}

#[test]
fn refused_source(rt: HostRuntime) -> Result<(), Fail> {
    assert!(rt; is_refused(rt.alloc()));
    Ok(())
}

fn zeros(alloc: Global, n: usize) -> Result<Vec<u8>, NoMemory>
    ensures { IfOk result (λ b. vec_len b ≡ n) }
{
    Ok(vec![in alloc; 0; n]?)
}

/// The Non-secure stack pointer 20020000, and the reset address 00000101.
fn put_vectors(ns_rom: &mut [u8]) {
    if ns_rom.len() > 8 {
        ns_rom[2] = 0x02;
        ns_rom[3] = 0x20;
        ns_rom[4] = 0x01;
        ns_rom[5] = 0x01;
    }
}

fn start_of(alloc: Global) -> Result<Start, NoMemory>
    ensures { IfOk result (λ start. IsStart start) }
{
    let mut ns_rom = zeros(alloc, 0x4_0000)?;
    put_vectors(&mut ns_rom);
    Ok(Start {
        secure_ram: Bytes::from_vec(zeros(alloc, 0x1_A000)?),
        ns_ram: Bytes::from_vec(zeros(alloc, 0x2_0000)?),
        ns_rom: Bytes::from_vec(ns_rom),
    })
}

/// The next view that the machine shows, within a hundred steps.
fn next_view(machine: &mut Machine) -> Option<View> {
    for _ in 0..100 {
        match machine.side() {
            Side::Secure => {
                if let Stepped::Given(view) = machine.step() {
                    return Some(view);
                }
            }
            Side::NonSecure | Side::Stopped(_) => return None,
        }
    }
    None
}

/// What a caller is shown first.
const STARTED_VIEW: View = View {
    r: [0; 13],
    lr: 0x100,
    pc: 0x100,
    nzcvq: 0,
    msp_ns: 0x2002_0000,
    psp_ns: 0,
};

/// What a caller is shown after its call of the entry.
const ANSWERED_VIEW: View = View {
    r: [42, 0, 0, 0, 0x44, 0, 0, 0, 0, 0, 0, 0, 0],
    lr: 0x200,
    pc: 0x200,
    nzcvq: 0,
    msp_ns: 0x2002_0000,
    psp_ns: 0,
};

/// A call of the entry.
fn call_of(alloc: Global) -> Turn {
    Turn {
        r: [0, 0x11, 0, 0, 0x44, 0, 0, 0, 0, 0, 0, 0, 0],
        lr: 0x201,
        nzcvq: 0x1f,
        msp_ns: 0x2002_0000,
        psp_ns: 0,
        items: List::new(alloc),
        target: 0x103F_F000,
    }
}

/// Whether the machine hands over as it starts, and answers a call of the entry.
fn answers(machine: &mut Machine, call: &Turn) -> bool {
    next_view(machine) == Some(STARTED_VIEW)
        && machine.side() == Side::NonSecure
        && play_turn(machine, call) == Stepped::Went
        && next_view(machine) == Some(ANSWERED_VIEW)
}

/// The machine with this image.
fn machine_of(alloc: Global, image: &Image) -> Result<Machine, NoMemory>
    requires { length image.now.rom ≡ rom_size }
{
    let start = start_of(alloc)?;
    Machine::new(alloc, image, &start)
}

/// Whether the machine with this image answers a call of the entry.
fn starts(alloc: Global, image: &Image) -> bool
    requires { length image.now.rom ≡ rom_size }
{
    match machine_of(alloc, image) {
        Ok(mut machine) => answers(&mut machine, &call_of(alloc)),
        Err(_memory) => false,
    }
}

/// Whether the machine with the image of this file answers a call of the entry.
fn image_answers(alloc: Global, file: &[u8]) -> bool
    requires { length file.now < 2 ^ 32 }
{
    match load_image(alloc, file) {
        Ok(image) => starts(alloc, &image),
        Err(_fault) => false,
    }
}

/// Whether the image of a store is small, and answers a call of the entry.
fn is_small_and_answers(alloc: Global, store: &MemStore) -> bool {
    match store.get("a.img") {
        Some(file) => file.len() < 10_000 && image_answers(alloc, file),
        None => false,
    }
}

fn answers_first(alloc: Global) -> bool {
    match answering(alloc) {
        Some(store) => is_small_and_answers(alloc, &store),
        None => false,
    }
}

#[test]
fn first_run(rt: HostRuntime) -> Result<(), Fail> {
    assert!(rt; answers_first(rt.alloc()));
    Ok(())
}

/// The size of a store's library, or 0 where there is none.
fn library_size(store: &MemStore) -> usize {
    match store.get("a.lib") {
        Some(file) => file.len(),
        None => 0,
    }
}

fn has_library(alloc: Global) -> bool {
    match answering(alloc) {
        Some(store) => library_size(&store) == 280,
        None => false,
    }
}

#[test]
fn library(rt: HostRuntime) -> Result<(), Fail> {
    assert!(rt; has_library(rt.alloc()));
    Ok(())
}
