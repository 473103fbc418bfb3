//! What `run` puts out, for images of `build` and of others.

use crate::calls::{ANSWER, answering, is_unheard, plays, store_of};
use cm_base::{Bytes, MemStore, NoMemory, Store};
use std::alloc::Global;
use std::test::Fail;

const STARTED: &str =
    "given pc=00000100 r0=00000000 r1=00000000 r2=00000000 r3=00000000 r4=00000000 r5=00000000 r6=00000000 r7=00000000 r8=00000000 r9=00000000 r10=00000000 r11=00000000 r12=00000000 lr=00000100 flags=00 msp=20020000 psp=00000000\n";

const ANSWERED: &str =
    "given pc=00000200 r0=0000002a r1=00000000 r2=00000000 r3=00000000 r4=00000044 r5=00000000 r6=00000000 r7=00000000 r8=00000000 r9=00000000 r10=00000000 r11=00000000 r12=00000000 lr=00000200 flags=00 msp=20020000 psp=00000000\n";

/// Bytes of three parts.
fn joined(alloc: Global, first: &[u8], second: &[u8], third: &[u8]) -> Result<Bytes, NoMemory> {
    let mut all = Bytes::from_slice(alloc, first)?;
    all.extend_from_slice(second)?;
    all.extend_from_slice(third)?;
    Ok(all)
}

/// Whether a script puts out STARTED, this view and this end.
fn shows(alloc: Global, store: &mut MemStore, script: &[u8], view: &str, end: &str) -> bool {
    match joined(alloc, STARTED.as_bytes(), view.as_bytes(), end.as_bytes()) {
        Ok(text) => plays(alloc, store, script, text.as_slice(), ""),
        Err(_memory) => false,
    }
}

/// Whether one turn leads to this view over the image of a store, and the transcript ends so.
fn plays_turn(alloc: Global, store: &mut MemStore, turn: &str, view: &str, end: &str) -> bool {
    match joined(
        alloc,
        b"cmse-script 1\n",
        b"rom 0 0000022001010000\n",
        turn.as_bytes(),
    ) {
        Ok(script) => shows(alloc, store, script.as_slice(), view, end),
        Err(_memory) => false,
    }
}

/// Whether one turn leads to this view, and the transcript ends so.
fn leads_to(alloc: Global, turn: &str, view: &str, end: &str) -> bool {
    match answering(alloc) {
        Some(mut store) => plays_turn(alloc, &mut store, turn, view, end),
        None => false,
    }
}

#[test]
fn answers_a_call(rt: HostRuntime) -> Result<(), Fail> {
    let alloc = rt.alloc();
    assert!(rt;
        leads_to(
            alloc,
            "turn 103ff000 r1=11 r4=44 lr=201 flags=1f msp=20020000\n",
            ANSWERED,
            "end waiting\n"
        )
    );
    assert!(rt;
        leads_to(
            alloc,
            "turn fefffffe\n",
            "",
            "stopped ReturnFault\nend stopped\n"
        )
    );
    assert!(rt; leads_to(alloc, "turn 103ff000 lr=103ff001\n", "", "end spent\n"));
    Ok(())
}

#[test]
fn stops_at_targets(rt: HostRuntime) -> Result<(), Fail> {
    let alloc = rt.alloc();
    assert!(rt;
        leads_to(
            alloc,
            "turn 103ff002\n",
            "",
            "stopped EntryPoint\nend stopped\n"
        )
    );
    assert!(rt;
        leads_to(
            alloc,
            "turn 10000000\n",
            "",
            "stopped EntryPoint\nend stopped\n"
        )
    );
    assert!(rt;
        leads_to(
            alloc,
            "turn 30000000\n",
            "",
            "stopped EntryPoint\nend stopped\n"
        )
    );
    assert!(rt;
        leads_to(
            alloc,
            "turn 40000000\n",
            "",
            "stopped Astray\nend stopped\n"
        )
    );
    Ok(())
}

#[test]
fn plays_items(rt: HostRuntime) -> Result<(), Fail> {
    let alloc = rt.alloc();
    assert!(rt;
        leads_to(
            alloc,
            "turn 0 get=30000000\n",
            "",
            "stopped Access\nend stopped\n"
        )
    );
    assert!(rt;
        leads_to(
            alloc,
            "turn 0 put=0:1\n",
            "",
            "stopped Astray\nend stopped\n"
        )
    );
    assert!(rt; leads_to(alloc, "turn 101\n", "", "end waiting\n"));
    Ok(())
}

/// Whether a script is bad at its second line, and nothing is put out.
fn is_bad_at_2(alloc: Global, script: &[u8]) -> bool {
    match answering(alloc) {
        Some(mut store) => plays(alloc, &mut store, script, b"", "s.txt: bad at 2\n"),
        None => false,
    }
}

#[test]
fn unfit_script(rt: HostRuntime) -> Result<(), Fail> {
    assert!(rt; is_bad_at_2(rt.alloc(), b"cmse-script 1\nturn 103ff00g\n"));
    Ok(())
}

/// A file of the same bytes but for the first.
fn changed(alloc: Global, file: &[u8]) -> Result<Bytes, NoMemory> {
    joined(alloc, b"x", file.get(1..).unwrap_or_default(), b"")
}

/// An image whose first byte is another.
fn changed_image(alloc: Global, store: &MemStore) -> Result<Bytes, NoMemory> {
    match store.get("a.img") {
        Some(file) => changed(alloc, file),
        None => Err(NoMemory),
    }
}

/// Whether a store's image is bad at its first byte once that is changed, and nothing is put out.
fn is_bad_once_changed(alloc: Global, store: &mut MemStore) -> bool {
    match changed_image(alloc, store) {
        Ok(image) => {
            store.write("a.img", image.as_slice()).is_ok()
                && plays(alloc, store, b"turn 103ff00g\n", b"", "a.img: bad at 0\n")
        }
        Err(_memory) => false,
    }
}

fn image_comes_first(alloc: Global) -> bool {
    match answering(alloc) {
        Some(mut store) => is_bad_once_changed(alloc, &mut store),
        None => false,
    }
}

/// The image is tested before the script.
#[test]
fn unfit_image(rt: HostRuntime) -> Result<(), Fail> {
    assert!(rt; image_comes_first(rt.alloc()));
    Ok(())
}

fn cannot_put(alloc: Global) -> bool {
    match answering(alloc) {
        Some(mut store) => is_unheard(alloc, &mut store),
        None => false,
    }
}

#[test]
fn output_that_fails(rt: HostRuntime) -> Result<(), Fail> {
    assert!(rt; cannot_put(rt.alloc()));
    Ok(())
}

/// The first 68 bytes of an image: type 2, machine 40, version 1, the entry, the program headers at 52, no sections,
/// flags, sizes, and one header, of type 1, from 84 in the file, at 10000000.
const FRONT: &[u8] =
    b"\x7fELF\x01\x01\x01\0\0\0\0\0\0\0\0\0\x02\0\x28\0\x01\0\0\0\x09\0\0\x10\x34\0\0\0\0\0\0\0\0\0\0\x05\x34\0\x20\0\x01\0\x28\0\0\0\0\0\x01\0\0\0\x54\0\0\0\0\0\0\x10\0\0\0\x10";

/// An image of one segment of `size` bytes at 10000000: the main stack pointer, the reset address 10000009, and code.
fn image_with(alloc: Global, size: u8, code: &[u8]) -> Result<Bytes, NoMemory> {
    // both sizes, flags, alignment; the two vectors
    let middle = [
        size, 0, 0, 0, size, 0, 0, 0, 5, 0, 0, 0, 4, 0, 0, 0, 0xf8, 0x7f, 0x01, 0x30, 9, 0, 0, 0x10,
    ];
    joined(alloc, FRONT, &middle, code)
}

/// Whether `run` of this image and a script without turns puts out this text.
fn puts_text(alloc: Global, store: &mut MemStore, image: &[u8], text: &str) -> bool {
    store.write("a.img", image).is_ok()
        && plays(alloc, store, b"cmse-script 1\n", text.as_bytes(), "")
}

fn image_puts_out(alloc: Global, image: &[u8], text: &str) -> bool {
    match store_of(alloc, ANSWER, 0) {
        Ok(mut store) => puts_text(alloc, &mut store, image, text),
        Err(_memory) => false,
    }
}

/// Whether `run` of such an image and a script without turns puts out this text.
fn puts_out(alloc: Global, size: u8, code: &[u8], text: &str) -> bool {
    match image_with(alloc, size, code) {
        Ok(image) => image_puts_out(alloc, image.as_slice(), text),
        Err(_memory) => false,
    }
}

#[test]
fn images_of_others(rt: HostRuntime) -> Result<(), Fail> {
    let alloc = rt.alloc();
    // a halfword that is no instruction
    assert!(rt; puts_out(alloc, 10, &[0, 0], "stopped Undefined\nend stopped\n"));
    // MOVW r0, 100h and BXNS r0: all other registers are as reset left them
    assert!(rt;
        puts_out(
            alloc,
            14,
            &[0x40, 0xf2, 0x00, 0x10, 0x04, 0x47],
            "given pc=00000100 r0=00000100 r1=00000000 r2=00000000 r3=00000000 r4=00000000 r5=00000000 r6=00000000 r7=00000000 r8=00000000 r9=00000000 r10=00000000 r11=00000000 r12=00000000 lr=ffffffff flags=00 msp=00000000 psp=00000000\nend waiting\n"
        )
    );
    Ok(())
}
