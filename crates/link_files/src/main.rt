//! Links the object files that it reads, and prints each word of the Secure ROM that isn't 0, with its address; or, with a number as its
//! argument, links them so often, and prints how many bytes of Secure ROM are used. `bin/check-linked` compares the words with those of
//! another linker, and `bench/link` measures. What it reads is a number of files, each with its size before it, and then a number of
//! entries, each with the size of its name before it; numbers are words, the byte of least worth first.
#![tactic(auto)]

use cm_base::{Bytes, List, NoMemory, SECURE_ROM, Text};
use elf32::get32;
use link_check::{are_linkable, checked_link};
use linker::link;
use std::alloc::Global;
use std::io::Read;
use std::{env, io};
use veneer_link::LinkFault;

/// How many words Secure ROM has, with its Non-secure callable region.
const ROM_WORDS: u32 = 0x10_0000;

/// The word at a place, and 0 where it isn't whole.
fn word(bytes: &[u8], at: usize) -> u32 {
    let rest = bytes.get(at..).unwrap_or(&[]);
    get32(rest, 0).unwrap_or(0)
}

/// A number of pieces from a place on, and where they end.
fn pieces(alloc: Global, bytes: &[u8], from: usize) -> Result<(List<Bytes>, usize), NoMemory> {
    let mut list = List::new(alloc);
    let mut at = from.saturating_add(4);
    for _piece in 0..word(bytes, from) {
        let begin = at.saturating_add(4);
        let end = begin.saturating_add(word(bytes, at) as usize);
        list.push(Bytes::from_slice(alloc, bytes.get(begin..end).unwrap_or(&[]))?)?;
        at = end;
    }
    Ok((list, at))
}

/// The object files and the entries.
#[derive(Drop)]
struct Input {
    files: List<Bytes>,
    entries: List<Text>,
}

fn read_input(alloc: Global, bytes: &[u8]) -> Result<Input, NoMemory> {
    let (files, end) = pieces(alloc, bytes, 0)?;
    let (entries, _end) = pieces(alloc, bytes, end)?;
    Ok(Input { files, entries })
}

/// Links so often, and answers how many bytes are used: none where the files can't be linked.
fn used_after(
    alloc: Global,
    files: &[Bytes],
    entries: &[Text],
    rounds: u32,
) -> Result<u32, LinkFault> {
    let linkable = are_linkable(alloc, files, entries)?;
    if !linkable {
        return Ok(0);
    }
    let mut used = 0;
    for _round in 0..rounds {
        let linked = link(alloc, files, entries, None)?;
        used = linked.used;
    }
    Ok(used)
}

/// The Secure ROM, or no bytes where the files can't be linked.
fn rom(alloc: Global, bytes: &[u8]) -> Result<Bytes, LinkFault> {
    let input = read_input(alloc, bytes)?;
    match checked_link(
        alloc,
        input.files.as_slice(),
        input.entries.as_slice(),
        None,
    )? {
        None => Ok(Bytes::new(alloc)),
        Some(linked) => Ok(linked.rom),
    }
}

fn used(alloc: Global, bytes: &[u8], rounds: u32) -> Result<u32, LinkFault> {
    let input = read_input(alloc, bytes)?;
    used_after(
        alloc,
        input.files.as_slice(),
        input.entries.as_slice(),
        rounds,
    )
}

fn main(rt: HostRuntime) -> io::Result<()> {
    let mut bytes: Vec<u8> = Vec::new(rt.alloc());
    rt.reader().read_to_end(&mut bytes)?;
    let mut rounds = None;
    for word in env::args(&rt)? {
        rounds = word.as_str().parse::<u32>().ok();
    }
    if let Some(rounds) = rounds {
        let used = used(rt.alloc(), bytes.as_slice(), rounds).unwrap_or(0);
        return println!(rt; "{used} bytes of Secure ROM");
    }
    match rom(rt.alloc(), bytes.as_slice()) {
        Ok(rom) => {
            for k in 0..ROM_WORDS {
                let word = word(rom.as_slice(), 4 * k as usize);
                if word != 0 {
                    let address = SECURE_ROM.from + 4 * k;
                    println!(rt; "{address:08x} {word:08x}")?;
                }
            }
        }
        Err(_fault) => println!(rt; "not linked")?,
    }
    Ok(())
}
