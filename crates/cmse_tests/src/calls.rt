//! Commands over stores and sinks in memory: each helper owns one of them, and tells whether all was as expected.

use cm_base::{Bytes, MemSink, MemStore, NoMemory, Store, Text};
use cmse::{cmse_main, status_text};
use std::alloc::Global;

/// One line of C with an entry that returns 42.
pub const ANSWER: &[u8] = b"int __attribute__((cmse_nonsecure_entry)) answer(void) { return 42; }";

pub const BUILD: &str = "build -o a.img -l a.lib a.c";

const RUN: &str = "run -n 10000 a.img s.txt";

/// The words of a command line.
fn words_of(alloc: Global, line: &str) -> Result<Vec<String>, NoMemory> {
    let mut list = Vec::new(alloc);
    for word in line.split(' ') {
        if !word.is_empty() {
            list.push(String::from_str(alloc, word)?)?;
        }
    }
    Ok(list)
}

/// A store with one source, whose call of this number fails.
pub fn store_of(alloc: Global, source: &[u8], fail: u32) -> Result<MemStore, NoMemory> {
    let files = [(
        Text::from_slice(alloc, b"a.c")?,
        Bytes::from_slice(alloc, source)?,
    )];
    MemStore::new(alloc, &files, &[fail])
}

/// The line of a command's status.
fn said(
    alloc: Global,
    words: &[String],
    store: &mut MemStore,
    out: &mut MemSink,
) -> Result<Bytes, NoMemory> {
    let status = cmse_main(alloc, words, store, out);
    status_text(alloc, &status)
}

/// Whether a command with these words ends with this line.
fn says(
    alloc: Global,
    words: &[String],
    store: &mut MemStore,
    out: &mut MemSink,
    line: &str,
) -> bool {
    match said(alloc, words, store, out) {
        Ok(said) => said.as_slice() == line.as_bytes(),
        Err(_memory) => false,
    }
}

/// Whether a command ends with this line.
fn ends_with(
    alloc: Global,
    command: &str,
    store: &mut MemStore,
    out: &mut MemSink,
    line: &str,
) -> bool {
    match words_of(alloc, command) {
        Ok(words) => says(alloc, words.as_slice(), store, out, line),
        Err(_memory) => false,
    }
}

/// Whether a command whose output has these faults puts out this text and ends with this line.
fn puts(
    alloc: Global,
    command: &str,
    store: &mut MemStore,
    faults: &[u32],
    text: &[u8],
    line: &str,
) -> bool {
    match MemSink::new(alloc, faults) {
        Ok(mut out) => ends_with(alloc, command, store, &mut out, line) && out.given() == text,
        Err(_memory) => false,
    }
}

/// Whether a command puts out nothing and ends with this line.
pub fn ends_over(alloc: Global, command: &str, store: &mut MemStore, line: &str) -> bool {
    puts(alloc, command, store, &[], b"", line)
}

/// Whether a command ends with this line, over a store whose call of this number fails.
pub fn ends(alloc: Global, command: &str, fail: u32, line: &str) -> bool {
    match store_of(alloc, ANSWER, fail) {
        Ok(mut store) => ends_over(alloc, command, &mut store, line),
        Err(_memory) => false,
    }
}

/// A store with the files of a program whose entry answers 42.
pub fn answering(alloc: Global) -> Option<MemStore> {
    let mut store = store_of(alloc, ANSWER, 0).ok()?;
    if ends_over(alloc, BUILD, &mut store, "") {
        Some(store)
    } else {
        None
    }
}

/// Whether `run` of a store's image and this script puts out this text and ends with this line.
pub fn plays(alloc: Global, store: &mut MemStore, script: &[u8], text: &[u8], line: &str) -> bool {
    store.write("s.txt", script).is_ok() && puts(alloc, RUN, store, &[], text, line)
}

/// Whether `run` of a store's image says that its output can't be written, and puts out nothing.
pub fn is_unheard(alloc: Global, store: &mut MemStore) -> bool {
    store.write("s.txt", b"cmse-script 1").is_ok()
        && puts(alloc, RUN, store, &[1], b"", "cannot write -\n")
}
