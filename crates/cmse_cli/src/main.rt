//! A tool chain for Secure firmware in C: the program over the system's files and output.
#![tactic(auto)]

use cm_base::{FileStore, OutSink};
use cmse::{Status, cmse_main, status_text};
use std::alloc::{AllocError, Global};
use std::env;
use std::io::{self, Write};
use std::process::ExitCode;

/// The words after the program's name.
fn words_of(rt: &HostRuntime) -> io::Result<Vec<String>> {
    let mut words = Vec::new(rt.alloc());
    for word in env::args(rt)?.skip(1) {
        words.push(word)?;
    }
    Ok(words)
}

/// Runs the program over the files and the output of the system.
fn status_of(rt: &HostRuntime) -> Status {
    match words_of(rt) {
        Ok(words) => {
            let mut store = FileStore::new(rt.alloc(), rt);
            let mut out = OutSink::new(rt);
            cmse_main(rt.alloc(), words.as_slice(), &mut store, &mut out)
        }
        // A word that is no text.
        Err(e) if e.kind() == io::ErrorKind::InvalidData => Status::BadWords(1),
        Err(_) => Status::NoMemory,
    }
}

fn main(rt: HostRuntime) -> ExitCode {
    let status = status_of(&rt);
    if let Ok(line) = status_text(rt.alloc(), &status) {
        let _ = rt.stderr().write_all(line.as_slice());
    }
    ExitCode::from(status.code())
}
