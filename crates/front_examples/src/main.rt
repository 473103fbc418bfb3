//! Joins the programs that it reads, each of sources that end with `@`, and itself ended by `$`, and prints a line for each: its first
//! fault, or its nodes, the bytes of its globals and the number of its entry functions.
#![tactic(auto)]

use c_front::{BuildFault, Source, front};
use c_tree::{Program, function_nodes, globals_bytes};
use cm_base::{Bytes, List, NoMemory, Refusal, Text};
use std::alloc::Global;
use std::io;
use std::io::Read;

/// The most sources of a program.
const MOST: usize = 32;

/// A source of this number, named as s0.c.
fn source_of(alloc: Global, number: usize, text: &[u8]) -> Result<Source, NoMemory> {
    let tens = (number / 10 % 10) as u8;
    let ones = (number % 10) as u8;
    let mut name = Text::from_slice(alloc, b"s")?;
    if number > 9 {
        name.push(b'0' + tens)?;
    }
    name.push(b'0' + ones)?;
    name.extend_from_slice(b".c")?;
    Ok(Source {
        name,
        bytes: Bytes::from_slice(alloc, text)?,
    })
}

/// The rest of a text behind the line end that it begins with.
fn behind_line_end(text: &[u8]) -> &[u8] {
    match text {
        [b'\n', rest @ ..] => rest,
        _ => text,
    }
}

/// The sources of a program.
fn sources_of(alloc: Global, text: &[u8]) -> Result<List<Source>, NoMemory> {
    let mut all = List::new(alloc);
    let mut start = 0usize;
    for i in 0..text.len() {
        if text[i] == b'@' && start <= i {
            all.push(source_of(alloc, all.len(), behind_line_end(&text[start..i]))?)?;
            start = i + 1;
        }
    }
    Ok(all)
}

fn print_text(rt: &HostRuntime, name: &[u8]) -> io::Result<()> {
    for b in name {
        let c = char::from(*b);
        print!(rt; "{c}")?;
    }
    Ok(())
}

fn print_program(rt: &HostRuntime, program: &Program) -> io::Result<()> {
    let mut nodes = program.globals.len();
    for f in program.functions.as_slice() {
        nodes = nodes.saturating_add(function_nodes(f) as usize);
    }
    let bytes = globals_bytes(program.globals.as_slice());
    let entries = program.entries.len();
    println!(rt; "ok {nodes} {bytes} {entries}")
}

fn print_refusal(rt: &HostRuntime, refusal: &Refusal) -> io::Result<()> {
    match refusal {
        Refusal::At {
            code,
            file,
            line,
            col,
        } => {
            print_text(rt, file.as_slice())?;
            println!(rt; ":{line}:{col}: E{code:02}")
        }
        Refusal::Named { code, name } => {
            print!(rt; "E{code:02} ")?;
            print_text(rt, name.as_slice())?;
            println!(rt; "")
        }
        Refusal::Count { code, found } => println!(rt; "E{code:02} {found}"),
        _ => println!(rt; "another refusal"),
    }
}

fn show(rt: &HostRuntime, text: &[u8]) -> io::Result<()> {
    match sources_of(rt.alloc(), text) {
        Ok(sources) => {
            if sources.len() > MOST {
                return println!(rt; "more than 32 sources");
            }
            match front(rt.alloc(), sources.as_slice()) {
                Ok(program) => print_program(rt, program.get()),
                Err(BuildFault::Refused(refusal)) => print_refusal(rt, &refusal),
                Err(BuildFault::NoMemory) => println!(rt; "no memory"),
            }
        }
        Err(NoMemory) => println!(rt; "no memory"),
    }
}

fn main(rt: HostRuntime) -> io::Result<()> {
    let mut text: Vec<u8> = Vec::new(rt.alloc());
    rt.reader().read_to_end(&mut text)?;
    let all = text.as_slice();
    let mut start = 0usize;
    for i in 0..all.len() {
        if all[i] == b'$' && start <= i {
            show(&rt, behind_line_end(&all[start..i]))?;
            start = i + 1;
        }
    }
    Ok(())
}
