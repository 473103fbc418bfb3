//! Checks the sources that it reads, each of which ends with `@`, and prints a line for each: its first fault, or the functions
//! that it defines with their nodes and slots, and its globals with their bytes. It checks each as often as its argument
//! says: `bench/check` measures it.
#![tactic(auto)]

use c_lex::{LexFault, MAX_SOURCE, lex};
use c_parse::{SyntaxFault, parse};
use c_rows::TypeFault;
use c_tree::{TFunction, TGlobal, TUnit, function_nodes, slots};
use c_unit::check;
use cm_base::{Place, Shared};
use std::alloc::Global;
use std::io::Read;
use std::{env, io};

/// Why a source has no typed tree.
#[derive(Clone, Copy, Debug, PartialEq, Eq)]
enum Fault {
    At { code: u8, place: Place },
    NoMemory,
}

/// The typed tree of a text, or its first fault.
fn checked(alloc: Global, text: &[u8]) -> Result<Shared<TUnit>, Fault> {
    if text.len() > MAX_SOURCE {
        return Err(Fault::NoMemory);
    }
    match lex(alloc, 0, text) {
        Ok(tokens) => match parse(alloc, tokens.as_slice()) {
            Ok(unit) => match check(alloc, &unit) {
                Ok(unit) => Ok(unit),
                Err(TypeFault::At { code, place }) => Err(Fault::At { code, place }),
                Err(TypeFault::NoMemory) => Err(Fault::NoMemory),
            },
            Err(SyntaxFault::At { code, place }) => Err(Fault::At { code, place }),
            Err(SyntaxFault::NoMemory) => Err(Fault::NoMemory),
        },
        Err(LexFault::At { code, place }) => Err(Fault::At { code, place }),
        Err(LexFault::NoMemory) => Err(Fault::NoMemory),
    }
}

fn print_name(rt: &HostRuntime, name: &[u8]) -> io::Result<()> {
    for b in name {
        let c = char::from(*b);
        print!(rt; "{c}")?;
    }
    Ok(())
}

fn print_function(rt: &HostRuntime, f: &TFunction) -> io::Result<()> {
    print!(rt; " ")?;
    print_name(rt, f.name.as_slice())?;
    let nodes = function_nodes(f);
    if nodes > 2000 {
        return Ok(());
    }
    let most = slots(f);
    print!(rt; ":{nodes}:{most}")
}

fn print_global(rt: &HostRuntime, g: &TGlobal) -> io::Result<()> {
    print!(rt; " ")?;
    print_name(rt, g.name.as_slice())?;
    print!(rt; "=")?;
    for b in g.init.as_slice() {
        print!(rt; "{b:02x}")?;
    }
    Ok(())
}

fn print_unit(rt: &HostRuntime, unit: &TUnit) -> io::Result<()> {
    print!(rt; "ok")?;
    for f in unit.functions.as_slice() {
        print_function(rt, f)?;
    }
    for g in unit.globals.as_slice() {
        print_global(rt, g)?;
    }
    println!(rt; "")
}

fn show(rt: &HostRuntime, text: &[u8], rounds: u32) -> io::Result<()> {
    for _round in 1..rounds {
        let _again = checked(rt.alloc(), text);
    }
    match checked(rt.alloc(), text) {
        Ok(unit) => print_unit(rt, unit.get()),
        Err(Fault::At { code, place }) => {
            let line = place.line;
            let col = place.col;
            println!(rt; "E{code:02} {line}:{col}")
        }
        Err(Fault::NoMemory) => println!(rt; "no memory"),
    }
}

/// The rest of a text behind the line end that it begins with.
fn behind_line_end(text: &[u8]) -> &[u8] {
    match text {
        [b'\n', rest @ ..] => rest,
        _ => text,
    }
}

fn main(rt: HostRuntime) -> io::Result<()> {
    let mut text: Vec<u8> = Vec::new(rt.alloc());
    rt.reader().read_to_end(&mut text)?;
    let mut rounds: u32 = 1;
    for word in env::args(&rt)? {
        rounds = word.as_str().parse::<u32>().unwrap_or(rounds);
    }
    let all = text.as_slice();
    let mut start = 0usize;
    for i in 0..all.len() {
        if all[i] == b'@' && start <= i {
            show(&rt, behind_line_end(&all[start..i]), rounds)?;
            start = i + 1;
        }
    }
    Ok(())
}
