//! Parses what it reads, as often as its argument says, and prints how many parts the unit has, or its first fault.
//! `bench/parse` measures it.
#![tactic(auto)]

use c_lex::{LexFault, MAX_SOURCE, lex};
use c_parse::{SyntaxFault, parse};
use std::io::Read;
use std::{env, io};

fn main(rt: HostRuntime) -> io::Result<()> {
    let mut text: Vec<u8> = Vec::new(rt.alloc());
    rt.reader().read_to_end(&mut text)?;
    let mut rounds: u32 = 1;
    for word in env::args(&rt)? {
        rounds = word.as_str().parse::<u32>().unwrap_or(rounds);
    }
    if text.len() > MAX_SOURCE {
        return println!(rt; "too long");
    }
    let tokens = match lex(rt.alloc(), 0, text.as_slice()) {
        Ok(tokens) => tokens,
        Err(LexFault::At { code, place }) => {
            let line = place.line;
            let col = place.col;
            return println!(rt; "E{code:02} {line}:{col}");
        }
        Err(LexFault::NoMemory) => return println!(rt; "no memory"),
    };
    for _round in 1..rounds {
        let _again = parse(rt.alloc(), tokens.as_slice());
    }
    match parse(rt.alloc(), tokens.as_slice()) {
        Ok(unit) => {
            let parts = unit.parts.len();
            println!(rt; "ok {parts}")
        }
        Err(SyntaxFault::At { code, place }) => {
            let line = place.line;
            let col = place.col;
            println!(rt; "E{code:02} {line}:{col}")
        }
        Err(SyntaxFault::NoMemory) => println!(rt; "no memory"),
    }
}
