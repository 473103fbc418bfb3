//! Lexes what it reads, as often as its argument says, and prints how many tokens there are. `bench/lex` measures it.
#![tactic(auto)]

use c_lex::{MAX_SOURCE, lex};
use std::io::Read;
use std::{env, io};

fn main(rt: HostRuntime) -> io::Result<()> {
    let mut text: Vec<u8> = Vec::new(rt.alloc());
    rt.reader().read_to_end(&mut text)?;
    let mut rounds: u32 = 1;
    for word in env::args(&rt)? {
        rounds = word.as_str().parse::<u32>().unwrap_or(rounds);
    }
    let mut found = 0;
    if text.len() <= MAX_SOURCE {
        for _round in 0..rounds {
            found = match lex(rt.alloc(), 0, text.as_slice()) {
                Ok(tokens) => tokens.len(),
                Err(_fault) => 0,
            };
        }
    }
    println!(rt; "{found} tokens")
}
