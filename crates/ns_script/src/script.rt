//! Scripts.

ghost use Rattle.std.specs.Prelude.{◌≡◌, ◌≤◌, ◌<◌, ◌+◌, ◌^◌, length, replicate, IfOk, IfSome};
ghost use Rattle.ns_types.specs.Memory.{IsStart};
ghost use Rattle.ns_script.specs.Text.{lines};
ghost use Rattle.ns_script.specs.Script as spec;

use crate::fault::ScriptFault;
use crate::line::{Line, Region, line_said};
use crate::text::{is, next_line};
use cm_base::{Bytes, List, NS_RAM, NS_ROM, NoMemory, SECURE_CONTROL, SECURE_DATA};
use ns_types::{Start, Turn};
use std::alloc::Global;

/// The bytes of Secure RAM, Non-secure RAM and Non-secure ROM.
const SECURE_RAM_SIZE: usize = (SECURE_CONTROL.to - SECURE_DATA.from) as usize;

const NS_RAM_SIZE: usize = (NS_RAM.to - NS_RAM.from) as usize;

const NS_ROM_SIZE: usize = (NS_ROM.to - NS_ROM.from) as usize;

/// What the lines so far say.
#[derive(Debug, Drop)]
pub struct Script {
    pub start: Start,
    pub turns: List<Turn>,
}

/// Copies bytes to a place.
#[tactic(auto, using(crate::proofs::ScriptLaws::writes))]
fn write_bytes(to: &mut Bytes, at: usize, more: &[u8])
    requires { at + length more.now ≤ length to.old }
    ensures { to.new ≡ spec.with_bytes to.old at more.now }
{
    let _room = to.len();
    for (i, byte) in more.iter().enumerate() {
        to.set(at + i, *byte);
    }
}

/// Memory with bytes from a place of a region on.
#[tactic(auto, unfolding(crate::specs::Script::put), using(crate::proofs::ScriptLaws::sizes))]
fn put(region: Region, place: usize, more: &[u8], start: &mut Start)
    requires lies { spec.Lies region place (length more.now) }
    requires whole { IsStart start.old }
    ensures after { start.new ≡ spec.put region place more.now start.old }
    ensures whole { IsStart start.new }
{
    match region {
        Region::SecureRam => write_bytes(&mut start.secure_ram, place, more),
        Region::NsRam => write_bytes(&mut start.ns_ram, place, more),
        Region::NsRom => write_bytes(&mut start.ns_rom, place, more),
    }
}

/// A byte, n times.
fn repeated(alloc: Global, byte: u8, n: usize) -> Result<Bytes, NoMemory>
    ensures { IfOk result (λ x. x ≡ replicate n byte) }
{
    let bytes = vec![in alloc; byte; n]?;
    Ok(Bytes::from_vec(bytes))
}

#[tactic(auto, using(crate::proofs::ScriptLaws::sizes))]
fn zeros(alloc: Global, n: usize) -> Result<Bytes, NoMemory>
    ensures value { IfOk result (λ x. x ≡ spec.zeros n) }
    ensures sized { IfOk result (λ x. length x ≡ n) }
{
    let bytes = repeated(alloc, 0, n)?;
    Ok(bytes)
}

/// What a script says before its first line.
fn empty_script(alloc: Global) -> Result<Script, NoMemory>
    ensures value { IfOk result (λ x. x ≡ spec.empty_script) }
    ensures whole { IfOk result (λ x. IsStart x.start) }
{
    let secure_ram = zeros(alloc, SECURE_RAM_SIZE)?;
    let ns_ram = zeros(alloc, NS_RAM_SIZE)?;
    let ns_rom = zeros(alloc, NS_ROM_SIZE)?;
    Ok(Script {
        start: Start {
            secure_ram,
            ns_ram,
            ns_rom,
        },
        turns: List::new(alloc),
    })
}

/// What is said so far with what one more line says; None where it can't stand here.
#[tactic(auto, unfolding(crate::specs::Script::with_said), using(crate::proofs::ScriptLaws::sizes))]
fn with_said(alloc: Global, said: Line, script: Script) -> Result<Option<Script>, NoMemory>
    requires fits { spec.LineLies said }
    requires whole { IsStart script.start }
    ensures value { IfOk result (λ x. x ≡ spec.with_said said script) }
    ensures whole { IfOk result (λ x. IfSome x (λ s. IsStart s.start)) }
{
    let Script {
        mut start,
        mut turns,
    } = script;
    let is_early = turns.len() == 0;
    match said {
        Line::Nothing => {}
        Line::Fill(byte) => {
            if !is_early {
                return Ok(None);
            }
            let n = start.secure_ram.len();
            start.secure_ram = repeated(alloc, byte, n)?;
        }
        Line::Put(region, place, bytes) => {
            if !is_early {
                return Ok(None);
            }
            put(region, place, bytes.as_slice(), &mut start);
        }
        Line::Turn(turn) => turns.push(turn)?,
    }
    Ok(Some(Script { start, turns }))
}

/// What is said so far with what the text of one more line says.
fn with_line(alloc: Global, text: &[u8], script: Script) -> Result<Option<Script>, NoMemory>
    requires { IsStart script.start }
    ensures value { IfOk result (λ x. x ≡ spec.with_line text.now script) }
    ensures whole { IfOk result (λ x. IfSome x (λ s. IsStart s.start)) }
{
    match line_said(alloc, text)? {
        Some(said) => with_said(alloc, said, script),
        None => Ok(None),
    }
}

/// What is said so far with what the lines of a text say, behind the first line of a script.
#[tactic(auto, using(crate::proofs::ScriptLaws::steps))]
fn read_lines(alloc: Global, first: Script, text: &[u8]) -> Result<Script, ScriptFault>
    requires room { length text.now + 1 < 2 ^ 32 }
    requires whole { IsStart first.start }
    ensures exact { spec.GivesScript result (spec.script_from 2 first (lines text.now)) }
    ensures whole { IfOk result (λ x. IsStart x.start) }
{
    let mut script = first;
    let mut rest = text;
    let mut number: u32 = 1;
    while !rest.is_empty() {
        number += 1;
        let (line, more) = next_line(rest);
        match with_line(alloc, line, script) {
            Ok(Some(next)) => script = next,
            Ok(None) => return Err(ScriptFault::BadLine(number)),
            Err(_) => return Err(ScriptFault::NoMemory),
        }
        rest = more;
    }
    Ok(script)
}

/// Reads a script: what memory holds when the device is reset, and the turns.
/// `BadLine(k)` comes where line k, from 1, is the first that breaks the grammar; a text without bytes is bad at 1.
#[tactic(auto, unfolding(crate::specs::Script::script_of), using(crate::proofs::ScriptLaws::wholes))]
pub fn read_script(alloc: Global, bytes: &[u8]) -> Result<(Start, List<Turn>), ScriptFault>
    requires { length bytes.now < 2 ^ 32 }
    ensures exact { spec.Gives result (spec.script_of bytes.now) }
    ensures whole { IfOk result (λ x. IsStart x.0) }
{
    if bytes.is_empty() {
        return Err(ScriptFault::BadLine(1));
    }
    let (first, rest) = next_line(bytes);
    if !is(first, "cmse-script 1") {
        return Err(ScriptFault::BadLine(1));
    }
    let Ok(script) = empty_script(alloc) else {
        return Err(ScriptFault::NoMemory);
    };
    match read_lines(alloc, script, rest) {
        Ok(read) => {
            let Script { start, turns } = read;
            Ok((start, turns))
        }
        Err(fault) => Err(fault),
    }
}
