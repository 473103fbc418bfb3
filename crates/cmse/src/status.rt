//! How a command ended, and the line that says so.
ghost use Rattle.std.specs.Prelude.{◌≡◌, ◌<◌, ◌++◌, codes, OnOk, IfOk};
ghost use Rattle.std.specs.Fmt.{decimal};
ghost use Rattle.cmse.specs.Status.{error_text, hex_digit, address_text, refusal_text, line_of, text_of};

use cm_base::{Bytes, NoMemory, Refusal, Text};
use std::alloc::Global;

/// How a command ended.
#[derive(Debug, Drop)]
pub enum Status {
    Done,
    /// The sources, or the old import library, are refused.
    Refused(Refusal),
    /// The number of the first word that no command allows there, or the number after the last where words are missing.
    BadWords(u32),
    /// The name of a file that wasn't read.
    CannotRead(Text),
    /// The name of a file that wasn't written, or `-` for the output.
    CannotWrite(Text),
    NoMemory,
    /// An input file is unfit: the offset in it, or its line in a script.
    BadInput { file: Text, at: u32 },
}

impl Status {
    ghost use Rattle.std.specs.Prelude.{◌≡◌};
    ghost use Rattle.cmse.specs.Status.{code_of};

    /// The exit status of the program.
    pub fn code(&self) -> u8
        ensures { result ≡ code_of self.now }
    {
        match self {
            Status::Done => 0,
            Status::Refused(_) => 1,
            Status::BadWords(_) => 2,
            Status::CannotRead(_) | Status::CannotWrite(_) => 3,
            Status::NoMemory => 4,
            Status::BadInput { .. } => 5,
        }
    }
}

/// The worth of each of eight hexadecimal digits.
const PLACES: [u32; 8] = [
    0x1000_0000,
    0x100_0000,
    0x10_0000,
    0x1_0000,
    0x1000,
    0x100,
    0x10,
    1,
];

fn push_decimal(alloc: Global, out: &mut Bytes, n: u64) -> Result<(), NoMemory>
    ensures { OnOk result (out.new ≡ out.old ++ decimal n) }
{
    let text = n.to_string(alloc)?;
    out.extend_from_slice(text.as_bytes())
}

/// The code of a fault, with two digits at least.
fn push_error(alloc: Global, out: &mut Bytes, code: u8) -> Result<(), NoMemory>
    ensures { OnOk result (out.new ≡ out.old ++ error_text code) }
{
    if code < 10 {
        out.extend_from_slice(b"E0")?;
    } else {
        out.extend_from_slice(b"E")?;
    }
    push_decimal(alloc, out, u64::from(code))
}

fn hex_digit(d: u8) -> u8
    requires { d < 16 }
    ensures { result ≡ hex_digit d }
{
    if d < 10 { b'0' + d } else { b'a' + (d - 10) }
}

/// Eight hexadecimal digits in lower case.
#[tactic(auto, unfolding(crate::specs::Status::address_text))]
fn push_address(out: &mut Bytes, address: u32) -> Result<(), NoMemory>
    ensures { OnOk result (out.new ≡ out.old ++ address_text address) }
{
    for place in PLACES {
        out.push(hex_digit((address / place % 16) as u8))?;
    }
    Ok(())
}

fn push_place(
    alloc: Global,
    out: &mut Bytes,
    file: &Text,
    line: u32,
    col: u32,
) -> Result<(), NoMemory>
    ensures { OnOk result (out.new ≡ out.old ++ (file.now ++ (codes ":" ++ (decimal line ++ (codes ":" ++ decimal col))))) }
{
    out.extend_from_slice(file.as_slice())?;
    out.extend_from_slice(b":")?;
    push_decimal(alloc, out, u64::from(line))?;
    out.extend_from_slice(b":")?;
    push_decimal(alloc, out, u64::from(col))
}

fn push_refusal(alloc: Global, out: &mut Bytes, refusal: &Refusal) -> Result<(), NoMemory>
    ensures { OnOk result (out.new ≡ out.old ++ refusal_text refusal.now) }
{
    match refusal {
        Refusal::At {
            code,
            file,
            line,
            col,
        } => {
            push_place(alloc, out, file, *line, *col)?;
            out.extend_from_slice(b": ")?;
            push_error(alloc, out, *code)
        }
        Refusal::Named { code, name } => {
            push_error(alloc, out, *code)?;
            out.extend_from_slice(b" ")?;
            out.extend_from_slice(name.as_slice())
        }
        Refusal::Count { code, found } => {
            push_error(alloc, out, *code)?;
            out.extend_from_slice(b" ")?;
            push_decimal(alloc, out, *found)
        }
        Refusal::OldAt { name, address } => {
            out.extend_from_slice(b"E64 ")?;
            out.extend_from_slice(name.as_slice())?;
            out.extend_from_slice(b" ")?;
            push_address(out, *address)
        }
        Refusal::Library { offset } => {
            out.extend_from_slice(b"E66 ")?;
            push_decimal(alloc, out, u64::from(*offset))
        }
    }
}

fn push_named(out: &mut Bytes, what: &[u8], name: &Text) -> Result<(), NoMemory>
    ensures { OnOk result (out.new ≡ out.old ++ (what.now ++ name.now)) }
{
    out.extend_from_slice(what)?;
    out.extend_from_slice(name.as_slice())
}

/// The line without its line feed.
fn push_line(alloc: Global, out: &mut Bytes, status: &Status) -> Result<(), NoMemory>
    ensures { OnOk result (out.new ≡ out.old ++ line_of status.now) }
{
    match status {
        Status::Done => Ok(()),
        Status::Refused(refusal) => push_refusal(alloc, out, refusal),
        Status::BadWords(k) => {
            out.extend_from_slice(b"word ")?;
            push_decimal(alloc, out, u64::from(*k))
        }
        Status::CannotRead(name) => push_named(out, b"cannot read ", name),
        Status::CannotWrite(name) => push_named(out, b"cannot write ", name),
        Status::NoMemory => out.extend_from_slice(b"no memory"),
        Status::BadInput { file, at } => {
            out.extend_from_slice(file.as_slice())?;
            out.extend_from_slice(b": bad at ")?;
            push_decimal(alloc, out, u64::from(*at))
        }
    }
}

/// What the program prints of a command that didn't succeed: one line, with its line feed. It is empty where the
/// command succeeded.
pub fn status_text(alloc: Global, status: &Status) -> Result<Bytes, NoMemory>
    ensures { IfOk result (λ text. text ≡ text_of status.now) }
{
    let mut out = Bytes::new(alloc);
    if let Status::Done = status {
        return Ok(out);
    }
    push_line(alloc, &mut out, status)?;
    out.extend_from_slice(b"\n")?;
    Ok(out)
}
