//! The Secure ROM of a program whose one entry gives a number, and what the machine shows of it.
#![tactic(auto)]

pub mod laws;

ghost use Rattle.std.specs.Prelude.{◌≡◌, ◌/◌, ◌%◌, ◌++◌, ◌∷◌, [], replicate, OnOk, IfOk, IsTrue, All};
ghost use Rattle.cm_base.specs.LittleEndian.{le32};
ghost use Rattle.v8m_isa.specs.Table.{in_range_of};
ghost use Rattle.v8m_isa.specs.declared.instr.Instr.TheVariants.{Movt, Movw};
ghost use Rattle.v8m_isa.specs.Bytes.{instr_bytes, code_bytes};
ghost use Rattle.std.specs.List.{flat_map};
ghost use Rattle.constant_entry.specs.Code.{start_code, entry_code, vector_words, used_bytes, gateway_bytes};

use cm_base::{
    Bytes, DATA_POINTER, MAIN_SEAL, NSC, NoMemory, PROCESS_LIMIT, PROCESS_SEAL, SEAL_WORD,
    SECURE_CONTROL, SECURE_DATA, SECURE_ROM,
};
use elf32::{put16, put32};
use std::alloc::Global;
use v8m_isa::{Instr, encode};

/// The address of the code that an image starts with, and of the one entry's code.
pub const START: u32 = SECURE_ROM.from + 0x40;

pub const ENTRY: u32 = SECURE_ROM.from + 0xD0;

/// The address of the one veneer, the first place of the Non-secure callable region.
pub const VENEER: u32 = NSC.from;

// The place of the one UDF 0.
const STOP: u32 = SECURE_ROM.from + 0xE8;

// The bytes of the Non-secure callable region behind the one gateway.
const REST: u32 = NSC.to - NSC.from - 8;

// The low half of a number into a register.
fn low(d: u32, v: u32) -> Instr
    ensures { result ≡ Movw d (v % 65536) }
{
    Instr::Movw { d, i: v % 0x1_0000 }
}

// The high half above it.
fn high(d: u32, v: u32) -> Instr
    ensures { result ≡ Movt d (v / 65536) }
{
    Instr::Movt { d, i: v / 0x1_0000 }
}

fn start_code() -> [Instr; 42]
    ensures { result ≡ start_code }
{
    use Instr::{Bic, Bxns, Ldr, Mov, Movw, Msr, Str};
    [
        low(0, SECURE_CONTROL.from),
        high(0, SECURE_CONTROL.from),
        Msr { s: 10, n: 0 },
        low(0, PROCESS_SEAL),
        high(0, PROCESS_SEAL),
        Msr { s: 9, n: 0 },
        low(1, PROCESS_LIMIT),
        high(1, PROCESS_LIMIT),
        Msr { s: 11, n: 1 },
        low(2, SEAL_WORD),
        high(2, SEAL_WORD),
        Str { t: 2, n: 0, i: 0 },
        Str { t: 2, n: 0, i: 4 },
        low(0, MAIN_SEAL),
        high(0, MAIN_SEAL),
        Str { t: 2, n: 0, i: 0 },
        Str { t: 2, n: 0, i: 4 },
        low(0, DATA_POINTER),
        high(0, DATA_POINTER),
        low(1, SECURE_DATA.from),
        high(1, SECURE_DATA.from),
        Str { t: 1, n: 0, i: 0 },
        Movw { d: 0, i: 0 },
        Ldr { t: 1, n: 0, i: 0 },
        Msr { s: 136, n: 1 },
        Ldr { t: 1, n: 0, i: 4 },
        Movw { d: 2, i: 1 },
        Bic { d: 14, n: 1, m: 2 },
        Mov { d: 1, m: 0 },
        Mov { d: 2, m: 0 },
        Mov { d: 3, m: 0 },
        Mov { d: 4, m: 0 },
        Mov { d: 5, m: 0 },
        Mov { d: 6, m: 0 },
        Mov { d: 7, m: 0 },
        Mov { d: 8, m: 0 },
        Mov { d: 9, m: 0 },
        Mov { d: 10, m: 0 },
        Mov { d: 11, m: 0 },
        Mov { d: 12, m: 0 },
        Msr { s: 0, n: 0 },
        Bxns { m: 14 },
    ]
}

fn entry_code(n: u32) -> [Instr; 8]
    ensures { result ≡ entry_code n }
{
    use Instr::{Bxns, Mov, Movw, Msr};
    [
        low(0, n),
        high(0, n),
        Movw { d: 1, i: 0 },
        Mov { d: 2, m: 1 },
        Mov { d: 3, m: 1 },
        Mov { d: 12, m: 1 },
        Msr { s: 0, n: 1 },
        Bxns { m: 14 },
    ]
}

// Appends an instruction.
fn put_instr(to: &mut Bytes, instr: &Instr) -> Result<(), NoMemory>
    requires { IsTrue (in_range_of instr.now) }
    ensures { OnOk result (to.new ≡ to.old ++ instr_bytes instr.now) }
{
    let code = encode(instr);
    put16(to, code.first)?;
    if code.size == 4 {
        put16(to, code.second)?;
    }
    Ok(())
}

// Appends code.
fn put_code(to: &mut Bytes, code: &[Instr]) -> Result<(), NoMemory>
    requires { All (λ i. IsTrue (in_range_of i)) code.now }
    ensures { OnOk result (to.new ≡ to.old ++ code_bytes code.now) }
{
    for instr in code {
        put_instr(to, instr)?;
    }
    Ok(())
}

// Appends zero bytes.
fn put_zeros(to: &mut Bytes, n: usize) -> Result<(), NoMemory>
    ensures { OnOk result (to.new ≡ to.old ++ replicate n 0) }
{
    for _done in 0..n {
        to.push(0)?;
    }
    Ok(())
}

// Appends words, the byte of least worth first.
fn put_words(to: &mut Bytes, words: &[u32]) -> Result<(), NoMemory>
    ensures { OnOk result (to.new ≡ to.old ++ flat_map le32 words.now) }
{
    for word in words {
        put32(to, *word)?;
    }
    Ok(())
}

// The vector table: the main stack pointer, the reset address, and the one stop for each exception.
fn vector_words() -> [u32; 16]
    ensures { result ≡ vector_words }
{
    const EACH: u32 = STOP + 1;
    [
        MAIN_SEAL,
        START + 1,
        EACH,
        EACH,
        EACH,
        EACH,
        EACH,
        EACH,
        EACH,
        EACH,
        EACH,
        EACH,
        EACH,
        EACH,
        EACH,
        EACH,
    ]
}

/// Secure ROM from its first byte to the last used one, for an entry that gives `n`.
pub fn used(alloc: Global, n: u32) -> Result<Bytes, NoMemory>
    ensures { IfOk result (λ bytes. bytes ≡ used_bytes n) }
{
    let mut bytes = Bytes::new(alloc);
    put_words(&mut bytes, &vector_words())?;
    put_code(&mut bytes, &start_code())?;
    put_zeros(&mut bytes, 2)?;
    put_code(&mut bytes, &entry_code(n))?;
    put_code(&mut bytes, &[Instr::Udf { i: 0 }])?;
    Ok(bytes)
}

/// The Non-secure callable region.
pub fn gateways(alloc: Global) -> Result<Bytes, NoMemory>
    ensures { IfOk result (λ bytes. bytes ≡ gateway_bytes) }
{
    let mut bytes = Bytes::new(alloc);
    let code = [
        Instr::Sg,
        Instr::B {
            off: ENTRY.wrapping_sub(VENEER + 8),
        },
    ];
    put_code(&mut bytes, &code)?;
    put_zeros(&mut bytes, REST as usize)?;
    Ok(bytes)
}
