//! From code with labels to bytes.

ghost use Rattle.std.specs.Prelude.{◌≡◌, ◌≤◌, ◌<◌, ◌+◌, ◌++◌, ℕ, IsTrue, IfOk, IfSome, OnOk, All, None, nat_eq};
ghost use Rattle.std.specs.HashMap as hash;
ghost use Rattle.cm_base.specs.LittleEndian.{le16};
ghost use Rattle.v8m_isa.specs.Table.{in_range_of};
ghost use Rattle.v8m_isa.specs.Bytes.{instr_bytes, code_bytes};
ghost use Rattle.ns_types.specs.Operators.{subtract};
ghost use Rattle.asm_fix.specs.Fixed.{member_size, bytes_in, is_in_range, leads_once, found_by, label_at, instr_at, its_bytes, fixed};
ghost use Rattle.asm_fix.specs.Places.{place_in};

use crate::asm::Asm;
use cm_base::{Bytes, NoMemory};
use std::alloc::Global;
use std::collections::HashMap;
use v8m_isa::{Instr, encode};

/// The bytes of code (DDI0553, part C), each jump a B or a B under its condition that leads to its label. Each instruction is in
/// range, each label that a jump names stands once, and the code has at most 512,000 bytes.
pub fn fix(alloc: Global, asm: &[Asm]) -> Result<Bytes, NoMemory>
    requires range { All (λ a. IsTrue (is_in_range a)) asm.now }
    requires once { All (λ a. IsTrue (leads_once asm.now a)) asm.now }
    requires short { bytes_in asm.now ≤ 512000 }
    ensures { IfOk result (λ bytes. bytes ≡ code_bytes (fixed asm.now)) }
{
    let places = places(alloc, asm)?;
    let mut bytes = Bytes::new(alloc);
    let mut at = 0;
    for a in asm {
        put(&mut bytes, &places, at, a)?;
        at += size(a);
    }
    Ok(bytes)
}

// Where each label stands, in bytes from the beginning.
fn places(alloc: Global, asm: &[Asm]) -> Result<HashMap<u32, u32>, NoMemory>
    requires range { All (λ a. IsTrue (is_in_range a)) asm.now }
    requires short { bytes_in asm.now ≤ 512000 }
    ensures { IfOk result (λ m. (l : ℕ) → hash.get nat_eq m l ≡ label_at l None 0 asm.now) }
{
    let mut places = HashMap::new(alloc);
    let mut at = 0;
    for a in asm {
        note(&mut places, at, a)?;
        at += size(a);
    }
    Ok(places)
}

// Notes the place of a label.
fn note(places: &mut HashMap<u32, u32>, at: u32, a: &Asm) -> Result<(), NoMemory>
    ensures { OnOk result ((l : ℕ) → hash.get nat_eq places.new l ≡ found_by l (hash.get nat_eq places.old l) at a.now) }
{
    if let Asm::Label(label) = a {
        places.insert(*label, at)?;
    }
    Ok(())
}

// How many bytes a member takes.
fn size(a: &Asm) -> u32
    requires { IsTrue (is_in_range a.now) }
    ensures { result ≡ member_size a.now }
{
    match a {
        Asm::Op(i) => u32::from(encode(i).size),
        Asm::Label(_) => 0,
        Asm::Jump { .. } | Asm::JumpIf { .. } => 4,
    }
}

// Appends the instruction of a member, if it has one.
fn put(bytes: &mut Bytes, places: &HashMap<u32, u32>, at: u32, a: &Asm) -> Result<(), NoMemory>
    requires at { at ≤ 512000 }
    requires range { IfSome (instr_at (place_in places.now) at a.now) (λ i. IsTrue (in_range_of i)) }
    ensures { OnOk result (bytes.new ≡ bytes.old ++ its_bytes (instr_at (place_in places.now) at a.now)) }
{
    match instr_at(places, at, a) {
        Some(instr) => put_instr(bytes, &instr),
        None => Ok(()),
    }
}

// The instruction of a member, if it has one.
fn instr_at(places: &HashMap<u32, u32>, at: u32, a: &Asm) -> Option<Instr>
    requires { at ≤ 512000 }
    ensures { result ≡ instr_at (place_in places.now) at a.now }
{
    match *a {
        Asm::Op(i) => Some(i),
        Asm::Label(_) => None,
        Asm::Jump { to } => Some(Instr::B {
            off: offset(places, at, to),
        }),
        Asm::JumpIf { cond, to } => Some(Instr::Bc {
            c: u32::from(cond),
            off: offset(places, at, to),
        }),
    }
}

// The offset from a branch to a label: it counts from the branch's place plus 4.
fn offset(places: &HashMap<u32, u32>, at: u32, to: u32) -> u32
    requires { at ≤ 512000 }
    ensures { result ≡ subtract (place_in places.now to) (at + 4) }
{
    let place = places.get(&to).copied().unwrap_or(0);
    place.wrapping_sub(at + 4)
}

// Appends an instruction.
fn put_instr(bytes: &mut Bytes, instr: &Instr) -> Result<(), NoMemory>
    requires { IsTrue (in_range_of instr.now) }
    ensures { OnOk result (bytes.new ≡ bytes.old ++ instr_bytes instr.now) }
{
    let code = encode(instr);
    put_half(bytes, code.first)?;
    if code.size == 4 {
        put_half(bytes, code.second)?;
    }
    Ok(())
}

// Appends a halfword, its low byte first.
fn put_half(bytes: &mut Bytes, half: u16) -> Result<(), NoMemory>
    ensures { OnOk result (bytes.new ≡ bytes.old ++ le16 half) }
{
    let both = half.to_le_bytes();
    bytes.extend_from_slice(&both)
}
