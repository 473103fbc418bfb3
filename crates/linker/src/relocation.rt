//! One relocation of a text, resolved (ELF for the Arm Architecture, Relocation).
ghost use Rattle.std.specs.Prelude.{◌≡◌, ◌+◌, ◌≤◌, ◌<◌, ◌^◌, length, IsTrue};
ghost use Rattle.cm_base.specs.LittleEndian.{le32};
ghost use Rattle.ns_types.specs.Memory.{half_at};
ghost use Rattle.v8m_isa.specs.Table.{in_range_of, size_of, is_register};
ghost use Rattle.v8m_isa.specs.Bytes.{instr_bytes};
ghost use Rattle.elf_object.specs.Linked.{register_of, register_at, resolved};
ghost use Rattle.link_laws.specs.Resolve.{Reaches, with_place};

use elf_object::{R_ARM_ABS32, R_ARM_THM_CALL, R_ARM_THM_JUMP24, R_ARM_THM_MOVW_ABS_NC, Reloc};
use v8m_isa::{Instr, decode, encode};

/// The halfword at a place of a text.
#[tactic(auto, unfolding(ns_types::specs::Memory::half_at))]
fn half_at(text: &[u8], at: usize) -> u16
    requires { at + 2 ≤ length text.now }
    ensures { result ≡ half_at text.now at }
{
    text[at] as u16 + 0x100 * text[at + 1] as u16
}

/// The register that a MOVW or a MOVT writes, and 0 for any other instruction.
#[tactic(auto, unfolding(v8m_isa::specs::Table::in_range_of))]
fn register_of(i: &Instr) -> u32
    requires { IsTrue (in_range_of i.now) }
    ensures is { result ≡ register_of i.now }
    ensures plain { IsTrue (is_register result) }
{
    match *i {
        Instr::Movw { d, .. } | Instr::Movt { d, .. } => d,
        _ => 0,
    }
}

/// The register of the instruction at a place of a text.
fn register_at(text: &[u8], at: usize) -> u32
    requires { at + 4 ≤ length text.now }
    ensures is { result ≡ register_at text.now at }
    ensures plain { IsTrue (is_register result) }
{
    match decode(half_at(text, at), half_at(text, at + 2)) {
        None => 0,
        Some((i, _size)) => register_of(&i),
    }
}

/// The word whose bytes are those of an instruction of two halfwords.
pub fn word_of(i: &Instr) -> u32
    requires range { IsTrue (in_range_of i.now) }
    requires wide { size_of i.now ≡ 4 }
    ensures { le32 result ≡ instr_bytes i.now }
{
    let code = encode(i);
    code.first as u32 + 0x1_0000 * code.second as u32
}

/// The word that stands at an address when a relocation is resolved there, by its kind, the place of its symbol, and the register
/// of the instruction.
#[tactic(auto, unfolding(v8m_isa::specs::Table::in_range_of, v8m_isa::specs::Table::size_of))]
fn resolved(kind: u8, at: u32, place: u32, register: u32) -> u32
    requires low { at + 4 < 2 ^ 32 }
    requires plain { IsTrue (is_register register) }
    requires reach { Reaches kind at place }
    ensures { le32 result ≡ resolved kind at place register }
{
    if kind == R_ARM_ABS32 {
        place
    } else if kind == R_ARM_THM_CALL {
        let call = place.wrapping_sub(at + 4);
        word_of(&Instr::Bl { off: call })
    } else if kind == R_ARM_THM_JUMP24 {
        let off = place.wrapping_sub(at + 4);
        word_of(&Instr::B { off })
    } else if kind == R_ARM_THM_MOVW_ABS_NC {
        let i = place % 0x1_0000;
        word_of(&Instr::Movw { d: register, i })
    } else {
        let i = place / 0x1_0000;
        word_of(&Instr::Movt { d: register, i })
    }
}

/// Resolves a relocation of a text that stands at an address, where the place of its symbol is known: all other bytes stay, and so do
/// the form and the register of the instruction.
#[tactic(auto, unfolding(link_laws::specs::Resolve::with_place))]
pub fn resolve(text: &mut [u8], text_at: u32, r: &Reloc, place: u32)
    requires fits { r.now.at + 4 ≤ length text.old }
    requires low { text_at + length text.old < 2 ^ 32 }
    requires reach { Reaches r.now.kind (text_at + r.now.at) place }
    ensures is { text.new ≡ with_place text_at text.old r.now place }
    ensures size { length text.new ≡ length text.old }
{
    let at = r.at as usize;
    let register = register_at(text, at);
    let word = resolved(r.kind, text_at + r.at, place, register);
    text[at..at + 4].copy_from_slice(&word.to_le_bytes());
}
