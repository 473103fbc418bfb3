//! The instructions of Secure ROM, each decoded once.

ghost use Rattle.std.specs.Prelude.{◌≡◌, ℕ, true, IfOk, IfErr, IsSome, IsSomeAnd, List, None, Some, slice_get};
ghost use Rattle.cm_base.specs.declared.stop.Stop.TheVariants as stop;
ghost use Rattle.ns_types.specs.State.{Device};
ghost use Rattle.ns_types.specs.Platform.{is_in_rom};
ghost use Rattle.v8m_isa.specs.Table.{in_range_of};
ghost use Rattle.v8m_isa.specs.Decoding.{decode_of};
ghost use Rattle.v8m_core.specs.Known.{AreRead, IsAt, NoneAt};

use cm_base::{NoMemory, Stop};
use std::alloc::Global;
use std::marker::Model;
use v8m_isa::{Instr, decode, is_narrow};
use v8m_mem::{Memory, is_in_rom};

/// The instruction at an address, with its size in bytes.
#[derive(Clone, Copy)]
pub struct Known {
    at: u32,
    pub instr: Instr,
    pub size: u8,
}

/// How many are kept.
const PLACES: usize = 4096;

/// What stands in the places that aren't used yet: NOP at an address that isn't in ROM.
const UNUSED: Known = Known {
    at: 0,
    instr: Instr::Nop,
    size: 2,
};

/// The instruction of these halfwords at an address.
fn decoded(at: u32, first: u16, second: u16) -> Result<Known, Stop>
    ensures ok { IfOk result (λ k. (k.at ≡ at) × (in_range_of k.instr ≡ true) × (decode_of first second ≡ Some (record { instr = k.instr; size = k.size }))) }
    ensures err { IfErr result (λ why. (why ≡ stop.Undefined) × (decode_of first second ≡ None)) }
{
    match decode(first, second) {
        Some((instr, size)) => Ok(Known { at, instr, size }),
        None => Err(Stop::Undefined),
    }
}

/// The instruction at an address of ROM, or why there is none.
#[inline(never)]
fn read(memory: &Memory, at: u32) -> Result<Known, Stop>
    requires { is_in_rom at ≡ true }
    ensures ok { IfOk result (λ k. IsAt memory.now.device at k) }
    ensures err { IfErr result (λ why. NoneAt memory.now.device at why) }
{
    let first = memory.half(at);
    if is_narrow(first) {
        return decoded(at, first, 0);
    }
    if !is_in_rom(at + 2) {
        return Err(Stop::BadState);
    }
    decoded(at, first, memory.half(at + 2))
}

/// A decoder that keeps what it has decoded: code that runs again is decoded once.
#[derive(Drop)]
pub struct Decoder {
    known: Vec<Known>,
}

impl Model for Decoder {
    ghost use Rattle.std.specs.Prelude.{◌≡◌, List, length};
    ghost use Rattle.v8m_core.specs.declared.decoder.Known.{Known};

    ghost Value = { List Known };

    ghost view = { λ d. d.known.items };

    ghost invariant = { λ d. length d.known.items ≡ 4096 };
}

impl Decoder {
    /// A decoder that takes no more memory later.
    pub fn new(alloc: Global) -> Result<Decoder, NoMemory>
        ensures { IfOk result (λ d. (device : Device) → AreRead device d) }
    {
        let known = vec![in alloc; UNUSED; PLACES]?;
        Ok(Decoder { known })
    }

    /// The place of the instruction at an address, or why a step there stops.
    #[inline(always)]
    pub fn find(&mut self, memory: &Memory, pc: u32) -> Result<usize, Stop>
        requires { AreRead memory.now.device self.old }
        ensures kept { AreRead memory.now.device self.new }
        ensures ok { IfOk result (λ place. (is_in_rom pc ≡ true) × IsSomeAnd (slice_get self.new place) (λ k. IsAt memory.now.device pc k)) }
        ensures err { IfErr result (λ why. NoneAt memory.now.device pc why) }
    {
        if !is_in_rom(pc) {
            return Err(Stop::BadState);
        }
        let place = (pc as usize / 2) % PLACES;
        if self.known[place].at != pc {
            self.known[place] = read(memory, pc)?;
        }
        Ok(place)
    }

    /// The instruction at a place.
    #[inline(always)]
    pub fn at(&self, place: usize) -> &Known
        requires { IsSome (slice_get self.now place) }
        ensures { slice_get self.now place ≡ Some result.now }
    {
        &self.known[place]
    }
}
