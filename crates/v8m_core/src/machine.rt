//! The machine, and one step of Secure code.

ghost use Rattle.std.specs.Prelude.{◌≡◌, ◌≤◌, IfOk, IsTrue, length};
ghost use Rattle.std.specs.Bool.{OnFalse, OnTrue};
ghost use Rattle.ns_types.specs.declared.state.Side.TheVariants as sides;
ghost use Rattle.ns_types.specs.Boundary.{acted};
ghost use Rattle.ns_types.specs.State.{device_of};
ghost use Rattle.ns_types.specs.Memory.{IsStart, rom_size};
ghost use Rattle.v8m_core.specs.Code.{Comes};
ghost use Rattle.v8m_core.specs.Known.{AreRead};
ghost use Rattle.v8m_core.specs.Step.{step_of, turn_of, went};
ghost use Rattle.v8m_core.specs.Parts.{done, is_quiet, state};
ghost use Rattle.v8m_core.specs.Reset.{reset_cpu, reset_of};

use crate::Stepped;
use crate::applying::{self, apply};
use crate::decoder::Decoder;
use crate::gates::{align, stop};
use crate::operands::effect_of;
use crate::turning::play;
use cm_base::{Bytes, NoMemory, PLATFORM, SECURE_ROM, Stop};
use ns_types::{Cpu, Regs, Side, Start, Turn};
use std::alloc::Global;
use std::marker::Model;
use v8m_mem::Memory;

/// The bytes of Secure ROM and of the Non-secure callable region behind it: 4 MB.
#[derive(Debug, Drop)]
pub struct Image {
    pub rom: Bytes,
}

/// A machine: memory, and the state of the processor.
#[derive(Drop)]
pub struct Machine {
    memory: Memory,
    cpu: Cpu,
    decoder: Decoder,
}

impl Model for Machine {
    ghost use Rattle.ns_types.specs.State.{Whole};
    ghost use Rattle.v8m_core.specs.Known.{AreRead};

    ghost Value = { Whole };

    ghost view = { λ m. record { device = m.memory.device; state = record { cpu = m.cpu; memory = m.memory.memory } } };

    ghost invariant = { λ m. AreRead m.memory.device m.decoder };
}

/// The processor at reset (DDI0553, Reset).
#[tactic(auto, unfolding(ns_types::specs::Platform::is_readable, ns_types::specs::Memory::load))]
fn reset_cpu(memory: &Memory) -> Cpu
    ensures { result ≡ reset_cpu memory.now.device }
{
    let sp = align(4, memory.load(SECURE_ROM.from, 4));
    let pc = align(2, memory.load(SECURE_ROM.from + 4, 4));
    Cpu {
        side: Side::Secure,
        regs: Regs {
            r0: 0,
            r1: 0,
            r2: 0,
            r3: 0,
            r4: 0,
            r5: 0,
            r6: 0,
            r7: 0,
            r8: 0,
            r9: 0,
            r10: 0,
            r11: 0,
            r12: 0,
            sp,
            lr: 0xFFFF_FFFF,
        },
        pc,
        nzcvq: 0,
        psp: 0,
        msplim: 0,
        psplim: 0,
        msp_ns: 0,
        psp_ns: 0,
    }
}

/// One step in Secure state.
fn step(memory: &mut Memory, cpu: &mut Cpu, decoder: &mut Decoder) -> Stepped
    requires { AreRead memory.old.device decoder.old }
    ensures device { memory.new.device ≡ memory.old.device }
    ensures kept { AreRead memory.new.device decoder.new }
    ensures step { step_of memory.old.device (state cpu.old memory.old.memory) ≡ done cpu.new memory.new.memory result }
{
    match decoder.find(memory, cpu.pc) {
        Ok(place) => {
            let known = decoder.at(place);
            let effect = effect_of(cpu, &known.instr);
            apply(memory, cpu, effect, known.size as u32)
        }
        Err(why) => stop(cpu, why),
    }
}

/// One step in Secure state, if it only goes on; else nothing changes.
#[inline(always)]
fn go_on(memory: &mut Memory, cpu: &mut Cpu, decoder: &mut Decoder) -> bool
    requires { AreRead memory.old.device decoder.old }
    ensures device { memory.new.device ≡ memory.old.device }
    ensures kept { AreRead memory.new.device decoder.new }
    ensures on { OnTrue result (step_of memory.old.device (state cpu.old memory.old.memory) ≡ went (state cpu.new memory.new.memory)) }
    ensures still { OnFalse result (state cpu.new memory.new.memory ≡ state cpu.old memory.old.memory) }
{
    match decoder.find(memory, cpu.pc) {
        Ok(place) => {
            let known = decoder.at(place);
            let effect = effect_of(cpu, &known.instr);
            applying::go_on(memory, cpu, effect, known.size as u32)
        }
        Err(_) => false,
    }
}

impl Machine {
    /// The machine at reset, with all the memory that it needs.
    pub fn new(alloc: Global, image: &Image, start: &Start) -> Result<Machine, NoMemory>
        requires rom { length image.now.rom ≡ rom_size }
        requires start { IsStart start.now }
        ensures { IfOk result (λ m. m ≡ record { device = device_of image.now.rom; state = reset_of (device_of image.now.rom) start.now }) }
    {
        let memory = Memory::new(alloc, PLATFORM, image.rom.as_slice(), start)?;
        let cpu = reset_cpu(&memory);
        let decoder = Decoder::new(alloc)?;
        Ok(Machine {
            memory,
            cpu,
            decoder,
        })
    }

    /// Who runs.
    pub fn side(&self) -> Side
        ensures { result ≡ self.now.state.cpu.side }
    {
        self.cpu.side
    }

    /// Non-secure RAM.
    pub fn ns_ram(&self) -> &[u8]
        ensures { result.now ≡ self.now.state.memory.ns_ram }
    {
        self.memory.ns_ram()
    }

    /// One instruction, with the gate that it opens.
    pub fn step(&mut self) -> Stepped
        requires { self.old.state.cpu.side ≡ sides.Secure }
        ensures device { self.new.device ≡ self.old.device }
        ensures step { step_of self.old.device self.old.state ≡ record { state = self.new.state; what = result } }
    {
        step(&mut self.memory, &mut self.cpu, &mut self.decoder)
    }

    /// Takes steps that only go on, at most so many, and answers how many: the next one may end the run or make an event.
    pub fn go_on(&mut self, most: u64) -> u64
        requires { self.old.state.cpu.side ≡ sides.Secure }
        ensures device { self.new.device ≡ self.old.device }
        ensures most { result ≤ most }
        ensures steps { Comes self.old.device result self.old.state self.new.state }
    {
        for taken in 0..most {
            if !go_on(&mut self.memory, &mut self.cpu, &mut self.decoder) {
                return taken;
            }
        }
        most
    }

    /// One turn of Non-secure code: Went or Stopped. Its Write items change Non-secure RAM, also where it stops.
    pub fn turn(&mut self, turn: &Turn) -> Stepped
        requires { self.old.state.cpu.side ≡ sides.NonSecure }
        ensures device { self.new.device ≡ self.old.device }
        ensures ram { self.new.state.memory.ns_ram ≡ (acted turn.now.items self.old.state.memory.ns_ram).ram }
        ensures quiet { IsTrue (is_quiet result) }
        ensures turn { turn_of self.old.device turn.now self.old.state ≡ record { state = self.new.state; what = result } }
    {
        play(&mut self.memory, &mut self.cpu, turn)
    }
}
