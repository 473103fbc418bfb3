ghost use Rattle.std.specs.Prelude.{◌≡◌, ◌-◌, ◌≤◌, IfOk, IsTrue, Some, None, length, slice_set, if◌then◌else◌};
ghost use Rattle.std.specs.Bool.{OnFalse};
ghost use Rattle.cm_base.specs.declared.regions.TheConstants.{PLATFORM};
ghost use Rattle.ns_types.specs.Platform.{in_row, is_in_rom, is_readable, is_writable, region_of, row};
ghost use Rattle.ns_types.specs.State.{device_of};
ghost use Rattle.ns_types.specs.Gateway.{fetched};
ghost use Rattle.ns_types.specs.Memory.{IsStart, load, memory_of, read_of, rom_size, store, write_of};
ghost use Rattle.v8m_mem.specs.Rows.{AreWhole, is_size};
ghost use Rattle.v8m_mem.specs.Target.{target_of};

use crate::access::{can_read, can_write, region_at, target};
use crate::bytes::{get_number, set_number};
use cm_base::{NS_RAM, NS_ROM, NoMemory, Regions, SECURE_DATA, SECURE_ROM};
use ns_types::Start;
use std::alloc::Global;
use std::marker::Model;

/// The bytes of all regions.
#[derive(Drop)]
pub struct Memory {
    /// Secure ROM, and behind it the Non-secure callable region.
    rom: Vec<u8>,
    ns_rom: Vec<u8>,
    ns_ram: Vec<u8>,
    /// Secure data, and behind it Secure control.
    secure_ram: Vec<u8>,
}

impl Model for Memory {
    ghost use Rattle.ns_types.specs.State.{device_of};
    ghost use Rattle.v8m_mem.specs.Rows.{AreWhole, Rows};

    ghost Value = { Rows };

    ghost view = { λ m. record { device = device_of m.rom.items; memory = record { ns_rom = m.ns_rom.items; ns_ram = m.ns_ram.items; secure_ram = m.secure_ram.items } } };

    ghost invariant = { λ m. AreWhole (record { device = device_of m.rom.items; memory = record { ns_rom = m.ns_rom.items; ns_ram = m.ns_ram.items; secure_ram = m.secure_ram.items } }) };
}

impl Memory {
    /// Memory at reset: every byte of all regions is reserved here.
    pub fn new(
        alloc: Global,
        regions: Regions,
        rom: &[u8],
        start: &Start,
    ) -> Result<Memory, NoMemory>
        requires platform { regions ≡ PLATFORM }
        requires rom { length rom.now ≡ rom_size }
        requires start { IsStart start.now }
        ensures { IfOk result (λ m. m ≡ record { device = device_of rom.now; memory = memory_of start.now }) }
    {
        let _ = regions;
        Ok(Memory {
            rom: Vec::from_slice(alloc, rom)?,
            ns_rom: Vec::from_slice(alloc, start.ns_rom.as_slice())?,
            ns_ram: Vec::from_slice(alloc, start.ns_ram.as_slice())?,
            secure_ram: Vec::from_slice(alloc, start.secure_ram.as_slice())?,
        })
    }

    /// The number of 1, 2 or 4 bytes at an address, where one region holds them all.
    pub fn read(&self, at: u32, size: u8) -> Option<u32>
        requires { IsTrue (is_size size) }
        ensures { result ≡ read_of self.now.device self.now.memory at size }
    {
        if can_read(at, size) {
            Some(self.load(at, size))
        } else {
            None
        }
    }

    /// Writes the low 1, 2 or 4 bytes of a number at an address, where one region that can be
    /// written holds them all.
    pub fn write(&mut self, at: u32, size: u8, value: u32) -> bool
        requires { IsTrue (is_size size) }
        ensures device { self.new.device ≡ self.old.device }
        ensures write { write_of self.old.memory at size value ≡ (if result then Some self.new.memory else None) }
        ensures refused { OnFalse result (self.new ≡ self.old) }
    {
        if can_write(at, size) {
            self.store(at, size, value);
            true
        } else {
            false
        }
    }

    /// The number of the region that holds an address.
    pub fn region_of(&self, at: u32) -> Option<u8>
        ensures { result ≡ region_of at }
    {
        region_at(at)
    }

    /// Does nothing, and says to its caller that each region has its length.
    pub fn each_is_whole(&self)
        ensures { AreWhole self.now }
    {
        let _ = &self.rom;
    }

    /// What TT answers for an address (DDI0553, TT_RESP).
    pub fn tt(&self, at: u32) -> u32
        ensures { result ≡ target_of at }
    {
        target(at)
    }

    /// Non-secure RAM.
    pub fn ns_ram(&self) -> &[u8]
        ensures { result.now ≡ self.now.memory.ns_ram }
    {
        self.ns_ram.as_slice()
    }

    /// The number at an address that can be read.
    #[tactic(auto, unfolding(ns_types::specs::Memory::load, ns_types::specs::Platform::is_readable))]
    pub fn load(&self, at: u32, size: u8) -> u32
        requires size { IsTrue (is_size size) }
        requires readable { IsTrue (is_readable at size) }
        ensures { result ≡ load size at self.now.device self.now.memory }
    {
        if at >= SECURE_DATA.from {
            get_number(&self.secure_ram, (at - SECURE_DATA.from) as usize, size)
        } else if at >= NS_RAM.from {
            get_number(&self.ns_ram, (at - NS_RAM.from) as usize, size)
        } else if at >= SECURE_ROM.from {
            get_number(&self.rom, (at - SECURE_ROM.from) as usize, size)
        } else {
            get_number(&self.ns_rom, (at - NS_ROM.from) as usize, size)
        }
    }

    /// Writes a number at an address that can be written.
    #[tactic(auto, unfolding(ns_types::specs::Memory::store, ns_types::specs::Platform::is_writable))]
    pub fn store(&mut self, at: u32, size: u8, value: u32)
        requires size { IsTrue (is_size size) }
        requires writable { IsTrue (is_writable at size) }
        ensures { self.new ≡ record self.old { memory = store size at value self.old.memory } }
    {
        if at >= SECURE_DATA.from {
            set_number(
                &mut self.secure_ram,
                (at - SECURE_DATA.from) as usize,
                size,
                value,
            );
        } else {
            set_number(&mut self.ns_ram, (at - NS_RAM.from) as usize, size, value);
        }
    }

    /// The halfword of Secure ROM at an address; past its end stand zeros.
    #[tactic(auto, unfolding(ns_types::specs::Memory::half_at))]
    pub fn half(&self, at: u32) -> u16
        requires { IsTrue (is_in_rom at) }
        ensures { result ≡ fetched self.now.device at }
    {
        let o = (at - SECURE_ROM.from) as usize;
        if o + 1 < self.rom.len() {
            self.rom[o] as u16 + 0x100 * self.rom[o + 1] as u16
        } else {
            self.rom[o] as u16
        }
    }

    /// Writes a byte of Non-secure RAM.
    pub fn put_ns(&mut self, at: u32, byte: u8)
        requires { IsTrue (in_row 1 at) }
        ensures { self.new
            ≡ record self.old {
              memory = record self.old.memory { ns_ram = slice_set self.old.memory.ns_ram (at - (row 1).from) byte };
            } }
    {
        let o = (at - NS_RAM.from) as usize;
        self.ns_ram[o] = byte;
    }
}
