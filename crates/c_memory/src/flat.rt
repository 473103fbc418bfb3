ghost use Rattle.std.specs.Prelude.{◌≡◌, ◌-◌, ◌≤◌, [], if◌then◌else◌, IfOk, IsTrue, is_none, length, slice_set};
ghost use Rattle.ns_types.specs.Access.{may_read, may_write, read_access};
ghost use Rattle.ns_types.specs.Boundary.{acted, item_stop, with_item};
ghost use Rattle.ns_types.specs.Memory.{IsStart, load, memory_of, secure_ram_size, store};
ghost use Rattle.ns_types.specs.Platform.{in_row, row};
ghost use Rattle.ns_types.specs.State.{device_of};
ghost use Rattle.c_memory.specs.Zeros.{cleared, with_data};
ghost use Rattle.c_memory.specs.Writes.{Writes, is_size};

use crate::access::{is_in_ns_ram, item_stop, may_read, may_write};
use crate::bytes::{get_number, set_number, zero};
use cm_base::{NS_RAM, NS_ROM, NoMemory, SECURE_DATA, Stop};
use ns_types::{Item, Start};
use std::alloc::Global;
use std::marker::Model;

/// The bytes of all regions but Secure ROM.
#[derive(Drop)]
pub struct Flat {
    ns_rom: Vec<u8>,
    ns_ram: Vec<u8>,
    /// Secure data, and behind it Secure control.
    secure_ram: Vec<u8>,
}

impl Model for Flat {
    ghost use Rattle.ns_types.specs.State.{Memory};
    ghost use Rattle.ns_types.specs.Memory.{IsWhole};

    ghost Value = { Memory };

    ghost view = { λ m. record { ns_rom = m.ns_rom.items; ns_ram = m.ns_ram.items; secure_ram = m.secure_ram.items } };

    ghost invariant = { λ m. IsWhole (record { ns_rom = m.ns_rom.items; ns_ram = m.ns_ram.items; secure_ram = m.secure_ram.items }) };
}

impl Flat {
    /// What memory holds at a start, with these bytes at the beginning of Secure data. All of it is taken here.
    pub fn new(alloc: Global, start: &Start, contents: &[u8]) -> Result<Flat, NoMemory>
        requires start { IsStart start.now }
        requires room { length contents.now ≤ secure_ram_size }
        ensures { IfOk result (λ m. m ≡ with_data contents.now (memory_of start.now)) }
    {
        let mut secure_ram = Vec::from_slice(alloc, contents)?;
        secure_ram.extend_from_slice(&start.secure_ram.as_slice()[contents.len()..])?;
        Ok(Flat {
            ns_rom: Vec::from_slice(alloc, start.ns_rom.as_slice())?,
            ns_ram: Vec::from_slice(alloc, start.ns_ram.as_slice())?,
            secure_ram,
        })
    }

    /// The number of 1, 2 or 4 bytes at an address, little endian.
    ///
    /// # Errors
    /// `Stop::Misaligned` where the address isn't a multiple of the size, else `Stop::Outside` where the program may not
    /// read all of the bytes.
    #[tactic(auto, unfolding(ns_types::specs::Access::read_access))]
    pub fn read(&self, at: u32, size: u8) -> Result<u32, Stop>
        requires { IsTrue (is_size size) }
        ensures { result ≡ read_access size at self.now }
    {
        if at % size as u32 != 0 {
            return Err(Stop::Misaligned);
        }
        if !may_read(at, size) {
            return Err(Stop::Outside);
        }
        Ok(self.load(at, size))
    }

    /// Writes the low 1, 2 or 4 bytes of a number at an address, and answers whether that is seen: into Non-secure RAM.
    ///
    /// # Errors
    /// As those of `read`, for bytes that the program may write.
    #[tactic(auto, unfolding(ns_types::specs::Access::write_access))]
    pub fn write(&mut self, at: u32, size: u8, value: u32) -> Result<bool, Stop>
        requires { IsTrue (is_size size) }
        ensures { Writes result size at value self.old self.new }
    {
        if at % size as u32 != 0 {
            return Err(Stop::Misaligned);
        }
        if !may_write(at, size) {
            return Err(Stop::Outside);
        }
        self.store(at, size, value);
        Ok(is_in_ns_ram(at))
    }

    /// Writes n zeros from an address of Secure data on.
    pub fn clear(&mut self, at: u32, n: u32)
        ensures { self.new ≡ cleared at n self.old }
    {
        zero(
            &mut self.secure_ram,
            at.saturating_sub(SECURE_DATA.from) as usize,
            n,
        );
    }

    /// Acts the items of a turn in order, up to the first that stops, and answers why.
    pub fn act(&mut self, items: &[Item]) -> Option<Stop>
        ensures acted { acted items.now self.old.ns_ram ≡ record { ram = self.new.ns_ram; stop = result } }
        ensures rest { self.new ≡ record self.old { ns_ram = self.new.ns_ram } }
    {
        for item in items {
            if let Some(why) = self.act_item(item) {
                return Some(why);
            }
        }
        None
    }

    /// Acts an item, and answers why it stops, if it does; then it changes nothing.
    fn act_item(&mut self, item: &Item) -> Option<Stop>
        ensures stop { result ≡ item_stop item.now }
        ensures ram { self.new.ns_ram
            ≡ (if is_none result then with_item item.now self.old.ns_ram else self.old.ns_ram) }
        ensures rest { self.new ≡ record self.old { ns_ram = self.new.ns_ram } }
    {
        let why = item_stop(item);
        if why.is_some() {
            return why;
        }
        if let Item::Write { at, byte } = *item {
            self.put_ns(at, byte);
        }
        None
    }

    /// Writes a byte of Non-secure RAM.
    fn put_ns(&mut self, at: u32, byte: u8)
        requires { IsTrue (in_row 1 at) }
        ensures { self.new ≡ record self.old { ns_ram = slice_set self.old.ns_ram (at - (row 1).from) byte } }
    {
        let o = (at - NS_RAM.from) as usize;
        self.ns_ram[o] = byte;
    }

    /// The number at an address that can be read.
    #[tactic(auto, unfolding(ns_types::specs::Memory::load))]
    fn load(&self, at: u32, size: u8) -> u32
        requires size { IsTrue (is_size size) }
        requires readable { IsTrue (may_read at size) }
        ensures { result ≡ load size at (device_of []) self.now }
    {
        if at >= SECURE_DATA.from {
            get_number(&self.secure_ram, (at - SECURE_DATA.from) as usize, size)
        } else if at >= NS_RAM.from {
            get_number(&self.ns_ram, (at - NS_RAM.from) as usize, size)
        } else {
            get_number(&self.ns_rom, (at - NS_ROM.from) as usize, size)
        }
    }

    /// Writes a number at an address that can be written.
    #[tactic(auto, unfolding(ns_types::specs::Memory::store))]
    fn store(&mut self, at: u32, size: u8, value: u32)
        requires size { IsTrue (is_size size) }
        requires writable { IsTrue (may_write at size) }
        ensures { self.new ≡ store size at value self.old }
    {
        if at >= SECURE_DATA.from {
            set_number(
                &mut self.secure_ram,
                (at - SECURE_DATA.from) as usize,
                size,
                value,
            );
        } else {
            set_number(&mut self.ns_ram, (at - NS_RAM.from) as usize, size, value);
        }
    }
}
