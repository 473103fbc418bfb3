//! The registers of a list, a word each, the lowest at the lowest address.

ghost use Rattle.std.specs.Prelude.{◌≡◌, ◌≤◌, ◌<◌, IsTrue, length};
ghost use Rattle.std.specs.List.{list_all};
ghost use Rattle.v8m_core.specs.Lists.{all_loaded, all_readable, all_stored, all_writable, bytes_of, in_list, is_register_number};

use ns_types::Regs;
use v8m_mem::{Memory, can_read, can_write};

/// The registers that a list may have.
pub const REGISTERS: [u32; 14] = [0, 1, 2, 3, 4, 5, 6, 7, 8, 9, 10, 11, 12, 14];

fn in_list(list: u32, n: u32) -> bool
    requires { n < 15 }
    ensures { result ≡ in_list list n }
{
    (list >> n) % 2 == 1
}

/// How many bytes those of a list take.
#[tactic(auto, unfolding(crate::specs::Lists::bytes_of))]
pub fn bytes_of(list: u32, registers: &[u32]) -> u32
    requires few { length registers.now ≤ 14 }
    requires registers { IsTrue (list_all is_register_number registers.now) }
    ensures { result ≡ bytes_of list registers.now }
{
    let mut bytes = 0;
    for n in registers {
        if in_list(list, *n) {
            bytes += 4;
        }
    }
    bytes
}

/// Whether each word can be written.
#[tactic(auto, unfolding(crate::specs::Lists::all_writable))]
pub fn all_writable(list: u32, registers: &[u32], at: u32) -> bool
    requires { IsTrue (list_all is_register_number registers.now) }
    ensures { result ≡ all_writable list registers.now at }
{
    let mut a = at;
    for n in registers {
        if in_list(list, *n) {
            if !can_write(a, 4) {
                return false;
            }
            a = a.wrapping_add(4);
        }
    }
    true
}

/// Whether each word can be read.
#[tactic(auto, unfolding(crate::specs::Lists::all_readable))]
pub fn all_readable(list: u32, registers: &[u32], at: u32) -> bool
    requires { IsTrue (list_all is_register_number registers.now) }
    ensures { result ≡ all_readable list registers.now at }
{
    let mut a = at;
    for n in registers {
        if in_list(list, *n) {
            if !can_read(a, 4) {
                return false;
            }
            a = a.wrapping_add(4);
        }
    }
    true
}

/// Stores them.
#[tactic(auto, unfolding(crate::specs::Lists::all_stored, crate::specs::Lists::all_writable))]
pub fn store_all(memory: &mut Memory, regs: &Regs, list: u32, registers: &[u32], at: u32)
    requires registers { IsTrue (list_all is_register_number registers.now) }
    requires writable { IsTrue (all_writable list registers.now at) }
    ensures { memory.new ≡ record memory.old { memory = all_stored list registers.now regs.now at memory.old.memory } }
{
    let mut a = at;
    for n in registers {
        if in_list(list, *n) {
            memory.store(a, 4, regs.get(*n));
            a = a.wrapping_add(4);
        }
    }
}

/// Loads them.
#[tactic(auto, unfolding(crate::specs::Lists::all_loaded, crate::specs::Lists::all_readable))]
pub fn load_all(memory: &Memory, regs: &mut Regs, list: u32, registers: &[u32], at: u32)
    requires registers { IsTrue (list_all is_register_number registers.now) }
    requires readable { IsTrue (all_readable list registers.now at) }
    ensures { regs.new ≡ all_loaded list registers.now memory.now.device memory.now.memory at regs.old }
{
    let mut a = at;
    for n in registers {
        if in_list(list, *n) {
            let v = memory.load(a, 4);
            regs.set(*n, v);
            a = a.wrapping_add(4);
        }
    }
}
