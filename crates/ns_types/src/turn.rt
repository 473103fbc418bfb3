//! What the Non-secure caller sets and sees.

ghost use Rattle.ns_types.specs.Turns.{AreItems, AreTurns, AreWords, IsItem, IsTurn, IsWord};

use cm_base::{Bytes, List};
use std::marker::Model;

/// What memory holds when the device is reset.
#[derive(Debug, Drop)]
pub struct Start {
    /// Secure data and Secure control, 106,496 bytes from 30000000.
    pub secure_ram: Bytes,
    /// Non-secure RAM, 131,072 bytes from 20000000.
    pub ns_ram: Bytes,
    /// Non-secure ROM, 262,144 bytes from 00000000.
    pub ns_rom: Bytes,
}

/// A memory access of Non-secure code.
#[derive(Clone, Copy, Debug, PartialEq, Eq)]
pub enum Item {
    Write { at: u32, byte: u8 },
    Read { at: u32 },
}

/// One Non-secure turn: the caller sets its registers, its items act in order, and it branches to the target.
#[derive(Debug, Drop)]
pub struct Turn {
    /// r0 to r12.
    pub r: [u32; 13],
    pub lr: u32,
    /// The flags, at most 31: N 16, Z 8, C 4, V 2, Q 1.
    pub nzcvq: u8,
    /// The Non-secure stack pointers, which lose their low two bits.
    pub msp_ns: u32,
    pub psp_ns: u32,
    pub items: List<Item>,
    pub target: u32,
}

impl Model for Turn {
    ghost use Rattle.std.specs.Prelude.{◌≤◌};
    ghost use Rattle.ns_types.specs.Turns as spec;

    ghost Value = { spec.Turn };

    ghost view = { λ it. record {
      r = it.r;
      lr = it.lr;
      nzcvq = it.nzcvq;
      msp_ns = it.msp_ns;
      psp_ns = it.psp_ns;
      items = it.items;
      target = it.target;
    } };

    ghost invariant = { λ it. it.nzcvq ≤ 31 };
}

/// A u32 is a number of 32 bits.
fn is_word(n: &u32)
    ensures { IsWord n.now }
{
    let _n = *n;
}

/// An item has an address and a byte.
fn is_item(item: &Item)
    ensures { IsItem item.now }
{
    match *item {
        Item::Write { at, byte } => {
            let _at = at;
            let _byte = byte;
        }
        Item::Read { at } => {
            let _at = at;
        }
    }
}

/// So it is with many of them.
fn are_words(words: &[u32])
    ensures { AreWords words.now }
{
    for word in words {
        is_word(word);
    }
}

fn are_items(items: &[Item])
    ensures { AreItems items.now }
{
    for item in items {
        is_item(item);
    }
}

impl Turn {
    /// Each number of a turn fits where it goes.
    pub fn within(&self)
        ensures { IsTurn self.now }
    {
        are_words(&self.r);
        is_word(&self.lr);
        is_word(&self.msp_ns);
        is_word(&self.psp_ns);
        are_items(self.items.as_slice());
        is_word(&self.target);
    }

    /// So it is with many turns.
    pub fn all_within(turns: &[Turn])
        ensures { AreTurns turns.now }
    {
        for turn in turns {
            turn.within();
        }
    }
}

/// All that Non-secure code sees of the registers where Secure code hands over.
#[derive(Clone, Copy, Debug, PartialEq, Eq)]
pub struct View {
    /// r0 to r12.
    pub r: [u32; 13],
    pub lr: u32,
    pub pc: u32,
    /// The flags: N 16, Z 8, C 4, V 2, Q 1.
    pub nzcvq: u8,
    pub msp_ns: u32,
    pub psp_ns: u32,
}
