//! The line of a turn.

ghost use Rattle.std.specs.Prelude.{◌≡◌, ◌≤◌, ◌<◌, length, slice_index_or, [], IfOk, option_copied};
ghost use Rattle.std.specs.List.{list_any};
ghost use Rattle.ns_script.specs.Text.{words_left};
ghost use Rattle.ns_script.specs.Turns as spec;

use crate::text::{cut, is, next_word, number};
use cm_base::{List, NoMemory};
use ns_types::{Item, Turn};
use std::alloc::Global;

/// How many registers a turn can name: r0 to r12, lr, flags, msp, psp.
const REGISTERS: u32 = 17;

const LR: u32 = 13;

const FLAGS: u32 = 14;

const MSP: u32 = 15;

const PSP: u32 = 16;

/// What a word of a turn says.
#[derive(Clone, Copy, Debug, PartialEq, Eq)]
pub enum Setting {
    /// A register's value; `place` is its place among the names.
    Register { place: u32, value: u32 },
    Access(Item),
}

/// The name of a register.
#[tactic(auto, unfolding(crate::specs::Turns::names))]
pub fn name_at(place: u32) -> &'static str
    requires { place < 17 }
    ensures { result.now ≡ slice_index_or spec.names place [] }
{
    match place {
        0 => "r0",
        1 => "r1",
        2 => "r2",
        3 => "r3",
        4 => "r4",
        5 => "r5",
        6 => "r6",
        7 => "r7",
        8 => "r8",
        9 => "r9",
        10 => "r10",
        11 => "r11",
        12 => "r12",
        13 => "lr",
        14 => "flags",
        15 => "msp",
        16 => "psp",
        _ => unreachable!(),
    }
}

/// The place of a name.
#[tactic(auto, using(crate::proofs::TurnLaws::places))]
fn place_of(name: &[u8]) -> Option<u32>
    ensures { result ≡ spec.place_of name.now }
{
    for k in 0..REGISTERS {
        if is(name, name_at(k)) {
            return Some(k);
        }
    }
    None
}

/// `ADDRESS:BYTE`.
#[tactic(auto, unfolding(crate::specs::Turns::write_said))]
fn write_said(text: &[u8]) -> Option<Setting>
    ensures { result ≡ spec.write_said text.now }
{
    let (high, low) = cut(text, b':');
    let low = low?;
    let at = number(high)?;
    let byte = number(low)?;
    if byte > 255 {
        return None;
    }
    Some(Setting::Access(Item::Write {
        at,
        byte: byte as u8,
    }))
}

/// What a name with its value says.
#[tactic(auto, unfolding(crate::specs::Turns::named))]
fn named(name: &[u8], value: &[u8]) -> Option<Setting>
    ensures { result ≡ spec.named name.now value.now }
{
    if is(name, "put") {
        return write_said(value);
    }
    if is(name, "get") {
        let at = number(value)?;
        return Some(Setting::Access(Item::Read { at }));
    }
    let place = place_of(name)?;
    let value = number(value)?;
    Some(Setting::Register { place, value })
}

/// `NAME=VALUE`.
#[tactic(auto, unfolding(crate::specs::Turns::word_said))]
fn word_said(word: &[u8]) -> Option<Setting>
    ensures { result ≡ spec.word_said word.now }
{
    let (name, value) = cut(word, b'=');
    let value = value?;
    named(name, value)
}

/// What the words say, each something.
#[tactic(auto, using(crate::proofs::TurnLaws::many))]
fn settings(alloc: Global, words: Option<&[u8]>) -> Result<Option<List<Setting>>, NoMemory>
    ensures { IfOk result (λ x. x ≡ spec.settings (words_left (option_copied words.entry))) }
{
    let mut found = List::new(alloc);
    let mut rest = words;
    while let Some(text) = rest {
        let (word, more) = next_word(text);
        match word_said(word) {
            Some(said) => found.push(said)?,
            None => return Ok(None),
        }
        rest = more;
    }
    Ok(Some(found))
}

impl Setting {
    fn is_at(&self, k: u32) -> bool
        ensures { result ≡ spec.is_at k self.now }
    {
        match self {
            Setting::Register { place, .. } => *place == k,
            Setting::Access(_) => false,
        }
    }

    fn value_at(&self, k: u32) -> Option<u32>
        ensures { result ≡ spec.value_at k self.now }
    {
        match self {
            Setting::Register { place, value } => { if *place == k { Some(*value) } else { None } }
            Setting::Access(_) => None,
        }
    }

    fn item(&self) -> Option<Item>
        ensures { result ≡ spec.item_in self.now }
    {
        match self {
            Setting::Register { .. } => None,
            Setting::Access(item) => Some(*item),
        }
    }
}

/// The register is named.
fn is_named(settings: &[Setting], k: u32) -> bool
    ensures { result ≡ list_any (spec.is_at k) settings.now }
{
    settings.iter().any(|s| s.is_at(k))
}

/// The setting's register is named again.
fn is_again(setting: &Setting, more: &[Setting]) -> bool
    ensures { result ≡ spec.is_again setting.now more.now }
{
    match setting {
        Setting::Register { place, .. } => is_named(more, *place),
        Setting::Access(_) => false,
    }
}

/// No register is named twice.
#[tactic(auto, using(crate::proofs::TurnLaws::onces))]
fn each_once(settings: &[Setting]) -> bool
    ensures { result ≡ spec.each_once settings.now }
{
    let mut rest = settings;
    while !rest.is_empty() {
        let (_, more) = rest.split_at(1);
        if is_again(&rest[0], more) {
            return false;
        }
        rest = more;
    }
    true
}

/// The value of a register, which is 0 where it isn't named.
#[tactic(auto, using(crate::proofs::TurnLaws::values))]
fn value_of(k: u32, settings: &[Setting]) -> u32
    ensures { result ≡ spec.value_of k settings.now }
{
    for s in settings {
        if let Some(value) = s.value_at(k) {
            return value;
        }
    }
    0
}

/// The items, in their order.
#[tactic(auto, using(crate::proofs::TurnLaws::item_laws))]
fn items_of(alloc: Global, settings: &[Setting]) -> Result<List<Item>, NoMemory>
    ensures { IfOk result (λ x. x ≡ spec.items_of settings.now) }
{
    let mut items = List::new(alloc);
    for s in settings {
        if let Some(item) = s.item() {
            items.push(item)?;
        }
    }
    Ok(items)
}

/// The turn that goes to `target` with these settings.
#[tactic(auto, unfolding(crate::specs::Turns::turn_made))]
fn turn_made(alloc: Global, target: u32, said: &[Setting]) -> Result<Turn, NoMemory>
    requires { spec.value_of 14 said.now ≤ 31 }
    ensures { IfOk result (λ t. t ≡ spec.turn_made target said.now) }
{
    let items = items_of(alloc, said)?;
    Ok(Turn {
        r: [
            value_of(0, said),
            value_of(1, said),
            value_of(2, said),
            value_of(3, said),
            value_of(4, said),
            value_of(5, said),
            value_of(6, said),
            value_of(7, said),
            value_of(8, said),
            value_of(9, said),
            value_of(10, said),
            value_of(11, said),
            value_of(12, said),
        ],
        lr: value_of(LR, said),
        nzcvq: value_of(FLAGS, said) as u8,
        msp_ns: value_of(MSP, said),
        psp_ns: value_of(PSP, said),
        items,
        target,
    })
}

/// What the words behind `turn` say.
pub fn turn_said(alloc: Global, words: Option<&[u8]>) -> Result<Option<Turn>, NoMemory>
    ensures { IfOk result (λ x. x ≡ spec.turn_said (words_left (option_copied words.entry))) }
{
    let Some(text) = words else {
        return Ok(None);
    };
    let (word, more) = next_word(text);
    let Some(target) = number(word) else {
        return Ok(None);
    };
    let Some(said) = settings(alloc, more)? else {
        return Ok(None);
    };
    if !each_once(said.as_slice()) || value_of(FLAGS, said.as_slice()) > 31 {
        return Ok(None);
    }
    let turn = turn_made(alloc, target, said.as_slice())?;
    Ok(Some(turn))
}
