//! What a line of a script says.

ghost use Rattle.std.specs.Prelude.{◌≡◌, ◌≤◌, ◌+◌, IfOk, IfSome, option_copied};
ghost use Rattle.ns_script.specs.Text.{words_left};
ghost use Rattle.ns_script.specs.Script as spec;

use crate::text::{bytes_in, is, next_word, number, one_word};
use crate::turn::turn_said;
use cm_base::{Bytes, NS_RAM, NS_ROM, NoMemory, SECURE_CONTROL, SECURE_DATA};
use ns_types::Turn;
use std::alloc::Global;

/// A region that a script can write.
#[derive(Clone, Copy, Debug, PartialEq, Eq)]
pub enum Region {
    /// Secure data and Secure control.
    SecureRam,
    NsRam,
    NsRom,
}

/// What a line says.
#[derive(Debug, Drop)]
pub enum Line {
    Nothing,
    /// Each byte of Secure RAM becomes this.
    Fill(u8),
    /// Bytes of a region, from this place of it on.
    Put(Region, usize, Bytes),
    Turn(Turn),
}

/// `fill`, with the words behind it.
#[tactic(auto, unfolding(crate::specs::Script::fill_said))]
fn fill_said(words: Option<&[u8]>) -> Option<Line>
    ensures value { result ≡ spec.fill_said (words_left (option_copied words.entry)) }
    ensures fits { IfSome result spec.LineLies }
{
    let word = one_word(words)?;
    let n = number(word)?;
    if n > 255 {
        return None;
    }
    Some(Line::Fill(n as u8))
}

/// Where `count` bytes from an address stand behind `from`, if all lie before `to`.
#[tactic(auto, unfolding(crate::specs::Script::within))]
fn within(from: u32, to: u32, at: u32, count: usize) -> Option<usize>
    ensures value { result ≡ spec.within from to at count }
    ensures fits { IfSome result (λ place. place + count + from ≤ to) }
{
    if from <= at && at <= to && count <= (to - at) as usize {
        Some((at - from) as usize)
    } else {
        None
    }
}

/// Where `count` bytes from an address stand in the region, if all lie in it.
#[tactic(auto, unfolding(crate::specs::Script::place_in))]
fn place_in(region: Region, at: u32, count: usize) -> Option<usize>
    ensures value { result ≡ spec.place_in region at count }
    ensures fits { IfSome result (λ place. spec.Lies region place count) }
{
    match region {
        Region::SecureRam => {
            let place = within(SECURE_DATA.from, SECURE_CONTROL.to, at, count)?;
            Some(place)
        }
        Region::NsRam => {
            let place = within(NS_RAM.from, NS_RAM.to, at, count)?;
            Some(place)
        }
        Region::NsRom => {
            let place = within(NS_ROM.from, NS_ROM.to, at, count)?;
            Some(place)
        }
    }
}

fn region_named(word: &[u8]) -> Option<Region>
    ensures { result ≡ spec.region_named word.now }
{
    if is(word, "secure") {
        return Some(Region::SecureRam);
    }
    if is(word, "ram") {
        return Some(Region::NsRam);
    }
    if is(word, "rom") {
        return Some(Region::NsRom);
    }
    None
}

/// A region's name, with the words behind it.
fn put_said(alloc: Global, region: Region, words: Option<&[u8]>) -> Result<Option<Line>, NoMemory>
    ensures value { IfOk result (λ x. x ≡ spec.put_said region (words_left (option_copied words.entry))) }
    ensures fits { IfOk result (λ x. IfSome x spec.LineLies) }
{
    let Some(text) = words else {
        return Ok(None);
    };
    let (word, more) = next_word(text);
    let Some(at) = number(word) else {
        return Ok(None);
    };
    let Some(digits) = one_word(more) else {
        return Ok(None);
    };
    let Some(bytes) = bytes_in(alloc, digits)? else {
        return Ok(None);
    };
    let Some(place) = place_in(region, at, bytes.len()) else {
        return Ok(None);
    };
    Ok(Some(Line::Put(region, place, bytes)))
}

/// What a line says, or None where it breaks the grammar.
#[tactic(auto, unfolding(crate::specs::Script::line_said))]
pub fn line_said(alloc: Global, text: &[u8]) -> Result<Option<Line>, NoMemory>
    ensures value { IfOk result (λ x. x ≡ spec.line_said text.now) }
    ensures fits { IfOk result (λ x. IfSome x spec.LineLies) }
{
    if text.is_empty() || text[0] == b'#' {
        return Ok(Some(Line::Nothing));
    }
    let (word, more) = next_word(text);
    if is(word, "fill") {
        return Ok(fill_said(more));
    }
    if is(word, "turn") {
        let Some(turn) = turn_said(alloc, more)? else {
            return Ok(None);
        };
        return Ok(Some(Line::Turn(turn)));
    }
    match region_named(word) {
        Some(region) => put_said(alloc, region, more),
        None => Ok(None),
    }
}
