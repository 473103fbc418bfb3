//! The parts of Secure ROM: the vector table, the texts with their relocations resolved, and the initial contents.
ghost use Rattle.std.specs.Prelude.{◌≡◌, ◌+◌, ◌-◌, ◌<◌, ◌≤◌, ◌^◌, ◌++◌, true, length, flat_map, replicate, All, IfOk, OnOk};
ghost use Rattle.std.specs.List.{list_all};
ghost use Rattle.cm_base.specs.LittleEndian.{le32};
ghost use Rattle.ns_types.specs.Platform.{row_size};
ghost use Rattle.elf_object.specs.Placed.{vectors};
ghost use Rattle.link_laws.specs.Rom.{init_part, filled};
ghost use Rattle.linker.specs.Table.{have_addresses};
ghost use Rattle.linker.specs.Passes.{text_part, CanPut};

use crate::define::places_of;
use crate::names::Names;
use crate::text::linked_text;
use cm_base::{Bytes, MAIN_SEAL, NSC, NoMemory, SECURE_ROM};
use elf_object::Sited;
use elf32::{put_padded, put32};
use std::alloc::Global;

/// The size of Secure ROM without the Non-secure callable region.
const ROM_SIZE: usize = (NSC.from - SECURE_ROM.from) as usize;

/// Appends words.
fn put_words(to: &mut Bytes, words: &[u32]) -> Result<(), NoMemory>
    ensures { OnOk result (to.new ≡ to.old ++ flat_map le32 words.now) }
{
    for word in words {
        put32(to, *word)?;
    }
    Ok(())
}

/// Appends the vector table: the main stack pointer, the reset address, and 14 times the place of the one UDF 0, each address with
/// bit 0 set.
pub fn put_vectors(to: &mut Bytes, start: u32, stop: u32) -> Result<(), NoMemory>
    requires start { start + 1 < 2 ^ 32 }
    requires stop { stop + 1 < 2 ^ 32 }
    ensures { OnOk result (to.new ≡ to.old ++ vectors start stop) }
{
    let reset = start + 1;
    let fault = stop + 1;
    put_words(
        to,
        &[
            MAIN_SEAL, reset, fault, fault, fault, fault, fault, fault, fault, fault, fault, fault,
            fault, fault, fault, fault,
        ],
    )
}

/// Appends the text of an object with its relocations resolved.
pub fn put_text(
    alloc: Global,
    to: &mut Bytes,
    entries: &Names,
    names: &Names,
    s: &Sited,
) -> Result<(), NoMemory>
    requires addresses { have_addresses s.now ≡ true }
    requires can { CanPut entries.now names.now s.now }
    ensures { OnOk result (to.new ≡ to.old ++ text_part entries.now names.now s.now) }
{
    let places = places_of(alloc, entries, names, s)?;
    let text = linked_text(
        alloc,
        s.object.text.as_slice(),
        s.text_at,
        s.object.relocs.as_slice(),
        places.as_slice(),
    )?;
    put_padded(to, s.text_at, text.as_slice())
}

/// Appends the texts.
pub fn put_texts(
    alloc: Global,
    to: &mut Bytes,
    entries: &Names,
    names: &Names,
    all: &[Sited],
) -> Result<(), NoMemory>
    requires addresses { list_all have_addresses all.now ≡ true }
    requires can { All (CanPut entries.now names.now) all.now }
    ensures { OnOk result (to.new ≡ to.old ++ flat_map (text_part entries.now names.now) all.now) }
{
    for s in all {
        put_text(alloc, to, entries, names, s)?;
    }
    Ok(())
}

/// Appends the initial contents.
pub fn put_inits(to: &mut Bytes, all: &[Sited]) -> Result<(), NoMemory>
    requires { All (λ s. s.init_at + length s.object.init < 2 ^ 32) all.now }
    ensures { OnOk result (to.new ≡ to.old ++ flat_map init_part all.now) }
{
    for s in all {
        put_padded(to, s.init_at, s.object.init.as_slice())?;
    }
    Ok(())
}

/// Zero bytes.
fn zeros(alloc: Global, n: usize) -> Result<Bytes, NoMemory>
    ensures { IfOk result (λ bytes. bytes ≡ replicate n 0) }
{
    let items = vec![in alloc; 0u8; n]?;
    Ok(Bytes::from_vec(items))
}

/// Appends zero bytes up to the Non-secure callable region.
#[tactic(auto, unfolding(link_laws::specs::Rom::filled))]
pub fn fill(alloc: Global, to: &mut Bytes) -> Result<(), NoMemory>
    requires { length to.old ≤ row_size 2 }
    ensures { OnOk result (to.new ≡ filled to.old) }
{
    let more = zeros(alloc, ROM_SIZE - to.len())?;
    to.append(more)
}
