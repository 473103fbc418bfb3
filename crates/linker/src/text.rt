//! The text of an object with its relocations resolved.
ghost use Rattle.std.specs.Prelude.{◌≡◌, ◌+◌, ◌<◌, ◌^◌, length, slice_index, All, true, IfOk};
ghost use Rattle.std.specs.List.{list_all};
ghost use Rattle.elf_object.specs.File.{reloc_fits};
ghost use Rattle.link_laws.specs.Resolve.{Reaches, linked_by};

use crate::relocation::resolve;
use cm_base::{Bytes, List, NoMemory};
use elf_object::Reloc;
use std::alloc::Global;

/// A text that stands at an address, with each of its relocations resolved, where the places of its symbols are known.
pub fn linked_text(
    alloc: Global,
    text: &[u8],
    text_at: u32,
    relocs: &[Reloc],
    places: &[u32],
) -> Result<Bytes, NoMemory>
    requires low { text_at + length text.now < 2 ^ 32 }
    requires fit { list_all (reloc_fits (length text.now) (length places.now)) relocs.now ≡ true }
    requires reach { All (λ r. Reaches r.kind (text_at + r.at) (slice_index places.now r.symbol)) relocs.now }
    ensures is { IfOk result (λ linked. linked ≡ linked_by text_at places.now text.now relocs.now) }
    ensures size { IfOk result (λ linked. length linked ≡ length text.now) }
{
    let mut linked = Vec::from_slice(alloc, text)?;
    for r in relocs {
        resolve(linked.as_mut_slice(), text_at, r, places[r.symbol as usize]);
    }
    Ok(List::from_vec(linked))
}
