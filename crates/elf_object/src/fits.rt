//! Which objects can be written.
ghost use Rattle.std.specs.Prelude.{◌≡◌, ◌+◌, ◌*◌, ◌/◌, ◌<◌, ◌^◌, ◌↔◌, length, IsTrue, SomeIff};
ghost use Rattle.std.specs.List.{list_all};
ghost use Rattle.elf32.specs.Tables.{names_of, string_table};
ghost use Rattle.elf_object.specs.Structures.{symbols_of};
ghost use Rattle.elf_object.specs.File.{is_kind, reloc_fits, name_fits, CanWrite, object_size};

use crate::elf::{
    R_ARM_ABS32, R_ARM_THM_CALL, R_ARM_THM_JUMP24, R_ARM_THM_MOVT_ABS, R_ARM_THM_MOVW_ABS_NC,
};
use crate::object::{Object, Reloc, Symbol};

/// The most symbols of an object: r_info has 24 bits for a symbol's number, and 0 is the null symbol.
const MOST_SYMBOLS: usize = 16_777_215;

/// The sizes of the parts of a file that are the same in each: the headers, and the names of the sections with the zero bytes
/// behind them.
const FIXED_SIZE: u64 = 52 + 52 + 7 * 40;

/// Whether this is a kind of relocation.
fn is_kind(kind: u8) -> bool
    ensures { result ≡ is_kind kind }
{
    kind == R_ARM_ABS32
        || (kind == R_ARM_THM_CALL
            || (kind == R_ARM_THM_JUMP24
                || (kind == R_ARM_THM_MOVW_ABS_NC || kind == R_ARM_THM_MOVT_ABS)))
}

/// Whether a relocation fits a text of this size and this many symbols.
fn reloc_fits(r: &Reloc, size: usize, count: usize) -> bool
    ensures { result ≡ reloc_fits size count r.now }
{
    is_kind(r.kind) && ((r.symbol as usize) < count && r.at as usize + 4 <= size)
}

/// Whether all of these relocations fit.
fn relocs_fit(relocs: &[Reloc], size: usize, count: usize) -> bool
    ensures { result ≡ list_all (reloc_fits size count) relocs.now }
{
    for r in relocs {
        if !reloc_fits(r, size, count) {
            return false;
        }
    }
    true
}

/// Whether the name of a symbol has no zero byte.
fn name_fits(s: &Symbol) -> bool
    ensures { result ≡ name_fits s.now }
{
    !s.name.as_slice().contains(&0)
}

/// Whether no name has a zero byte.
fn names_fit(symbols: &[Symbol]) -> bool
    ensures { result ≡ list_all name_fits symbols.now }
{
    for s in symbols {
        if !name_fits(s) {
            return false;
        }
    }
    true
}

/// The size of the string table of these symbols, if it is below 2^32.
fn strings_size(symbols: &[Symbol]) -> Option<u32>
    ensures { SomeIff result (length (string_table (names_of (symbols_of symbols.now))) < 2 ^ 32)
        (length (string_table (names_of (symbols_of symbols.now)))) }
{
    let mut size: u32 = 1;
    for s in symbols {
        let name = u32::try_from(s.name.len()).ok()?;
        size = size.checked_add(name)?.checked_add(1)?;
    }
    Some(size)
}

/// A size with the zero bytes up to the next multiple of 4.
fn rounded(size: u64) -> u64
    requires { size < 2 ^ 32 }
    ensures { result ≡ (size + 3) / 4 * 4 }
{
    (size + 3) / 4 * 4
}

/// Whether the file of an object has fewer than 2^32 bytes.
#[tactic(auto, using(crate::proofs::LayoutLaws::size_is))]
fn size_fits(object: &Object) -> bool
    ensures { IsTrue result ↔ (object_size object.now < 2 ^ 32) }
{
    let most = u32::MAX as usize;
    let text = object.text.len();
    let init = object.init.len();
    let relocs = object.relocs.len();
    let symbols = object.symbols.len();
    if text > most || init > most || relocs > most || symbols > most {
        return false;
    }
    match strings_size(object.symbols.as_slice()) {
        None => false,
        Some(strings) => {
            FIXED_SIZE
                + rounded(text as u64)
                + rounded(init as u64)
                + 8 * relocs as u64
                + 16 * (symbols as u64 + 1)
                + rounded(u64::from(strings))
                <= most as u64
        }
    }
}

/// Whether an object can be written: see `write_object`.
pub fn is_writable(object: &Object) -> bool
    ensures { IsTrue result ↔ CanWrite object.now }
{
    let symbols = object.symbols.as_slice();
    let names = names_fit(symbols);
    let relocs = relocs_fit(
        object.relocs.as_slice(),
        object.text.len(),
        object.symbols.len(),
    );
    let size = size_fits(object);
    names && object.symbols.len() <= MOST_SYMBOLS && relocs && size
}
