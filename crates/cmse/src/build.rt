//! The command `build`: from a source to an image and an import library.

ghost use Rattle.std.specs.Prelude.{◌≡◌, ◌≢◌, ◌≤◌, ◌+◌, true, Ok, IfOk, MatchOption, is_some};
ghost use Rattle.cm_base.specs.Outside.{Rose};
ghost use Rattle.import_lib.specs.Library.{library_of};
ghost use Rattle.cmse_build.specs.Constant.{is_entry_name};
ghost use Rattle.cmse_build.specs.Image.{image_of};
ghost use Rattle.cmse_build.specs.Reading.{rom_of_image};
ghost use Rattle.constant_entry.specs.Code.{start_place, used_bytes, gateway_bytes, rom_bytes};
ghost use Rattle.constant_entry.specs.Meaning.{one_veneer};
ghost use Rattle.cmse.specs.Build.{one_gate, Builds, IsOther, BuildEnds};
ghost use Rattle.cmse.specs.Steps.{IsRefusalOf};

use crate::files::{deliver, read_source};
use crate::status::Status;
use cm_base::{Bytes, List, NoMemory, Refusal, Store, Text};
use cmse_build::{Gate, read_constant, write_image};
use constant_entry::{ENTRY, START, VENEER, gateways, used};
use import_lib::write_implib;
use ns_types::{Veneer, Veneers};
use std::alloc::Global;

/// The code of a source that isn't of the form that is built today.
const NOT_BUILT: u8 = 90;

/// What is built.
#[derive(Drop)]
struct Built {
    library: Bytes,
    image: Bytes,
}

// The import library of one entry.
fn library_of(alloc: Global, name: &[u8]) -> Result<Bytes, NoMemory>
    requires { is_entry_name name.now ≡ true }
    ensures { IfOk result (λ bytes. bytes ≡ library_of (one_veneer name.now)) }
{
    let mut list = List::new(alloc);
    list.push(Veneer {
        name: Text::from_slice(alloc, name)?,
        address: VENEER,
    })?;
    write_implib(alloc, &Veneers { list })
}

// The image of one entry that gives `n`.
fn image_of(alloc: Global, name: &[u8], n: u32) -> Result<Bytes, NoMemory>
    requires { is_entry_name name.now ≡ true }
    ensures file { IfOk result (λ bytes. bytes ≡ image_of (start_place + 1) (used_bytes n) gateway_bytes (one_gate name.now)) }
    ensures reads { IfOk result (λ bytes. rom_of_image bytes ≡ Ok (rom_bytes n)) }
{
    let rom = used(alloc, n)?;
    let region = gateways(alloc)?;
    let gate = Gate {
        name: Text::from_slice(alloc, name)?,
        address: VENEER,
        code: ENTRY,
    };
    write_image(alloc, START + 1, rom.as_slice(), region.as_slice(), &[gate])
}

// Both files of a text, or None where it isn't of the form that is built today.
fn files_of(alloc: Global, text: &[u8]) -> Result<Option<Built>, NoMemory>
    ensures { IfOk result (λ built. MatchOption built (IsOther text.now) (λ b. Builds text.now b.library b.image)) }
{
    let Some((name, n)) = read_constant(text) else {
        return Ok(None);
    };
    let library = library_of(alloc, name)?;
    let image = image_of(alloc, name, n)?;
    Ok(Some(Built { library, image }))
}

// The refusal of a source, or want of memory.
fn refused(alloc: Global, file: &str) -> Status
    ensures { IsRefusalOf file.now result }
{
    match Text::from_slice(alloc, file.as_bytes()) {
        Ok(file) => Status::Refused(Refusal::At {
            code: NOT_BUILT,
            file,
            line: 1,
            col: 1,
        }),
        Err(_) => Status::NoMemory,
    }
}

/// From a source to both files.
pub fn build<S: Store>(
    alloc: Global,
    store: &mut S,
    image: &str,
    library: &str,
    source: &str,
) -> Status
    requires { image.now ≢ library.now }
    ensures ends { BuildEnds (record {
      old = S.files store.old;
      new = S.files store.new;
      reads = Rose (S.read_faults store.old) (S.read_faults store.new);
      writes = Rose (S.write_faults store.old) (S.write_faults store.new);
    }) image.now library.now source.now result }
    ensures telling_stays { is_some (S.files store.new) ≡ is_some (S.files store.old) }
    ensures reads_only_rise { S.read_faults store.old ≤ S.read_faults store.new }
    ensures writes_only_rise { S.write_faults store.old ≤ S.write_faults store.new }
{
    let text = match read_source(alloc, store, source) {
        Ok(text) => text,
        Err(status) => return status,
    };
    match files_of(alloc, text.as_slice()) {
        Ok(Some(built)) => deliver(
            alloc,
            store,
            library,
            built.library.as_slice(),
            image,
            built.image.as_slice(),
        ),
        Ok(None) => refused(alloc, source),
        Err(NoMemory) => Status::NoMemory,
    }
}
