//! The linker: objects become the Secure ROM of a program (ELF for the Arm Architecture, Relocation; ECM0359818, Secure gateway
//! veneers).
ghost use Rattle.std.specs.Prelude.{◌≡◌, ◌≢◌, ◌+◌, ◌<◌, ◌≤◌, ◌^◌, true, length, map, codes, All, AllPairs, Contains, IfOk};
ghost use Rattle.std.specs.List.{list_all};
ghost use Rattle.std.specs.Option.{option_copied};
ghost use Rattle.ns_types.specs.Platform.{row_size};
ghost use Rattle.elf_object.specs.Reading.{IsObjectFile, object_in};
ghost use Rattle.elf_object.specs.CanLink.{CanLink};
ghost use Rattle.elf_object.specs.Placed.{Placed};
ghost use Rattle.veneer_link.specs.Assign.{old_list};
ghost use Rattle.veneer_laws.specs.Veneers.{AreVeneersOf};
ghost use Rattle.link_laws.specs.Sites.{sited};
ghost use Rattle.link_laws.specs.Rom.{LeadsToCode};
ghost use Rattle.linker.specs.Table.{have_addresses};
ghost use Rattle.linker.specs.Passes as spec;

use crate::define::{defined, veneer_names};
use crate::gates::{put_gates, symbols_of};
use crate::names::Names;
use crate::parts::{fill, put_inits, put_texts, put_vectors};
use crate::place::{place, read, used};
use cm_base::{Bytes, List, NoMemory, Text};
use elf_object::{Sited, Symbol};
use ns_types::{Veneer, Veneers};
use std::alloc::Global;
use veneer_link::{LinkFault, assign};

/// A linked program.
#[derive(Drop)]
pub struct Linked {
    /// Secure ROM with its Non-secure callable region, from 10000000 to 10400000.
    pub rom: Bytes,
    /// How many bytes of Secure ROM are used, without the Non-secure callable region.
    pub used: u32,
    /// For each veneer, in ascending order of address, its entry's name at its address, and the twin at the entry's code.
    pub symbols: List<Symbol>,
    pub veneers: Veneers,
}

/// The Secure ROM: the vector table, the texts with their relocations resolved, the initial contents, and the veneers.
fn rom_of(
    alloc: Global,
    entries: &Names,
    names: &Names,
    all: &[Sited],
    veneers: &[Veneer],
) -> Result<Bytes, NoMemory>
    requires addresses { list_all have_addresses all.now ≡ true }
    requires put { All (spec.CanPut entries.now names.now) all.now }
    requires lead { All (spec.CanLead names.now) veneers.now }
    requires inits { All (λ s. s.init_at + length s.object.init < 2 ^ 32) all.now }
    requires start { spec.place_named names.now (codes ".start") + 1 < 2 ^ 32 }
    requires stop { spec.place_named names.now (codes ".stop") + 1 < 2 ^ 32 }
    requires low { length (spec.front_by entries.now names.now all.now) ≤ row_size 2 }
    ensures { IfOk result (λ rom. rom ≡ spec.rom_by entries.now names.now all.now veneers.now) }
{
    let start = names.place_of(b".start");
    let stop = names.place_of(b".stop");
    let mut rom = Bytes::new(alloc);
    put_vectors(&mut rom, start, stop)?;
    put_texts(alloc, &mut rom, entries, names, all)?;
    put_inits(&mut rom, all)?;
    fill(alloc, &mut rom)?;
    put_gates(alloc, &mut rom, names, veneers)?;
    Ok(rom)
}

/// The program of these objects with these veneers.
fn made_of(alloc: Global, objects: &[Bytes], veneers: Veneers) -> Result<Linked, NoMemory>
    requires are { All IsObjectFile objects.now }
    requires small { All (λ f. length f < 2 ^ 32) objects.now }
    requires can { spec.CanPass (map object_in objects.now) veneers.list }
    ensures { IfOk result (λ l. spec.IsMade (map object_in objects.now) veneers.list l) }
{
    let objects = read(alloc, objects)?;
    let all = place(alloc, objects)?;
    let entries = veneer_names(alloc, veneers.list.as_slice())?;
    let names = defined(alloc, &entries, all.as_slice())?;
    let rom = rom_of(
        alloc,
        &entries,
        &names,
        all.as_slice(),
        veneers.list.as_slice(),
    )?;
    let symbols = symbols_of(alloc, &names, veneers.list.as_slice())?;
    let used = used(all.as_slice());
    Ok(Linked {
        rom,
        used,
        symbols,
        veneers,
    })
}

/// Links object files to the Secure ROM of a program. The entries are assigned their veneers as `assign` does, after those of the old
/// library. The texts stand from 10000040 on, in the order of the objects, each at a multiple of 4, and behind them the initial
/// contents. The faults are those of `assign`.
pub fn link(
    alloc: Global,
    objects: &[Bytes],
    entries: &[Text],
    old: Option<&Veneers>,
) -> Result<Linked, LinkFault>
    requires are { All IsObjectFile objects.now }
    requires small { All (λ f. length f < 2 ^ 32) objects.now }
    requires can_link { CanLink (map object_in objects.now) entries.now }
    requires few { length entries.now ≤ 512 }
    requires entries_differ { AllPairs (λ a b. a ≢ b) entries.now }
    requires old_differ { AllPairs (λ v w. v.name ≢ w.name) (old_list (option_copied old)) }
    ensures value { spec.Links (map object_in objects.now) entries.now (old_list (option_copied old.entry)) result }
    ensures placed { IfOk result (λ l. Placed l.rom (map object_in objects.now) l.veneers.list) }
    ensures veneers { IfOk result (λ l. AreVeneersOf entries.now l.veneers.list) }
    ensures kept { IfOk result (λ l. All (Contains l.veneers.list) (old_list (option_copied old.entry))) }
    ensures code { IfOk result (λ l. All (LeadsToCode l.veneers.list (sited (map object_in objects.now))) l.veneers.list) }
{
    let veneers = assign(alloc, entries, old)?;
    let linked = made_of(alloc, objects, veneers)?;
    Ok(linked)
}
