//! The objects that are linked, and where they stand in Secure ROM.
ghost use Rattle.std.specs.Prelude.{◌≡◌, ◌+◌, ◌-◌, ◌<◌, ◌≤◌, ◌^◌, length, map, All, IfOk};
ghost use Rattle.std.specs.List.{fold};
ghost use Rattle.elf32.specs.Tables.{aligned};
ghost use Rattle.elf_object.specs.Reading.{IsObjectFile, object_in};
ghost use Rattle.link_laws.specs.Sites as sites;

use cm_base::{Bytes, List, NoMemory, SECURE_ROM};
use elf_object::{ElfFault, Object, Sited, read_object};
use elf32::aligned;
use std::alloc::Global;

/// The address of the first text: behind the 16 words of the vector table.
const FIRST_TEXT: u32 = 0x1000_0040;

/// The object of a file.
fn object_of(alloc: Global, file: &Bytes) -> Result<Object, NoMemory>
    requires is { IsObjectFile file.now }
    requires small { length file.now < 2 ^ 32 }
    ensures { IfOk result (λ o. o ≡ object_in file.now) }
{
    match read_object(alloc, file.as_slice()) {
        Ok(object) => Ok(object),
        Err(ElfFault::NoMemory) => Err(NoMemory),
        Err(ElfFault::BadElf(_at)) => unreachable!(),
    }
}

/// The objects of files.
pub fn read(alloc: Global, files: &[Bytes]) -> Result<List<Object>, NoMemory>
    requires are { All IsObjectFile files.now }
    requires small { All (λ f. length f < 2 ^ 32) files.now }
    ensures { IfOk result (λ objects. objects ≡ map object_in files.now) }
{
    let mut objects = List::new(alloc);
    for file in files {
        objects.push(object_of(alloc, file)?)?;
    }
    Ok(objects)
}

/// Where a part begins that stands behind another one.
#[tactic(auto, using(elf32::proofs::TableLaws::aligned_least, elf32::proofs::TableLaws::aligned_below))]
fn behind(at: u32, part: &Bytes) -> u32
    requires { sites.behind at part.now < 2 ^ 32 }
    ensures { result ≡ sites.behind at part.now }
{
    aligned(at + part.len() as u32)
}

/// Where a part begins that stands behind the texts of objects.
fn behind_texts(at: u32, objects: &[Object]) -> u32
    requires { sites.behind_texts at objects.now < 2 ^ 32 }
    ensures { result ≡ sites.behind_texts at objects.now }
{
    let mut end = at;
    for object in objects {
        end = behind(end, &object.text);
    }
    end
}

/// The objects with their addresses.
fn sited_from(
    alloc: Global,
    first_text: u32,
    first_init: u32,
    objects: List<Object>,
) -> Result<List<Sited>, NoMemory>
    requires texts { sites.behind_texts first_text objects < 2 ^ 32 }
    requires inits { sites.behind_inits first_init objects < 2 ^ 32 }
    ensures { IfOk result (λ all. all ≡ sites.sited_from first_text first_init objects) }
{
    let mut all = List::new(alloc);
    let mut text_at = first_text;
    let mut init_at = first_init;
    for object in objects.into_vec() {
        let next_text = behind(text_at, &object.text);
        let next_init = behind(init_at, &object.init);
        all.push(Sited {
            object,
            text_at,
            init_at,
        })?;
        text_at = next_text;
        init_at = next_init;
    }
    Ok(all)
}

/// The objects with their addresses: the texts behind the vector table, in their order, and then the initial contents, each part at a
/// multiple of 4.
#[tactic(auto, unfolding(link_laws::specs::Sites::sited))]
pub fn place(alloc: Global, objects: List<Object>) -> Result<List<Sited>, NoMemory>
    requires texts { sites.first_init objects < 2 ^ 32 }
    requires inits { sites.behind_inits (sites.first_init objects) objects < 2 ^ 32 }
    ensures { IfOk result (λ all. all ≡ sites.sited objects) }
{
    let first_init = behind_texts(FIRST_TEXT, objects.as_slice());
    sited_from(alloc, FIRST_TEXT, first_init, objects)
}

/// Where a part ends, or what stands before it where it is empty.
fn end_of(before: u32, at: u32, part: &Bytes) -> u32
    requires { at + length part.now < 2 ^ 32 }
    ensures { result ≡ sites.end_of before at part.now }
{
    if part.len() == 0 {
        before
    } else {
        at + part.len() as u32
    }
}

/// Where the last text ends that isn't empty.
fn texts_end(all: &[Sited]) -> u32
    requires { All (λ s. s.text_at + length s.object.text < 2 ^ 32) all.now }
    ensures { result ≡ sites.texts_end all.now }
{
    let mut end = FIRST_TEXT;
    for s in all {
        end = end_of(end, s.text_at, &s.object.text);
    }
    end
}

/// Where the last text or initial contents end that aren't empty.
fn parts_end(all: &[Sited]) -> u32
    requires texts { All (λ s. s.text_at + length s.object.text < 2 ^ 32) all.now }
    requires inits { All (λ s. s.init_at + length s.object.init < 2 ^ 32) all.now }
    ensures { result ≡ sites.parts_end all.now }
{
    let mut end = texts_end(all);
    for s in all {
        end = end_of(end, s.init_at, &s.object.init);
    }
    end
}

/// How many bytes of Secure ROM are used.
pub fn used(all: &[Sited]) -> u32
    requires texts { All (λ s. s.text_at + length s.object.text < 2 ^ 32) all.now }
    requires inits { All (λ s. s.init_at + length s.object.init < 2 ^ 32) all.now }
    ensures { result ≡ sites.used all.now }
{
    parts_end(all).saturating_sub(SECURE_ROM.from)
}
