//! Object files of which nothing is known.
ghost use Rattle.std.specs.Prelude.{◌≡◌, ◌<◌, ◌^◌, true, length, map, All, IfOk, IfSome};
ghost use Rattle.std.specs.List.{list_all};
ghost use Rattle.elf_object.specs.Reading.{IsObjectFile, object_in};
ghost use Rattle.link_check.specs.Checks as spec;

use cm_base::{Bytes, List, NoMemory};
use elf_object::{ElfFault, Object, Symbol, read_object};
use std::alloc::Global;

/// The value of a symbol is of 32 bits.
fn is_word(s: &Symbol)
    ensures { spec.is_word s.now ≡ true }
{
    let _value = s.value;
}

/// All values are of 32 bits.
fn are_words(symbols: &[Symbol])
    ensures { list_all spec.is_word symbols.now ≡ true }
{
    for s in symbols {
        is_word(s);
    }
}

/// The object of a file, or none where it isn't the file of one.
#[tactic(auto, using(crate::proofs::CheckLaws::has_words))]
fn object_of(alloc: Global, file: &Bytes) -> Result<Option<Object>, NoMemory>
    requires { length file.now < 2 ^ 32 }
    ensures object { IfOk result (λ o. IfSome o (λ x. x ≡ object_in file.now)) }
    ensures file { IfOk result (λ o. IfSome o (λ _. IsObjectFile file.now)) }
{
    match read_object(alloc, file.as_slice()) {
        Ok(object) => {
            are_words(object.symbols.as_slice());
            Ok(Some(object))
        }
        Err(ElfFault::BadElf(_at)) => Ok(None),
        Err(ElfFault::NoMemory) => Err(NoMemory),
    }
}

/// The objects of files, or none where one of them isn't the file of an object.
pub fn objects_of(alloc: Global, files: &[Bytes]) -> Result<Option<List<Object>>, NoMemory>
    requires { All (λ f. length f < 2 ^ 32) files.now }
    ensures objects { IfOk result (λ o. IfSome o (λ x. x ≡ map object_in files.now)) }
    ensures files { IfOk result (λ o. IfSome o (λ _. All IsObjectFile files.now)) }
{
    let mut objects = List::new(alloc);
    for file in files {
        let Some(object) = object_of(alloc, file)? else {
            return Ok(None);
        };
        objects.push(object)?;
    }
    Ok(Some(objects))
}

/// Whether all files have fewer than 2^32 bytes.
pub fn are_small(files: &[Bytes]) -> bool
    ensures { result ≡ true → All (λ f. length f < 2 ^ 32) files.now }
{
    for file in files {
        if file.len() > u32::MAX as usize {
            return false;
        }
    }
    true
}
