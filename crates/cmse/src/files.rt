//! Reading the source and writing what is built.
ghost use Rattle.std.specs.Prelude.{◌≡◌, ◌≢◌, ◌≤◌, ◌⊎◌, Some, IsSome, IfOk, IfErr, is_some, take, length, option_map};
ghost use Rattle.cm_base.specs.Outside.{held, IsMissing, Rose};
ghost use Rattle.cmse.specs.Steps.{IsReadFault, Delivers};

use crate::status::Status;
use cm_base::{Bytes, Store, StoreFault, Text};
use std::alloc::Global;

/// The greatest size of a source, and one byte more.
const MOST: u64 = 1_048_577;

/// The bytes of a file, or the first `most` of them.
pub fn read_file<S: Store>(
    alloc: Global,
    store: &mut S,
    name: &str,
    most: u64,
) -> Result<Bytes, Status>
    requires { most ≤ 16777217 }
    ensures value { IfOk result (λ bytes. IsSome (S.files store.old)
        → option_map (take most) (held (S.files store.old) name.now) ≡ Some bytes) }
    ensures within { IfOk result (λ bytes. length bytes ≤ most) }
    ensures why { IfErr result (λ status. IsReadFault status name.now
        (Rose (S.read_faults store.old) (S.read_faults store.new) ⊎ IsMissing (S.files store.old) name.now)) }
    ensures files_stay { S.files store.new ≡ S.files store.old }
    ensures reads_only_rise { S.read_faults store.old ≤ S.read_faults store.new }
    ensures writes_stay { S.write_faults store.new ≡ S.write_faults store.old }
{
    match store.read(alloc, name, most) {
        Ok(bytes) => Ok(bytes),
        Err(StoreFault::NoMemory) => Err(Status::NoMemory),
        Err(StoreFault::Failed) => match Text::from_slice(alloc, name.as_bytes()) {
            Ok(name) => Err(Status::CannotRead(name)),
            Err(_) => Err(Status::NoMemory),
        },
    }
}

/// The bytes of a source, or one byte more than it may have.
pub fn read_source<S: Store>(alloc: Global, store: &mut S, name: &str) -> Result<Bytes, Status>
    ensures value { IfOk result (λ text. IsSome (S.files store.old)
        → option_map (take 1048577) (held (S.files store.old) name.now) ≡ Some text) }
    ensures within { IfOk result (λ text. length text ≤ 1048577) }
    ensures why { IfErr result (λ status. IsReadFault status name.now
        (Rose (S.read_faults store.old) (S.read_faults store.new) ⊎ IsMissing (S.files store.old) name.now)) }
    ensures files_stay { S.files store.new ≡ S.files store.old }
    ensures reads_only_rise { S.read_faults store.old ≤ S.read_faults store.new }
    ensures writes_stay { S.write_faults store.new ≡ S.write_faults store.old }
{
    read_file(alloc, store, name, MOST)
}

/// Writes the library and then the image.
pub fn deliver<S: Store>(
    alloc: Global,
    store: &mut S,
    library: &str,
    library_bytes: &[u8],
    image: &str,
    image_bytes: &[u8],
) -> Status
    requires { image.now ≢ library.now }
    ensures delivers { Delivers (S.files store.old) (S.files store.new)
        (Rose (S.write_faults store.old) (S.write_faults store.new))
        library.now library_bytes.now image.now image_bytes.now result }
    ensures telling_stays { is_some (S.files store.new) ≡ is_some (S.files store.old) }
    ensures reads_stay { S.read_faults store.new ≡ S.read_faults store.old }
    ensures writes_only_rise { S.write_faults store.old ≤ S.write_faults store.new }
{
    // The names are copied before the first write: no want of memory comes behind a failed write.
    let Ok(library_name) = Text::from_slice(alloc, library.as_bytes()) else {
        return Status::NoMemory;
    };
    let Ok(image_name) = Text::from_slice(alloc, image.as_bytes()) else {
        return Status::NoMemory;
    };
    match store.write(library, library_bytes) {
        Ok(()) => {}
        Err(StoreFault::NoMemory) => return Status::NoMemory,
        Err(StoreFault::Failed) => return Status::CannotWrite(library_name),
    }
    match store.write(image, image_bytes) {
        Ok(()) => Status::Done,
        Err(StoreFault::NoMemory) => Status::NoMemory,
        Err(StoreFault::Failed) => Status::CannotWrite(image_name),
    }
}
