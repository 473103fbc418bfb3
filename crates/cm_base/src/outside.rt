//! What stands outside the program: a store of files, and a sink for the output.
ghost use Rattle.std.specs.Prelude.{◌≡◌, ◌≤◌, ◌⊎◌, List, ℕ, Option, Some, IsSome, IfSome, is_some, length, take, option_map, IfOk, OnOk, OnErr, IsErrOf};
ghost use Rattle.cm_base.specs.declared.outside.StoreFault.TheVariants.{NoMemory, Failed};
ghost use Rattle.cm_base.specs.Outside.{Files, held, IsMissing, OthersStay, NamesDiffer, given_more, GrownByPrefix, Rose};

use crate::{Bytes, memory};
use std::alloc::{AllocError, AllocFailed, Global};
use thiserror::Error;

/// Why a call of a store or a sink failed.
#[derive(Clone, Copy, Debug, PartialEq, Eq, Error)]
pub enum StoreFault {
    /// There was no memory for the call.
    #[error("no memory")]
    NoMemory,
    /// The store or the sink refused the call.
    #[error("failed")]
    Failed,
}

impl From<memory::NoMemory> for StoreFault {
    ghost from_gives = { λ _ e. e ≡ NoMemory };

    fn from(_e: memory::NoMemory) -> StoreFault {
        StoreFault::NoMemory
    }
}

impl From<AllocError> for StoreFault {
    ghost from_gives = { λ _ e. e ≡ NoMemory };

    fn from(_e: AllocError) -> StoreFault {
        StoreFault::NoMemory
    }
}

impl<T: Drop> From<AllocFailed<T>> for StoreFault {
    ghost from_gives = { λ _ e. e ≡ NoMemory };

    fn from(_e: AllocFailed<T>) -> StoreFault {
        StoreFault::NoMemory
    }
}

/// Files by their names.
pub trait Store {
    /// The files, as pairs of name and bytes, where the store tells them.
    ghost files: { Self → Option Files };

    /// How often a read has failed.
    ghost read_faults: { Self → ℕ };

    /// How often a write has failed.
    ghost write_faults: { Self → ℕ };

    /// The first `most` bytes of a file, or all of it where it is shorter.
    fn read(&mut self, alloc: Global, name: &str, most: u64) -> Result<Bytes, StoreFault>
        requires { most ≤ 16777217 }
        ensures value { IfOk result (λ bytes. IsSome (files self.old)
            → option_map (take most) (held (files self.old) name.now) ≡ Some bytes) }
        ensures within { IfOk result (λ bytes. length bytes ≤ most) }
        ensures failed { IsErrOf result StoreFault.Failed
            → Rose (read_faults self.old) (read_faults self.new) ⊎ IsMissing (files self.old) name.now }
        ensures files_stay { files self.new ≡ files self.old }
        ensures reads_only_rise { read_faults self.old ≤ read_faults self.new }
        ensures writes_stay { write_faults self.new ≡ write_faults self.old };

    /// Makes a file hold exactly these bytes, and makes the file where there is none.
    fn write(&mut self, name: &str, bytes: &[u8]) -> Result<(), StoreFault>
        ensures value { OnOk result (IsSome (files self.old)
            → held (files self.new) name.now ≡ Some bytes.now) }
        ensures failed { IsErrOf result StoreFault.Failed
            → Rose (write_faults self.old) (write_faults self.new) }
        ensures no_memory { IsErrOf result StoreFault.NoMemory
            → held (files self.new) name.now ≡ held (files self.old) name.now }
        ensures others_stay { OthersStay (files self.old) (files self.new) name.now }
        ensures telling_stays { is_some (files self.new) ≡ is_some (files self.old) }
        ensures names_differ { IfSome (files self.old) NamesDiffer → IfSome (files self.new) NamesDiffer }
        ensures writes_only_rise { write_faults self.old ≤ write_faults self.new }
        ensures reads_stay { read_faults self.new ≡ read_faults self.old };
}

/// What takes the output.
pub trait Sink {
    /// The bytes taken so far, where the sink tells them.
    ghost given: { Self → Option (List ℕ) };

    /// How often a put has failed.
    ghost faults: { Self → ℕ };

    /// Adds the bytes to the output.
    fn put(&mut self, bytes: &[u8]) -> Result<(), StoreFault>
        ensures value { OnOk result (given self.new ≡ given_more (given self.old) bytes.now) }
        ensures err { OnErr result (GrownByPrefix (given self.old) (given self.new) bytes.now) }
        ensures failed { IsErrOf result StoreFault.Failed → Rose (faults self.old) (faults self.new) }
        ensures faults_only_rise { faults self.old ≤ faults self.new };
}
