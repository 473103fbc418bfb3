//! The store over the files of the system.
ghost use Rattle.std.specs.Prelude.{◌≡◌, ◌<◌, ◌≤◌, length, take, IfSome, IfOk, IsErrOf};
ghost use Rattle.cm_base.specs.InMemory.{next_count};

use crate::mem_store::next;
use crate::out_sink::write_whole;
use crate::{Bytes, Store, StoreFault};
use std::alloc::Global;
use std::fs;
use std::io::Read;
use std::marker::Model;
use std::rt::Files;

/// How many bytes one read asks for at most.
const PIECE: usize = 16384;

/// The files of the system. It tells no contents, and counts its failed reads and writes.
#[derive(Drop)]
pub struct FileStore<R> {
    alloc: Global,
    rt: R,
    read_faults: u64,
    write_faults: u64,
}

impl<R> Model for FileStore<R> {
    ghost use Rattle.cm_base.specs.InMemory.{FaultCounts};

    ghost Value = { FaultCounts };

    ghost view = { λ it. record { reads = it.read_faults; writes = it.write_faults } };
}

impl<R> FileStore<R> {
    ghost use Rattle.cm_base.specs.InMemory.{no_faults};

    /// The files that the runtime reaches.
    pub fn new(alloc: Global, rt: R) -> FileStore<R>
        ensures { result ≡ no_faults }
    {
        FileStore {
            alloc,
            rt,
            read_faults: 0,
            write_faults: 0,
        }
    }
}

impl<R: Files> FileStore<R> {
    fn read_file(&self, alloc: Global, name: &str, most: u64) -> Result<Bytes, StoreFault>
        requires { most ≤ 16777217 }
        ensures within { IfOk result (λ bytes. length bytes ≤ most) }
    {
        let mut buffer = vec![in self.alloc; 0u8; PIECE]?;
        let mut file = fs::open(&self.rt, name).map_err(|_| StoreFault::Failed)?;
        read_most(alloc, &mut file, buffer.as_mut_slice(), most)
    }

    fn write_file(&self, name: &str, bytes: &[u8]) -> Result<(), StoreFault> {
        let mut file = fs::create(&self.rt, name).map_err(|_| StoreFault::Failed)?;
        write_whole(&mut file, bytes)
    }
}

impl<R: Files> Store for FileStore<R> {
    ghost use Rattle.std.specs.Prelude.{None};

    ghost files = { λ it. None };

    ghost read_faults = { λ it. it.reads };

    ghost write_faults = { λ it. it.writes };

    fn read(&mut self, alloc: Global, name: &str, most: u64) -> Result<Bytes, StoreFault>
        requires { most ≤ 16777217 }
        ensures within { IfOk result (λ bytes. length bytes ≤ most) }
        ensures counts { IsErrOf result StoreFault.Failed
            → self.new ≡ record self.old { reads = next_count self.old.reads } }
        ensures stays { (IsErrOf result StoreFault.Failed → ⊥) → self.new ≡ self.old }
        ensures reads_only_rise { self.old.reads ≤ self.new.reads }
    {
        let result = self.read_file(alloc, name, most);
        if let Err(StoreFault::Failed) = result {
            self.read_faults = next(self.read_faults);
        }
        result
    }

    fn write(&mut self, name: &str, bytes: &[u8]) -> Result<(), StoreFault>
        ensures counts { IsErrOf result StoreFault.Failed
            → self.new ≡ record self.old { writes = next_count self.old.writes } }
        ensures stays { (IsErrOf result StoreFault.Failed → ⊥) → self.new ≡ self.old }
        ensures writes_only_rise { self.old.writes ≤ self.new.writes }
    {
        let result = self.write_file(name, bytes);
        if let Err(StoreFault::Failed) = result {
            self.write_faults = next(self.write_faults);
        }
        result
    }
}

/// The first `most` bytes that a reader gives, or all of them where they are fewer. A read of no
/// bytes is the end.
fn read_most<F: Read>(
    alloc: Global,
    from: &mut F,
    buffer: &mut [u8],
    most: u64,
) -> Result<Bytes, StoreFault>
    requires some { 0 < length buffer.old }
    requires limit { most ≤ 16777217 }
    ensures within { IfOk result (λ bytes. length bytes ≤ most) }
    ensures value { IfOk result (λ bytes. IfSome (F.remaining from.old) (λ rest. bytes ≡ take most rest)) }
{
    let mut bytes = Bytes::new(alloc);
    while bytes.len() < most as usize {
        let room = (most as usize - bytes.len()).min(buffer.len());
        let piece = &mut buffer[..room];
        let count = from.read(piece).map_err(|_| StoreFault::Failed)?;
        if count == 0 {
            return Ok(bytes);
        }
        bytes.extend_from_slice(&buffer[..count])?;
    }
    Ok(bytes)
}
