//! The sink over the standard output.
ghost use Rattle.std.specs.Prelude.{◌≡◌, ◌≤◌, OnOk, IsErrOf};
ghost use Rattle.std.specs.Io.KnownBytes.{Appends};
ghost use Rattle.cm_base.specs.InMemory.{next_count};

use crate::mem_store::next;
use crate::{Sink, StoreFault};
use std::io;
use std::io::Write;
use std::marker::Model;

/// The standard output. It tells no contents, and counts its failed puts.
#[derive(Drop)]
pub struct OutSink<R> {
    rt: R,
    faults: u64,
}

impl<R> Model for OutSink<R> {
    ghost use Rattle.std.specs.Prelude.{ℕ};

    ghost Value = { ℕ };

    ghost view = { λ it. it.faults };
}

impl<R> OutSink<R> {
    /// The standard output of the runtime.
    pub fn new(rt: R) -> OutSink<R>
        ensures { result ≡ 0 }
    {
        OutSink { rt, faults: 0 }
    }
}

impl<R: Print> Sink for OutSink<R> {
    ghost use Rattle.std.specs.Prelude.{None};

    ghost given = { λ it. None };

    ghost faults = { λ it. it };

    fn put(&mut self, bytes: &[u8]) -> Result<(), StoreFault>
        ensures counts { IsErrOf result StoreFault.Failed → self.new ≡ next_count self.old }
        ensures stays { (IsErrOf result StoreFault.Failed → ⊥) → self.new ≡ self.old }
        ensures faults_only_rise { self.old ≤ self.new }
    {
        let result = write_whole(&mut io::writer(&self.rt), bytes);
        if let Err(StoreFault::Failed) = result {
            self.faults = next(self.faults);
        }
        result
    }
}

/// Writes all of the bytes. A write that takes none of them is a failure.
pub(crate) fn write_whole<W: Write>(to: &mut W, bytes: &[u8]) -> Result<(), StoreFault>
    ensures { OnOk result (Appends (W.contents to.old) (W.contents to.new) bytes.now) }
{
    let mut rest = bytes;
    while !rest.is_empty() {
        match to.write(rest) {
            Ok(0) | Err(_) => return Err(StoreFault::Failed),
            Ok(count) => rest = &rest[count..],
        }
    }
    to.flush().map_err(|_| StoreFault::Failed)
}
