//! A sink in memory, for tests: it tells its output, and fails where it is told to.
ghost use Rattle.std.specs.Prelude.{◌≡◌, ◌≤◌, ◌++◌, IsTrue, IfOk, OnOk, OnErr, IsErrOf};
ghost use Rattle.cm_base.specs.InMemory.{next_count, is_to_fail, after_put, after_failed_put};

use crate::mem_store::{is_listed, next};
use crate::{Bytes, List, NoMemory, Sink, StoreFault};
use std::alloc::Global;
use std::marker::Model;

/// A sink in memory. Its calls are numbered from 1.
#[derive(Drop)]
pub struct MemSink {
    given: Bytes,
    fail: List<u32>,
    calls: u64,
    faults: u64,
}

impl Model for MemSink {
    ghost use Rattle.cm_base.specs.InMemory.{SinkState};

    ghost Value = { SinkState };

    ghost view = { λ it. record { given = it.given; fail = it.fail; calls = it.calls; faults = it.faults } };
}

impl MemSink {
    ghost use Rattle.cm_base.specs.InMemory.{new_sink};

    /// A sink without output at which no call was made. The calls whose numbers `fail` lists
    /// answer Failed.
    pub fn new(alloc: Global, fail: &[u32]) -> Result<MemSink, NoMemory>
        ensures { IfOk result (λ it. it ≡ new_sink fail.now) }
    {
        Ok(MemSink {
            given: Bytes::new(alloc),
            fail: List::from_slice(alloc, fail)?,
            calls: 0,
            faults: 0,
        })
    }

    /// The bytes taken so far.
    pub fn given(&self) -> &[u8]
        ensures { result.now ≡ self.now.given }
    {
        self.given.as_slice()
    }

    /// Counts a call, and tells whether it is to fail.
    fn count(&mut self) -> bool
        ensures listed { result ≡ is_to_fail self.old.fail self.old.calls }
        ensures counted { self.new ≡ record self.old { calls = next_count self.old.calls } }
    {
        self.calls = next(self.calls);
        is_listed(self.fail.as_slice(), self.calls)
    }
}

impl Sink for MemSink {
    ghost use Rattle.std.specs.Prelude.{Some};

    ghost given = { λ it. Some it.given };

    ghost faults = { λ it. it.faults };

    fn put(&mut self, bytes: &[u8]) -> Result<(), StoreFault>
        ensures fails_where_listed { IsTrue (is_to_fail self.old.fail self.old.calls)
            → IsErrOf result StoreFault.Failed }
        ensures fails_only { IsErrOf result StoreFault.Failed
            → IsTrue (is_to_fail self.old.fail self.old.calls) }
        ensures done { OnOk result (self.new ≡ after_put self.old bytes.now) }
        ensures not_done { OnErr result (self.new ≡ after_failed_put self.old) }
        ensures faults_only_rise { self.old.faults ≤ self.new.faults }
    {
        if self.count() {
            self.faults = next(self.faults);
            return Err(StoreFault::Failed);
        }
        self.given.extend_from_slice(bytes)?;
        Ok(())
    }
}
