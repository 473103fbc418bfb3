//! A store of files in memory, for tests: it tells its files, and fails where it is told to.
ghost use Rattle.std.specs.Prelude.{◌≡◌, ◌≤◌, ◌↔◌, ◌⊎◌, None, Some, IsSome, IfSome, IfNone, IsTrue, is_some, length, take, option_map, option_copied, IfOk, OnOk, OnErr, IsErrOf, nat_eq, ◌==◌};
ghost use Rattle.std.specs.List.{list_any};
ghost use Rattle.cm_base.specs.Outside.{file_at, with_file, held, IsMissing, OthersStay, NamesDiffer, Rose};
ghost use Rattle.cm_base.specs.InMemory.{IsPlaceOf, next_count, is_to_fail};

use crate::{Bytes, List, NoMemory, Store, StoreFault, Text};
use std::alloc::Global;
use std::marker::Model;

/// A store of files in memory. Its calls, reads and writes together, are numbered from 1.
#[derive(Drop)]
pub struct MemStore {
    alloc: Global,
    files: List<(Text, Bytes)>,
    fail: List<u32>,
    calls: u64,
    read_faults: u64,
    write_faults: u64,
}

impl Model for MemStore {
    ghost use Rattle.cm_base.specs.InMemory.{StoreState};

    ghost Value = { StoreState };

    ghost view = { λ it. record {
      files = it.files;
      fail = it.fail;
      calls = it.calls;
      read_faults = it.read_faults;
      write_faults = it.write_faults;
    } };
}

impl MemStore {
    ghost use Rattle.cm_base.specs.InMemory.{new_store};

    /// A store of these files at which no call was made. The calls whose numbers `fail` lists
    /// answer Failed.
    pub fn new(alloc: Global, files: &[(Text, Bytes)], fail: &[u32]) -> Result<MemStore, NoMemory>
        requires { NamesDiffer files.now }
        ensures { IfOk result (λ it. it ≡ new_store files.now fail.now) }
    {
        Ok(MemStore {
            alloc,
            files: copy_files(alloc, files)?,
            fail: List::from_slice(alloc, fail)?,
            calls: 0,
            read_faults: 0,
            write_faults: 0,
        })
    }

    /// The bytes of a file.
    pub fn get(&self, name: &str) -> Option<&[u8]>
        ensures { option_copied result ≡ file_at self.now.files name.now }
    {
        let files = self.files.as_slice();
        let place = place_of(files, name.as_bytes())?;
        Some(files[place].1.as_slice())
    }

    /// Counts a call, and tells whether it is to fail.
    fn count(&mut self) -> bool
        ensures listed { result ≡ is_to_fail self.old.fail self.old.calls }
        ensures counted { self.new ≡ record self.old { calls = next_count self.old.calls } }
    {
        self.calls = next(self.calls);
        is_listed(self.fail.as_slice(), self.calls)
    }

    /// Makes a file hold these bytes. After an error the files are as before.
    fn replace(&mut self, name: &str, bytes: &[u8]) -> Result<(), NoMemory>
        ensures ok { OnOk result (self.new ≡ record self.old { files = with_file self.old.files name.now bytes.now }) }
        ensures err { OnErr result (self.new ≡ self.old) }
    {
        put_file(self.alloc, &mut self.files, name.as_bytes(), bytes)
    }
}

impl Store for MemStore {
    ghost use Rattle.std.specs.Prelude.{Some};
    ghost use Rattle.cm_base.specs.InMemory.{is_to_fail, after_read, after_write, after_failed_write};

    ghost files = { λ it. Some it.files };

    ghost read_faults = { λ it. it.read_faults };

    ghost write_faults = { λ it. it.write_faults };

    fn read(&mut self, alloc: Global, name: &str, most: u64) -> Result<Bytes, StoreFault>
        requires { most ≤ 16777217 }
        ensures fails_where_listed { IsTrue (is_to_fail self.old.fail self.old.calls)
            → IsErrOf result StoreFault.Failed }
        ensures fails_where_missing { file_at self.old.files name.now ≡ None
            → IsErrOf result StoreFault.Failed }
        ensures fails_only { IsErrOf result StoreFault.Failed
            → IsTrue (is_to_fail self.old.fail self.old.calls) ⊎ (file_at self.old.files name.now ≡ None) }
        ensures bytes { IfOk result (λ bytes. option_map (take most) (file_at self.old.files name.now) ≡ Some bytes) }
        ensures after { self.new ≡ after_read self.old }
        ensures reads_only_rise { self.old.read_faults ≤ self.new.read_faults }
    {
        if self.count() {
            self.read_faults = next(self.read_faults);
            return Err(StoreFault::Failed);
        }
        let Some(bytes) = self.get(name) else {
            return Err(StoreFault::Failed);
        };
        let count = bytes.len().min(most as usize);
        Ok(Bytes::from_slice(alloc, &bytes[..count])?)
    }

    fn write(&mut self, name: &str, bytes: &[u8]) -> Result<(), StoreFault>
        ensures fails_where_listed { IsTrue (is_to_fail self.old.fail self.old.calls)
            → IsErrOf result StoreFault.Failed }
        ensures fails_only { IsErrOf result StoreFault.Failed
            → IsTrue (is_to_fail self.old.fail self.old.calls) }
        ensures done { OnOk result (self.new ≡ after_write self.old name.now bytes.now) }
        ensures not_done { OnErr result (self.new ≡ after_failed_write self.old) }
        ensures value { OnOk result (file_at self.new.files name.now ≡ Some bytes.now) }
        ensures others_stay { OthersStay (Some self.old.files) (Some self.new.files) name.now }
        ensures names_differ { NamesDiffer self.old.files → NamesDiffer self.new.files }
        ensures writes_only_rise { self.old.write_faults ≤ self.new.write_faults }
    {
        if self.count() {
            self.write_faults = next(self.write_faults);
            return Err(StoreFault::Failed);
        }
        Ok(self.replace(name, bytes)?)
    }
}

/// A copy of files.
fn copy_files(alloc: Global, files: &[(Text, Bytes)]) -> Result<List<(Text, Bytes)>, NoMemory>
    ensures { IfOk result (λ copy. copy ≡ files.now) }
{
    let mut copies = List::new(alloc);
    for file in files {
        copies.push((file.0.try_clone(alloc)?, file.1.try_clone(alloc)?))?;
    }
    Ok(copies)
}

/// The place of the first file of a name.
fn place_of(files: &[(Text, Bytes)], name: &[u8]) -> Option<usize>
    ensures absent { IfNone result (file_at files.now name.now ≡ None) }
    ensures found { IfSome result (IsPlaceOf files.now name.now) }
{
    for (place, file) in files.iter().enumerate() {
        if file.0.as_slice() == name {
            return Some(place);
        }
    }
    None
}

/// Makes the file of a name hold these bytes. After an error the files are as before.
fn put_file(
    alloc: Global,
    files: &mut List<(Text, Bytes)>,
    name: &[u8],
    bytes: &[u8],
) -> Result<(), NoMemory>
    ensures ok { OnOk result (files.new ≡ with_file files.old name.now bytes.now) }
    ensures err { OnErr result (files.new ≡ files.old) }
{
    let file = (
        Text::from_slice(alloc, name)?,
        Bytes::from_slice(alloc, bytes)?,
    );
    match place_of(files.as_slice(), name) {
        Some(place) => files.set(place, file),
        None => files.push(file)?,
    }
    Ok(())
}

/// The next number of a counter.
pub(crate) fn next(count: u64) -> u64
    ensures { result ≡ next_count count }
{
    count.saturating_add(1)
}

/// Tells whether the call of a number is to fail.
pub(crate) fn is_listed(fail: &[u32], number: u64) -> bool
    ensures { result ≡ list_any (λ each. each == number) fail.now }
{
    fail.iter().any(|each| u64::from(*each) == number)
}
