//! Each call once with ample memory, with the answers worked out by hand.
use cm_base::{FileStore, MemSink, MemStore, OutSink, Shared, Sink, Store, StoreFault, Text};
use std::alloc::Global;
use std::test::Fail;
use std::{fs, process};

fn text(alloc: Global, bytes: &[u8]) -> Result<Text, Fail> {
    Ok(Text::from_slice(alloc, bytes)?)
}

/// A store that holds the file `a` with the bytes 1, 2, 3.
fn one_file(alloc: Global, fail: &[u32]) -> Result<MemStore, Fail> {
    let files = [(text(alloc, b"a")?, text(alloc, &[1, 2, 3])?)];
    Ok(MemStore::new(alloc, &files, fail)?)
}

#[test]
fn reads_what_is_held(rt: HostRuntime) -> Result<(), Fail> {
    let alloc = rt.alloc();
    let mut store = one_file(alloc, &[])?;
    for (most, want) in [(0, 0), (2, 2), (3, 3), (4, 3)] {
        let bytes = store.read(alloc, "a", most)?;
        assert_eq!(rt; bytes.as_slice(), &[1u8, 2, 3][..want]);
    }
    Ok(())
}

#[test]
fn fails_at_the_listed_calls(rt: HostRuntime) -> Result<(), Fail> {
    let alloc = rt.alloc();
    let mut store = one_file(alloc, &[2, 4])?;
    assert_eq!(rt; store.read(alloc, "a", 9)?.len(), 3);
    assert_eq!(rt; store.write("a", &[7]), Err(StoreFault::Failed));
    store.write("b", &[8, 9])?;
    assert!(rt; matches!(store.read(alloc, "b", 9), Err(StoreFault::Failed)));
    assert!(rt; matches!(store.read(alloc, "c", 9), Err(StoreFault::Failed)));
    store.write("a", &[5])?;
    assert_eq!(rt; store.get("a"), Some(&[5u8][..]));
    assert_eq!(rt; store.get("b"), Some(&[8u8, 9][..]));
    assert_eq!(rt; store.get("c"), None);
    Ok(())
}

#[test]
fn takes_the_output(rt: HostRuntime) -> Result<(), Fail> {
    let mut sink = MemSink::new(rt.alloc(), &[2])?;
    sink.put(b"ab")?;
    assert_eq!(rt; sink.put(b"c"), Err(StoreFault::Failed));
    sink.put(b"d")?;
    assert_eq!(rt; sink.given(), &b"abd"[..]);
    Ok(())
}

#[test]
fn keeps_files_of_the_system(rt: HostRuntime) -> Result<(), Fail> {
    let alloc = rt.alloc();
    let id = process::id(rt.process());
    let name = format!(in alloc; "/tmp/cm_base_{id}.tmp")?;
    let mut store = FileStore::new(alloc, rt.clone()?);
    let missing = store.read(alloc, name.as_str(), 5);
    assert!(rt; matches!(missing, Err(StoreFault::Failed)));
    store.write(name.as_str(), b"longer")?;
    store.write(name.as_str(), b"short")?;
    for (most, want) in [(0, 0), (3, 3), (5, 5), (9, 5)] {
        let bytes = store.read(alloc, name.as_str(), most)?;
        assert_eq!(rt; bytes.as_slice(), &b"short"[..want]);
    }
    fs::remove_file(&rt, name.as_str())?;
    let no_folder = store.write("/no/such/folder/file", b"x");
    assert_eq!(rt; no_folder, Err(StoreFault::Failed));
    assert_eq!(rt; store.write("a\0b", b"x"), Err(StoreFault::Failed));
    Ok(())
}

#[test]
fn writes_to_the_output(rt: HostRuntime) -> Result<(), Fail> {
    let mut sink = OutSink::new(rt.clone()?);
    assert_eq!(rt; sink.put(b"one line\n"), Ok(()));
    assert_eq!(rt; sink.put(b""), Ok(()));
    Ok(())
}

#[test]
fn shares_a_node(rt: HostRuntime) -> Result<(), Fail> {
    let alloc = rt.alloc();
    let a = Shared::new(alloc, 7u32)?;
    let b = a.share()?;
    let c = Shared::new(alloc, 7u32)?;
    assert_eq!(rt; *b.get(), 7);
    assert!(rt; a.is_same_node(&b));
    assert!(rt; !a.is_same_node(&c));
    Ok(())
}
