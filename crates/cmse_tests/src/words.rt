//! The words of command lines, and files that fail.

use crate::calls::{BUILD, ends};
use std::test::Fail;

#[test]
fn files_that_fail(rt: HostRuntime) -> Result<(), Fail> {
    let alloc = rt.alloc();
    assert!(rt; ends(alloc, "build -l a.lib -o a.img a.c", 0, ""));
    assert!(rt; ends(alloc, "build -o a.img -l a.lib b.c", 0, "cannot read b.c\n"));
    assert!(rt; ends(alloc, BUILD, 1, "cannot read a.c\n"));
    assert!(rt; ends(alloc, BUILD, 2, "cannot write a.lib\n"));
    assert!(rt; ends(alloc, BUILD, 3, "cannot write a.img\n"));
    Ok(())
}

#[test]
fn words_of_build(rt: HostRuntime) -> Result<(), Fail> {
    let alloc = rt.alloc();
    assert!(rt; ends(alloc, "build -o a.img a.c", 0, "word 4\n"));
    assert!(rt; ends(alloc, "build", 0, "word 2\n"));
    assert!(rt; ends(alloc, "", 0, "word 1\n"));
    assert!(rt; ends(alloc, "bild", 0, "word 1\n"));
    assert!(rt; ends(alloc, "build -o a -l a a.c", 0, "word 5\n"));
    assert!(rt; ends(alloc, "build -o a -l b -c", 0, "word 6\n"));
    assert!(rt; ends(alloc, "build -o a -l b a.c b.c", 0, "word 7\n"));
    Ok(())
}

#[test]
fn words_of_run(rt: HostRuntime) -> Result<(), Fail> {
    let alloc = rt.alloc();
    assert!(rt; ends(alloc, "run", 0, "word 2\n"));
    assert!(rt; ends(alloc, "run a.img a.c", 0, "word 2\n"));
    assert!(rt; ends(alloc, "run -n", 0, "word 3\n"));
    assert!(rt; ends(alloc, "run -n 4294967296 a b", 0, "word 3\n"));
    assert!(rt; ends(alloc, "run -n +1 a b", 0, "word 3\n"));
    assert!(rt; ends(alloc, "run -n 1 a", 0, "word 5\n"));
    assert!(rt; ends(alloc, "run -n 1 a b c", 0, "word 6\n"));
    Ok(())
}
