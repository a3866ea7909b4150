//! The longest source and a longer one, and the longest vector of one row.
use crate::runs::{Wanted, expect_run, prints_42};
use std::alloc::{AllocError, Global};
use std::test::Fail;

/// How many bytes a source may have.
const LONGEST: usize = 1 << 20;

/// The program that prints 42, and blanks up to that length.
fn padded(alloc: Global, len: usize) -> Result<Vec<u8>, AllocError> {
    let mut source = Vec::from_slice(alloc, prints_42().as_bytes())?;
    source.resize(len, b' ')?;
    Ok(source)
}

#[test]
fn the_longest_source_and_a_longer_one(rt: HostRuntime) -> Result<(), Fail> {
    let alloc = rt.alloc();
    let source = padded(alloc, LONGEST)?;
    expect_run(
        &rt,
        alloc,
        &source,
        Wanted::ended("42\n"),
        "the longest source",
    )?;
    let source = padded(alloc, LONGEST + 1)?;
    let long = Wanted::silent(1, "refused long\n");
    expect_run(&rt, alloc, &source, long, "a longer source")?;
    Ok(())
}

#[test]
fn a_long_vector(rt: HostRuntime) -> Result<(), Fail> {
    let alloc = rt.alloc();
    let source = prints_42().replace(alloc, "data(3, 21)", "data(16777216, 21)")?;
    let source = source.replace(alloc, "data(2)", "data(16777215)")?;
    let ended = Wanted::ended("42\n");
    expect_run(&rt, alloc, source.as_bytes(), ended, "a long vector")?;
    Ok(())
}
