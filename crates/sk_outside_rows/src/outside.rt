//! Files and streams: each object once on its happy path, its faults, and code that is generic over the traits.
ghost use Rattle.std.specs.Prelude.{◌≡◌, ◌<◌, ◌++◌, Some, IsErrOf, OnOk, IfSome, IsSomeAnd};
ghost use Rattle.std.specs.Io.KnownBytes.{Appends};
ghost use Rattle.sk_outside.specs.Faults.{Rose};

use sk_outside::{
    FileAnswer, Files, HostErr, HostFiles, HostOut, MemFiles, MemSink, Sink, WriteAnswer,
    names_differ,
};
use std::alloc::{AllocError, Global};
use std::io::Write;
use std::process::Abort;
use std::test::Fail;
use std::{fs, io, process};

#[derive(Clone, Copy, PartialEq, Eq, Debug)]
enum CopyFault {
    Read,
    Long,
    Write,
    Memory,
}

/// Puts a file into a sink twice. Each fault is shown to come from the object that had it, and none is passed over.
fn copy_twice<F: Files, S: Sink>(
    alloc: Global,
    files: &mut F,
    sink: &mut S,
    name: &str,
) -> Result<(), CopyFault>
    ensures read { IsErrOf result CopyFault.Read → Rose (F.holds files.old).reads.count (F.holds files.new).reads.count }
    ensures named { IsErrOf result CopyFault.Read → (F.holds files.new).reads.name ≡ Some name.now }
    ensures write { IsErrOf result CopyFault.Write → Rose (S.holds sink.old).faults (S.holds sink.new).faults }
    ensures no_read { (F.holds files.old).reads.count < (F.holds files.new).reads.count → IsErrOf result CopyFault.Read }
    ensures no_write { (S.holds sink.old).faults < (S.holds sink.new).faults → IsErrOf result CopyFault.Write }
    ensures copied { OnOk result (IfSome (F.holds files.old).contents (λ find. IsSomeAnd (find name.now) (λ bytes.
        Appends (S.holds sink.old).taken (S.holds sink.new).taken (bytes ++ bytes)))) }
{
    let bytes = match files.read_all(alloc, name, 300_000) {
        Ok(bytes) => bytes,
        Err(FileAnswer::Failed) => return Err(CopyFault::Read),
        Err(FileAnswer::Long) => return Err(CopyFault::Long),
        Err(FileAnswer::Memory) => return Err(CopyFault::Memory),
    };
    match sink.put(alloc, &bytes) {
        Ok(()) => {}
        Err(WriteAnswer::Failed) => return Err(CopyFault::Write),
        Err(WriteAnswer::Memory) => return Err(CopyFault::Memory),
    }
    match sink.put(alloc, &bytes) {
        Ok(()) => Ok(()),
        Err(WriteAnswer::Failed) => Err(CopyFault::Write),
        Err(WriteAnswer::Memory) => Err(CopyFault::Memory),
    }
}

/// A file in memory.
fn file(alloc: Global, name: &str, bytes: &[u8]) -> Result<(String, Vec<u8>), AllocError> {
    Ok((String::from_str(alloc, name)?, bytes.to_vec(alloc)?))
}

/// Files in memory of which the calls with the numbers 4 and 6 fail.
fn two_files(rt: &impl Abort, alloc: Global) -> Result<MemFiles, AllocError> {
    let files = vec![in alloc; file(alloc, "a", b"one")?, file(alloc, "b", b"")?]?;
    assert!(rt; names_differ(&files));
    Ok(MemFiles::new(alloc, files, vec![in alloc; 4u32, 6]?))
}

/// So many bytes.
fn repeated(alloc: Global, len: usize) -> Result<Vec<u8>, AllocError> {
    vec![in alloc; 7u8; len]
}

/// Reads one name after another, with a limit and the answer that is wanted.
fn expect_reads<F: Files>(
    rt: &impl Abort,
    alloc: Global,
    files: &mut F,
    rows: &[(&str, usize, Result<&[u8], FileAnswer>)],
) {
    for (name, limit, wanted) in rows {
        let is_wanted = match (files.read_all(alloc, name, *limit), wanted) {
            (Ok(bytes), Ok(wanted)) => bytes.as_slice() == *wanted,
            (Err(answer), Err(wanted)) => answer == *wanted,
            _ => false,
        };
        assert!(rt; is_wanted, "{name} read up to {limit}");
    }
}

/// Puts one piece after another, with the answer that is wanted.
fn expect_puts<S: Sink>(
    rt: &impl Abort,
    alloc: Global,
    sink: &mut S,
    rows: &[(&[u8], Result<(), WriteAnswer>)],
) {
    for (piece, wanted) in rows {
        assert!(rt; sink.put(alloc, piece) == *wanted, "the piece {piece:?}");
    }
}

/// A writer that takes two bytes at a time, and nothing once it is full.
#[derive(Drop)]
struct Narrow {
    left: usize,
}

impl Write for Narrow {
    fn write(&mut self, buf: &[u8]) -> io::Result<usize> {
        let taken = buf.len().min(2).min(self.left);
        self.left -= taken;
        Ok(taken)
    }

    fn flush(&mut self) -> io::Result<()> {
        Ok(())
    }
}

#[test]
fn files_in_memory_answer_and_fail_on_order(rt: HostRuntime) -> Result<(), Fail> {
    let alloc = rt.alloc();
    let mut files = two_files(&rt, alloc)?;
    let reads = [
        ("a", 3, Ok(b"one".as_slice())),
        ("a", 2, Err(FileAnswer::Long)),
        ("c", 9, Err(FileAnswer::Failed)),
        ("b", 0, Ok(b"".as_slice())),
        ("a", 3, Err(FileAnswer::Failed)),
    ];
    expect_reads(&rt, alloc, &mut files, &reads);
    let writes = [
        ("c", b"new".as_slice(), Ok(())),
        ("a", b"lost".as_slice(), Err(WriteAnswer::Failed)),
        ("b", b"longer".as_slice(), Ok(())),
    ];
    for (name, bytes, wanted) in writes {
        assert!(rt;
            files.write_all(alloc, name, bytes) == wanted,
            "{name} written"
        );
    }
    let contents = [
        ("a", Some(b"one".as_slice())),
        ("b", Some(b"longer".as_slice())),
        ("c", Some(b"new".as_slice())),
        ("d", None),
    ];
    for (name, bytes) in contents {
        assert!(rt; files.contents(name) == bytes, "of {name}");
    }
    Ok(())
}

#[test]
fn two_files_of_one_name_are_found(rt: HostRuntime) -> Result<(), Fail> {
    let alloc = rt.alloc();
    let files = vec![in alloc;
        file(alloc, "a", b"")?,
        file(alloc, "b", b"")?,
        file(alloc, "a", b"1")?,
    ]?;
    assert!(rt; !names_differ(&files));
    Ok(())
}

#[test]
fn a_sink_in_memory_takes_what_fits(rt: HostRuntime) {
    let alloc = rt.alloc();
    let mut sink = MemSink::new(alloc, Some(5));
    let puts = [
        (b"123456789".as_slice(), Err(WriteAnswer::Failed)),
        (b"".as_slice(), Ok(())),
        (b"6".as_slice(), Err(WriteAnswer::Failed)),
    ];
    expect_puts(&rt, alloc, &mut sink, &puts);
    assert!(rt; sink.bytes() == b"12345".as_slice());

    let mut endless = MemSink::new(alloc, None);
    let puts = [(b"123".as_slice(), Ok(())), (b"456".as_slice(), Ok(()))];
    expect_puts(&rt, alloc, &mut endless, &puts);
    assert!(rt; endless.bytes() == b"123456".as_slice());
}

#[test]
fn real_files_are_read_and_written(rt: HostRuntime) -> Result<(), Fail> {
    let alloc = rt.alloc();
    let name = format!(in alloc; "/tmp/sk_outside-{}", process::id(rt.process()))?;
    let bytes = repeated(alloc, 200_000)?;
    let mut files = HostFiles::new(&rt);
    files.write_all(alloc, &name, b"shorter")?;
    files.write_all(alloc, &name, &bytes)?;

    let mut sink = MemSink::new(alloc, None);
    copy_twice(alloc, &mut files, &mut sink, &name)?;
    assert!(rt; sink.bytes().len() == 400_000);
    let reads = [
        (name.as_str(), 200_000, Ok(bytes.as_slice())),
        (name.as_str(), 199_999, Err(FileAnswer::Long)),
        ("/tmp", 9, Err(FileAnswer::Failed)),
        ("/tmp/no such file", 9, Err(FileAnswer::Failed)),
    ];
    expect_reads(&rt, alloc, &mut files, &reads);
    assert!(rt; files.write_all(alloc, "/tmp", b"") == Err(WriteAnswer::Failed));
    fs::remove_file(&rt, name.as_str())?;
    Ok(())
}

#[test]
fn streams_are_written_whole_or_fail(rt: HostRuntime) {
    let alloc = rt.alloc();
    let mut taken = Vec::new(alloc);
    let mut err = HostErr::new(&mut taken);
    expect_puts(&rt, alloc, &mut err, &[(b"whole".as_slice(), Ok(()))]);
    assert!(rt; taken.as_slice() == b"whole".as_slice());

    let mut out = HostOut::new(io::writer(&rt));
    expect_puts(&rt, alloc, &mut out, &[(b"".as_slice(), Ok(()))]);
    let mut narrow = HostOut::new(Narrow { left: 5 });
    let puts = [
        (b"1234".as_slice(), Ok(())),
        (b"56".as_slice(), Err(WriteAnswer::Failed)),
    ];
    expect_puts(&rt, alloc, &mut narrow, &puts);
}
