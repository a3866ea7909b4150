//! Lines on the error stream.
ghost use Rattle.std.specs.Prelude.{◌≡◌, ◌⊎◌, IfOk};
ghost use Rattle.sk_cli.specs.Answer.{Told, TookPrefix, memory_line, write_fault_line};
ghost use Rattle.sk_cli.specs.Sources as sources;
ghost use Rattle.sk_cli.specs.Answer as answer;

use sk_base::Trap;
use sk_outside::{Sink, WriteAnswer};
use sk_words::put_decimal;
use std::alloc::{AllocError, Global};

/// The status of want of memory.
pub const WANT_OF_MEMORY: u8 = 9;

/// Puts a line on the error stream, and answers the status, or that of want of memory. With the status the stream took the
/// line, or a prefix of it where a put failed; with that of want of memory it took a prefix, whether or not a put failed.
pub fn tell<E: Sink>(alloc: Global, err: &mut E, line: &[u8], status: u8) -> u8
    ensures told { (result ≡ WANT_OF_MEMORY) ⊎ ((result ≡ status) × Told line.now (E.holds err.old) (E.holds err.new)) }
    ensures prefix { TookPrefix line.now (E.holds err.old) (E.holds err.new) }
{
    match err.put(alloc, line) {
        Ok(()) | Err(WriteAnswer::Failed) => status,
        Err(WriteAnswer::Memory) => WANT_OF_MEMORY,
    }
}

/// Tells that memory was wanting, and answers its status.
pub fn tell_want<E: Sink>(alloc: Global, err: &mut E) -> u8
    ensures status { result ≡ WANT_OF_MEMORY }
    ensures prefix { TookPrefix memory_line (E.holds err.old) (E.holds err.new) }
{
    tell(alloc, err, b"memory\n", WANT_OF_MEMORY)
}

/// Tells that the output was not written.
pub fn tell_write_fault<E: Sink>(alloc: Global, err: &mut E, status: u8) -> u8
    ensures told { (result ≡ WANT_OF_MEMORY) ⊎ ((result ≡ status) × Told write_fault_line (E.holds err.old) (E.holds err.new)) }
    ensures prefix { TookPrefix write_fault_line (E.holds err.old) (E.holds err.new) }
{
    tell(alloc, err, b"write fault output\n", status)
}

/// Tells which file was not read.
pub fn tell_read_fault<E: Sink>(alloc: Global, err: &mut E, name: &str, status: u8) -> u8
    ensures told { (result ≡ WANT_OF_MEMORY) ⊎ ((result ≡ status) × Told (answer.read_fault_line name.now) (E.holds err.old) (E.holds err.new)) }
    ensures prefix { TookPrefix (answer.read_fault_line name.now) (E.holds err.old) (E.holds err.new) }
{
    match read_fault_line(alloc, name) {
        Ok(line) => tell(alloc, err, line.as_slice(), status),
        Err(_) => WANT_OF_MEMORY,
    }
}

/// The line that tells which file was not read.
fn read_fault_line(alloc: Global, name: &str) -> Result<Vec<u8>, AllocError>
    ensures { IfOk result (λ line. line.items ≡ answer.read_fault_line name.now) }
{
    let mut line = Vec::from_slice(alloc, b"read fault ")?;
    line.extend_from_slice(name.as_bytes())?;
    line.extend_from_slice(b"\n")?;
    Ok(line)
}

/// Tells words and a number.
pub fn tell_numbered<E: Sink>(
    alloc: Global,
    err: &mut E,
    words: &[u8],
    number: u64,
    status: u8,
) -> u8
    ensures told { (result ≡ WANT_OF_MEMORY) ⊎ ((result ≡ status) × Told (sources.numbered_line words.now number) (E.holds err.old) (E.holds err.new)) }
    ensures prefix { TookPrefix (sources.numbered_line words.now number) (E.holds err.old) (E.holds err.new) }
{
    match numbered_line(alloc, words, number) {
        Ok(line) => tell(alloc, err, line.as_slice(), status),
        Err(_) => WANT_OF_MEMORY,
    }
}

/// A line of words and a number.
fn numbered_line(alloc: Global, words: &[u8], number: u64) -> Result<Vec<u8>, AllocError>
    ensures { IfOk result (λ line. line.items ≡ sources.numbered_line words.now number) }
{
    let mut line = Vec::from_slice(alloc, words)?;
    put_decimal(&mut line, number)?;
    line.extend_from_slice(b"\n")?;
    Ok(line)
}

/// The status of a trap.
const TRAPPED: u8 = 3;

/// Tells a trap with its line and its element.
pub fn tell_trap<E: Sink>(alloc: Global, err: &mut E, trap: Trap, line: u32, element: u32) -> u8
    ensures told { (result ≡ WANT_OF_MEMORY) ⊎ ((result ≡ TRAPPED) × Told (answer.trap_line trap line element) (E.holds err.old) (E.holds err.new)) }
    ensures prefix { TookPrefix (answer.trap_line trap line element) (E.holds err.old) (E.holds err.new) }
{
    match trap_line(alloc, trap, line, element) {
        Ok(told) => tell(alloc, err, told.as_slice(), TRAPPED),
        Err(_) => WANT_OF_MEMORY,
    }
}

/// The line that tells a trap.
fn trap_line(alloc: Global, trap: Trap, line: u32, element: u32) -> Result<Vec<u8>, AllocError>
    ensures { IfOk result (λ told. told.items ≡ answer.trap_line trap line element) }
{
    let mut told = Vec::from_slice(alloc, b"trap ")?;
    told.extend_from_slice(trap_word(trap))?;
    told.extend_from_slice(b" line ")?;
    put_decimal(&mut told, line as u64)?;
    told.extend_from_slice(b" element ")?;
    put_decimal(&mut told, element as u64)?;
    told.extend_from_slice(b"\n")?;
    Ok(told)
}

/// The word for a kind of trap.
fn trap_word(trap: Trap) -> &'static [u8]
    ensures { result.now ≡ answer.trap_word trap }
{
    match trap {
        Trap::Divide => b"divide",
        Trap::Index => b"index",
        Trap::Turns => b"turns",
        Trap::Shape => b"shape",
        Trap::Empty => b"empty",
    }
}
