//! A stream of the system as a sink.
ghost use Rattle.std.specs.Prelude.{◌≡◌, None, OnOk};
ghost use Rattle.std.specs.Io.KnownBytes.{Appends};

use crate::{Sink, WriteAnswer};
use std::alloc::Global;
use std::io;
use std::io::{ErrorKind, Write};
use std::marker::Model;

/// A stream of the system, which tells nothing of its bytes.
///
/// A put writes and flushes the whole piece before it answers `Ok`, so nothing waits in a buffer when the program
/// ends. It costs at least one call of the writer: gather small pieces first.
#[derive(Drop)]
pub struct HostStream<W> {
    writer: W,
    faults: u64,
}

/// The standard output.
pub type HostOut<W> = HostStream<W>;

/// The standard error.
pub type HostErr<W> = HostStream<W>;

impl<W> Model for HostStream<W> {
    ghost use Rattle.std.specs.Prelude.{None};
    ghost use Rattle.sk_outside.specs.Holding.{SinkHolding};

    ghost Value = { SinkHolding };

    ghost view = { λ stream. record { taken = None; faults = stream.faults } };
}

impl<W: Write> HostStream<W> {
    /// A sink over this writer, with no failed put so far.
    pub fn new(writer: W) -> Self
        ensures { result ≡ record { taken = None; faults = 0 } }
    {
        HostStream { writer, faults: 0 }
    }
}

impl<W: Write> Sink for HostStream<W> {
    ghost holds = { λ stream. stream };

    fn put(&mut self, _alloc: Global, bytes: &[u8]) -> Result<(), WriteAnswer> {
        match write_whole(&mut self.writer, bytes) {
            Ok(()) => Ok(()),
            Err(_) => {
                self.faults = self.faults.saturating_add(1);
                Err(WriteAnswer::Failed)
            }
        }
    }
}

/// Writes all the bytes and flushes them. A write that takes nothing is an error.
pub fn write_whole<W: Write>(writer: &mut W, bytes: &[u8]) -> io::Result<()>
    ensures { OnOk result (Appends (W.contents writer.old) (W.contents writer.new) bytes.now) }
{
    let mut rest = bytes;
    'pieces: while !rest.is_empty() {
        let taken = writer.write(rest)?;
        if taken == 0 {
            return Err(io::Error::from(ErrorKind::WriteZero));
        }
        rest = &rest[taken..];
    }
    writer.flush()
}
