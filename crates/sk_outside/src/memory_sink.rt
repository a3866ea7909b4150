//! A sink in memory.
ghost use Rattle.std.specs.Prelude.{◌≡◌, ◌<◌, [], length, IsErrOf, OnOk};

use crate::{Sink, WriteAnswer};
use std::alloc::Global;
use std::marker::Model;

/// A sink in memory, which tells its bytes, and may have an end.
#[derive(Drop)]
pub struct MemSink {
    bytes: Vec<u8>,
    room: Option<u32>,
    faults: u64,
}

impl Model for MemSink {
    ghost use Rattle.sk_outside.specs.MemorySink.{MemorySink};

    ghost Value = { MemorySink };

    ghost view = { λ sink. record { bytes = sink.bytes.items; room = sink.room; faults = sink.faults } };
}

impl MemSink {
    /// An empty sink. It takes `room` bytes in all, or without end where that is `None`.
    pub fn new(alloc: Global, room: Option<u32>) -> MemSink
        ensures { result ≡ record { bytes = []; room = room; faults = 0 } }
    {
        MemSink {
            bytes: Vec::new(alloc),
            room,
            faults: 0,
        }
    }

    /// The bytes that it has taken.
    pub fn bytes(&self) -> &[u8]
        ensures { result.now ≡ self.now.bytes }
    {
        &self.bytes
    }

    ghost use Rattle.sk_outside.specs.MemorySink.{fitting};

    /// How many bytes of a piece of that length fit.
    fn fitting(&self, len: usize) -> usize
        ensures { result ≡ fitting self.now.room (length self.now.bytes) len }
    {
        match self.room {
            None => len,
            Some(room) => len.min((room as usize).saturating_sub(self.bytes.len())),
        }
    }
}

impl Sink for MemSink {
    ghost use Rattle.sk_outside.specs.MemorySink.{holding_of, fitting, after_put};

    ghost holds = { holding_of };

    /// Takes what fits. Where that is not all, the put fails.
    fn put(&mut self, _alloc: Global, bytes: &[u8]) -> Result<(), WriteAnswer>
        ensures fits { OnOk result (
            fitting self.old.room (length self.old.bytes) (length bytes.now) ≡ length bytes.now) }
        ensures full { IsErrOf result WriteAnswer.Failed →
            fitting self.old.room (length self.old.bytes) (length bytes.now) < length bytes.now }
        ensures after { self.new ≡ after_put result bytes.now self.old }
    {
        let fitting = self.fitting(bytes.len());
        self.bytes.extend_from_slice(&bytes[..fitting])?;
        if fitting < bytes.len() {
            self.faults = self.faults.saturating_add(1);
            return Err(WriteAnswer::Failed);
        }
        Ok(())
    }
}
