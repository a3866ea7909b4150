//! Why no block is made.
ghost use Rattle.std.specs.Prelude.{◌≡◌};
ghost use Rattle.sk_spaces.specs.declared.faults.SpaceFault.TheVariants as fault;

use crate::memory::Memory;
use std::alloc::AllocError;
use thiserror::Error;

/// Why no block is made in a space.
#[derive(Clone, Copy, PartialEq, Eq, Debug, Error)]
pub enum SpaceFault {
    /// So many cells are taken, and with `len` more there would be more than the space has.
    #[error("no room for {len} cells: {used} of {capacity} are taken")]
    NoRoom { used: u32, len: u32, capacity: u32 },
    /// Want of memory.
    #[error("out of memory")]
    Memory,
}

impl From<Memory> for SpaceFault {
    ghost from_gives = { λ _ answer. answer ≡ fault.Memory };

    fn from(_: Memory) -> SpaceFault {
        SpaceFault::Memory
    }
}

impl From<AllocError> for SpaceFault {
    ghost from_gives = { λ _ answer. answer ≡ fault.Memory };

    fn from(_: AllocError) -> SpaceFault {
        SpaceFault::Memory
    }
}
