//! Why no copy is acquired.
ghost use Rattle.std.specs.Prelude.{◌≡◌};
ghost use Rattle.sk_coherence.specs.declared.faults.AcquireFault.TheVariants as fault;

use sk_spaces::Memory;
use thiserror::Error;

/// Why no copy is acquired.
#[derive(Clone, Copy, PartialEq, Eq, Debug, Error)]
pub enum AcquireFault {
    /// A block of so many cells and the pinned ones would be more than the space has.
    #[error("no room for {need} cells: {pinned} of {capacity} are pinned")]
    NoRoom {
        need: u32,
        pinned: u32,
        capacity: u32,
    },
    /// Want of memory.
    #[error("out of memory")]
    Memory,
}

impl From<Memory> for AcquireFault {
    ghost from_gives = { λ _ answer. answer ≡ fault.Memory };

    fn from(_: Memory) -> AcquireFault {
        AcquireFault::Memory
    }
}
