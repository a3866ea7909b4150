ghost use Rattle.std.specs.Prelude.{◌≡◌};
ghost use Rattle.sk_trace.specs.declared.fault.TraceFault.TheVariants as fault;

use sk_spaces::Memory;
use std::alloc::{AllocError, AllocFailed};
use thiserror::Error;

/// Why a text is no trace.
#[derive(Clone, Copy, PartialEq, Eq, Debug, Error)]
pub enum TraceFault {
    /// The first line without a reading; lines count from 1.
    #[error("line {number} of the trace has no reading")]
    Line { number: u32 },
    #[error("out of memory")]
    Memory,
}

impl From<Memory> for TraceFault {
    ghost from_gives = { λ _ told. told ≡ fault.Memory };

    fn from(_: Memory) -> TraceFault {
        TraceFault::Memory
    }
}

impl From<AllocError> for TraceFault {
    ghost from_gives = { λ _ told. told ≡ fault.Memory };

    fn from(_: AllocError) -> TraceFault {
        TraceFault::Memory
    }
}

impl<T: Drop> From<AllocFailed<T>> for TraceFault {
    ghost from_gives = { λ _ told. told ≡ fault.Memory };

    fn from(_: AllocFailed<T>) -> TraceFault {
        TraceFault::Memory
    }
}
