//! Why a call to the outside gives up.
ghost use Rattle.std.specs.Prelude.{◌≡◌};
ghost use Rattle.sk_outside.specs.declared.answers.FileAnswer.TheVariants as file;
ghost use Rattle.sk_outside.specs.declared.answers.WriteAnswer.TheVariants as write;

use std::alloc::{AllocError, AllocFailed};

/// Why a file was not read.
#[derive(Clone, Copy, PartialEq, Eq, Debug)]
pub enum FileAnswer {
    /// The file is absent, or the system refused it.
    Failed,
    /// The file is longer than the limit of the call.
    Long,
    /// Want of memory.
    Memory,
}

/// Why bytes were not written, or not all of them.
#[derive(Clone, Copy, PartialEq, Eq, Debug)]
pub enum WriteAnswer {
    /// The file or stream refused them.
    Failed,
    /// Want of memory.
    Memory,
}

impl From<AllocError> for FileAnswer {
    ghost from_gives = { λ _ answer. answer ≡ file.Memory };

    fn from(_: AllocError) -> Self {
        FileAnswer::Memory
    }
}

impl<T: Drop> From<AllocFailed<T>> for FileAnswer {
    ghost from_gives = { λ _ answer. answer ≡ file.Memory };

    fn from(_: AllocFailed<T>) -> Self {
        FileAnswer::Memory
    }
}

impl From<AllocError> for WriteAnswer {
    ghost from_gives = { λ _ answer. answer ≡ write.Memory };

    fn from(_: AllocError) -> Self {
        WriteAnswer::Memory
    }
}

impl<T: Drop> From<AllocFailed<T>> for WriteAnswer {
    ghost from_gives = { λ _ answer. answer ≡ write.Memory };

    fn from(_: AllocFailed<T>) -> Self {
        WriteAnswer::Memory
    }
}
