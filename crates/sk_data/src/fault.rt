ghost use Rattle.std.specs.Prelude.{◌≡◌};
ghost use Rattle.sk_data.specs.declared.fault.InputFault.TheVariants as fault;

use sk_names::Text;
use std::alloc::{AllocError, AllocFailed};
use thiserror::Error;

/// Want of memory.
#[derive(Clone, Copy, PartialEq, Eq, Debug, Error)]
#[error("out of memory")]
pub struct Memory;

/// Why a text does not give the inputs that are declared. Records and their fields count from 1, and the name is field 1.
#[derive(Debug, Drop, Error)]
pub enum InputFault {
    /// No record has this declared name.
    #[error("an input has no record")]
    Absent { name: Text },
    /// A second record has this declared name.
    #[error("an input has two records")]
    Doubled { name: Text },
    /// The second field is absent, or no shape of the declared kind.
    #[error("no shape in record {row}")]
    BadShape { row: u32 },
    /// There are more or fewer values than the shape has cells.
    #[error("another number of values than cells in record {row}")]
    Count { row: u32 },
    /// The field is no number of the declared type.
    #[error("no number of the type in field {field} of record {row}")]
    Number { row: u32, field: u32 },
    #[error("out of memory")]
    Memory,
}

impl From<AllocError> for Memory {
    fn from(_error: AllocError) -> Memory {
        Memory
    }
}

impl<T: Drop> From<AllocFailed<T>> for Memory {
    fn from(_error: AllocFailed<T>) -> Memory {
        Memory
    }
}

impl From<Memory> for InputFault {
    ghost from_gives = { λ _ told. told ≡ fault.Memory };

    fn from(_: Memory) -> InputFault {
        InputFault::Memory
    }
}

impl From<AllocError> for InputFault {
    ghost from_gives = { λ _ told. told ≡ fault.Memory };

    fn from(_error: AllocError) -> InputFault {
        InputFault::Memory
    }
}

impl<T: Drop> From<AllocFailed<T>> for InputFault {
    ghost from_gives = { λ _ told. told ≡ fault.Memory };

    fn from(_error: AllocFailed<T>) -> InputFault {
        InputFault::Memory
    }
}
