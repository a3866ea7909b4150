ghost use Rattle.std.specs.Prelude.{◌≡◌};
ghost use Rattle.sk_lexer.specs.declared.fault.LexFault.TheVariants.{Memory};

use std::alloc::{AllocError, AllocFailed};
use thiserror::Error;

/// Why a text has no tokens. A place is the fault's least byte, counted from 0: the first byte of the token that is
/// faulty.
#[derive(Clone, Copy, PartialEq, Eq, Debug, Error)]
pub enum LexFault {
    /// No token begins here, or a number runs into a letter, a digit or `_`.
    #[error("no token at byte {at}")]
    NoToken { at: u32 },
    /// A number above 2^63 - 1.
    #[error("a number that is too large at byte {at}")]
    Wide { at: u32 },
    /// A name, or the bytes that a string stands for, of more than 255 bytes.
    #[error("a name or string that is too long at byte {at}")]
    LongName { at: u32 },
    #[error("out of memory")]
    Memory,
}

impl From<AllocError> for LexFault {
    ghost from_gives = { λ _ fault. fault ≡ Memory };

    fn from(_error: AllocError) -> LexFault {
        LexFault::Memory
    }
}

impl<T: Drop> From<AllocFailed<T>> for LexFault {
    ghost from_gives = { λ _ fault. fault ≡ Memory };

    fn from(_error: AllocFailed<T>) -> LexFault {
        LexFault::Memory
    }
}
