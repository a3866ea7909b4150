ghost use Rattle.std.specs.Prelude.{◌≡◌};
ghost use Rattle.sk_reader.specs.declared.stop.Stop.TheVariants.{Memory};

use sk_refusals::Refusal;
use std::alloc::{AllocError, AllocFailed};

/// Why reading stops.
#[derive(Clone, Copy, PartialEq, Eq, Debug)]
pub enum Stop {
    /// What is wrong at the next token, and how many tokens are left there.
    Refused { refusal: Refusal, left: usize },
    Memory,
}

impl From<AllocError> for Stop {
    ghost from_gives = { λ _ stop. stop ≡ Memory };

    fn from(_error: AllocError) -> Stop {
        Stop::Memory
    }
}

impl<T: Drop> From<AllocFailed<T>> for Stop {
    ghost from_gives = { λ _ stop. stop ≡ Memory };

    fn from(_failed: AllocFailed<T>) -> Stop {
        Stop::Memory
    }
}
