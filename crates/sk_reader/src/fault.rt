ghost use Rattle.std.specs.Prelude.{◌≡◌};
ghost use Rattle.sk_reader.specs.Tells.{fault_of};

use sk_refusals::{Limited, Refusal};
use thiserror::Error;

/// Why a list of tokens is not read. Tokens count from 0; the end of the list counts as one more.
#[derive(Clone, Copy, PartialEq, Eq, Debug, Error)]
pub enum ParseFault {
    /// No program goes on like this.
    #[error("a syntax fault at token {token}")]
    Syntax { token: u32 },
    /// Its parts nest too deep.
    #[error("too deep at token {token}")]
    Deep { token: u32 },
    /// It has too many of something.
    #[error("too many {what:?} at token {token}")]
    Many { what: Limited, token: u32 },
    #[error("out of memory")]
    Memory,
}

impl ParseFault {
    /// The fault of what is wrong at a token.
    pub fn new(refusal: Refusal, token: u32) -> ParseFault
        ensures { result ≡ fault_of refusal token }
    {
        match refusal {
            Refusal::Syntax => ParseFault::Syntax { token },
            Refusal::Deep => ParseFault::Deep { token },
            Refusal::Many(what) => ParseFault::Many { what, token },
        }
    }
}
