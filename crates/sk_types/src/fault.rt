ghost use Rattle.std.specs.Prelude.{◌≡◌};
ghost use Rattle.sk_types.specs.Answers.{told_as};
ghost use Rattle.sk_types.specs.declared.fault.TypeFault.TheVariants.{Memory};

use sk_typing::{Fault, FaultKind};
use std::alloc::AllocError;
use thiserror::Error;

/// Why a program is refused. Of several faults the one of the least line is told, and of those of one line the one that
/// stands first here.
#[derive(Clone, Copy, PartialEq, Eq, Debug, Error)]
pub enum TypeFault {
    /// A name that is not in scope.
    #[error("an unknown name on line {line}")]
    Unknown { line: u32 },
    /// A declaration of a name that is in scope.
    #[error("a name that is declared twice on line {line}")]
    Twice { line: u32 },
    /// A use that the rules do not allow.
    #[error("a mismatch on line {line}")]
    Mismatch { line: u32 },
    /// A wrong number of something.
    #[error("a wrong count on line {line}")]
    Arity { line: u32 },
    /// A user function, at its line, that may end without a value.
    #[error("a function that may not return on line {line}")]
    NoReturn { line: u32 },
    /// The last function is not `int main()`, or an earlier one is named main; told where there is no other fault.
    #[error("no main")]
    NoMain,
    #[error("out of memory")]
    Memory,
}

impl From<AllocError> for TypeFault {
    ghost from_gives = { λ _ fault. fault ≡ Memory };

    fn from(_error: AllocError) -> TypeFault {
        TypeFault::Memory
    }
}

/// A fault as it is told.
pub(crate) fn told(fault: Fault) -> TypeFault
    ensures { result ≡ told_as fault }
{
    match fault {
        Fault::NoMain => TypeFault::NoMain,
        Fault::At(line, kind) => match kind {
            FaultKind::Unknown => TypeFault::Unknown { line },
            FaultKind::Twice => TypeFault::Twice { line },
            FaultKind::Mismatch => TypeFault::Mismatch { line },
            FaultKind::Arity => TypeFault::Arity { line },
            FaultKind::NoReturn => TypeFault::NoReturn { line },
        },
    }
}
