ghost use Rattle.std.specs.Prelude.{◌≡◌};
ghost use Rattle.sk_typing.specs.TypingFaults as faults;

use sk_typing::{Fault, FaultKind};

/// The place of a kind among the faults of one line.
fn rank(kind: FaultKind) -> u32
    ensures { result ≡ faults.rank kind }
{
    match kind {
        FaultKind::Unknown => 0,
        FaultKind::Twice => 1,
        FaultKind::Mismatch => 2,
        FaultKind::Arity => 3,
        FaultKind::NoReturn => 4,
    }
}

/// Whether a fault is told before another one.
fn comes_before(fault: Fault, other: Fault) -> bool
    ensures { result ≡ faults.comes_before fault other }
{
    match fault {
        Fault::NoMain => false,
        Fault::At(line, kind) => match other {
            Fault::NoMain => true,
            Fault::At(other_line, other_kind) => {
                line < other_line || (line == other_line && rank(kind) < rank(other_kind))
            }
        },
    }
}

/// Of two faults, as far as there are any, the one that is told.
pub(crate) fn earlier(fault: Option<Fault>, other: Option<Fault>) -> Option<Fault>
    ensures { result ≡ faults.earlier fault other }
{
    match fault {
        None => other,
        Some(first) => match other {
            None => Some(first),
            Some(second) => {
                if comes_before(second, first) {
                    Some(second)
                } else {
                    Some(first)
                }
            }
        },
    }
}
