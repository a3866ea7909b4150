//! The run of a compiled program.
ghost use Rattle.std.specs.Prelude.{◌≡◌, ◌⊎◌, [], false};
ghost use Rattle.sk_cli.specs.Answer.{Gives, IsWantWith, IsWriteFault, TookPrefix, ran_alone, statement_limit};
ghost use Rattle.sk_main_code.specs.MainSteps.{coded_of};
ghost use Rattle.sk_main_code.specs.Sound.{IsSound};
ghost use Rattle.sk_main_code.specs.Vectors.{IsVectorObject};

use crate::report::{tell_numbered, tell_trap, tell_want, tell_write_fault};
use sk_host::{Outcome, execute};
use sk_isa::Object;
use sk_outside::Sink;
use std::alloc::Global;

/// How many statements a run may execute.
const STATEMENT_LIMIT: u64 = 1_000_000;

/// Runs a compiled program of vectors: what it prints goes to `out`, and a line to `err` where it does not come to its end.
pub(crate) fn run_object<O: Sink, E: Sink>(
    alloc: Global,
    object: &Object,
    out: &mut O,
    err: &mut E,
) -> u8
    requires sound { IsSound object.now }
    requires vectors { IsVectorObject object.now }
    ensures answered { (result ≡ 8) ⊎ (result ≡ 9) ⊎ Gives (ran_alone (coded_of object.now [] statement_limit false)) result
        (O.holds out.old) (O.holds out.new) (E.holds err.old) (E.holds err.new) }
    ensures write_fault { result ≡ 8 → IsWriteFault (O.holds out.old) (O.holds out.new) (E.holds err.old) (E.holds err.new) }
    ensures cut_short { result ≡ 8
        → TookPrefix (coded_of object.now [] statement_limit false).printed (O.holds out.old) (O.holds out.new) }
    ensures memory { result ≡ 9 → IsWantWith (ran_alone (coded_of object.now [] statement_limit false))
        (O.holds out.old) (O.holds out.new) (E.holds err.old) (E.holds err.new) }
    ensures steady { (result ≡ 8) ⊎ (result ≡ 9) ⊎ ((O.holds out.new).faults ≡ (O.holds out.old).faults) }
{
    match execute(alloc, object, STATEMENT_LIMIT, out) {
        Outcome::End => 0,
        Outcome::Trapped {
            trap,
            line,
            element,
        } => tell_trap(alloc, err, trap, line, element),
        Outcome::Bound => tell_numbered(alloc, err, b"bound ", STATEMENT_LIMIT, 4),
        Outcome::SinkFault => tell_write_fault(alloc, err, 8),
        Outcome::Memory => tell_want(alloc, err),
    }
}
