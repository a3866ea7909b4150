//! The top call.
ghost use Rattle.std.specs.Prelude.{◌≡◌, ◌⊎◌, ◌<◌, ◌≤◌, ◌^◌, length, map, string_bytes};
ghost use Rattle.sk_cli.specs.Answer.{Answer, Command, IsAnswer, IsAnswerToBytes, Gives, PrintsPart, IsReadFault, IsWriteFault, IsWant, asked_of};
ghost use Rattle.sk_cli.specs.Sources.{source_limit};
ghost use Rattle.sk_outside.specs.Faults.{Faults};

use crate::refused::tell_refused;
use crate::report::{tell, tell_read_fault, tell_want};
use crate::run::run_object;
use crate::source::compiled;
use crate::words::asked;
use sk_outside::{FileAnswer, Files, Sink};
use std::alloc::Global;

/// How many bytes a source may have: 1 MiB.
const SOURCE_LIMIT: usize = 1 << 20;

/// Answers the bytes of a source: compiles and runs their program, and tells a refusal, a trap or a fault on the error stream.
fn run_source<O: Sink, E: Sink>(alloc: Global, source: &[u8], out: &mut O, err: &mut E) -> u8
    requires { length source.now ≤ source_limit }
    ensures answered { (result ≡ 8) ⊎ (result ≡ 9) ⊎ ((answer : Answer) × IsAnswerToBytes source.now answer
        × Gives answer result (O.holds out.old) (O.holds out.new) (E.holds err.old) (E.holds err.new)) }
    ensures write_fault { result ≡ 8 → IsWriteFault (O.holds out.old) (O.holds out.new) (E.holds err.old) (E.holds err.new) }
    ensures cut_short { result ≡ 8 → PrintsPart (IsAnswerToBytes source.now) (O.holds out.old) (O.holds out.new) }
    // Whatever is asked, and whichever reads have failed.
    ensures memory { result ≡ 9 → (command : Command) (reads reads' : Faults) → IsWant command (IsAnswerToBytes source.now)
        reads reads' (O.holds out.old) (O.holds out.new) (E.holds err.old) (E.holds err.new) }
    ensures steady { (result ≡ 8) ⊎ (result ≡ 9) ⊎ ((O.holds out.new).faults ≡ (O.holds out.old).faults) }
{
    match compiled(alloc, source) {
        Ok(object) => run_object(alloc, &object, out, err),
        Err(fault) => tell_refused(alloc, err, fault),
    }
}

/// Does what the words of a command line ask for, and answers the status that the program ends with. `words` are those
/// after the program's name.
///
/// The words `run` and a name run the source of that file: what the program prints goes to `out`, and a line on a refusal
/// or a fault to `err`. Where a put on `err` fails, it took a prefix of the line, and the status is still that of the answer
/// or of the fault, or 9, for want of memory.
pub fn skepu<F: Files, O: Sink, E: Sink>(
    alloc: Global,
    words: &[String],
    files: &mut F,
    out: &mut O,
    err: &mut E,
) -> u8
    // Every status but these three is that of the answer, whose bytes were printed.
    ensures answered { (result ≡ 7) ⊎ (result ≡ 8) ⊎ (result ≡ 9) ⊎ ((answer : Answer)
        × IsAnswer (map string_bytes words.now) (F.holds files.old).contents answer
        × Gives answer result (O.holds out.old) (O.holds out.new) (E.holds err.old) (E.holds err.new)) }

    // A fault has its cause, and no fault is passed over. Where the output failed, a prefix of the answer's bytes was printed.
    ensures read_fault { result ≡ 7 → IsReadFault (asked_of (map string_bytes words.now))
        (F.holds files.old).reads (F.holds files.new).reads
        (O.holds out.old) (O.holds out.new) (E.holds err.old) (E.holds err.new) }
    ensures write_fault { result ≡ 8 → IsWriteFault (O.holds out.old) (O.holds out.new) (E.holds err.old) (E.holds err.new) }
    ensures cut_short { result ≡ 8
        → PrintsPart (IsAnswer (map string_bytes words.now) (F.holds files.old).contents) (O.holds out.old) (O.holds out.new) }
    ensures memory { result ≡ 9 → IsWant (asked_of (map string_bytes words.now))
        (IsAnswer (map string_bytes words.now) (F.holds files.old).contents) (F.holds files.old).reads (F.holds files.new).reads
        (O.holds out.old) (O.holds out.new) (E.holds err.old) (E.holds err.new) }
    ensures none_passed_over { ((F.holds files.old).reads.count < (F.holds files.new).reads.count)
        ⊎ ((O.holds out.old).faults < (O.holds out.new).faults) → (result ≡ 7) ⊎ (result ≡ 8) ⊎ (result ≡ 9) }

    // No file is written.
    ensures contents { (F.holds files.new).contents ≡ (F.holds files.old).contents }
    ensures writes { (F.holds files.new).writes ≡ (F.holds files.old).writes }
{
    let Some(name) = asked(words) else {
        return tell(alloc, err, b"usage\n", 2);
    };
    match files.read_all(alloc, name, SOURCE_LIMIT) {
        Ok(source) => run_source(alloc, source.as_slice(), out, err),
        Err(FileAnswer::Failed) => tell_read_fault(alloc, err, name, 7),
        Err(FileAnswer::Long) => tell(alloc, err, b"refused long\n", 1),
        Err(FileAnswer::Memory) => tell_want(alloc, err),
    }
}
