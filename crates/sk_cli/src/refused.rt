//! Lines that tell why a source is not run.
ghost use Rattle.std.specs.Prelude.{◌≡◌, ◌⊎◌};
ghost use Rattle.sk_cli.specs.Answer.{Told, TookPrefix};
ghost use Rattle.sk_cli.specs.Faults.{IsRefusedAs, cause_of, cause_of_parse, cause_of_tokens, cause_of_types, line_told};
ghost use Rattle.sk_cli.specs.Sources as lines;

use crate::report::{WANT_OF_MEMORY, tell, tell_numbered, tell_want};
use crate::source::SourceFault;
use sk_lexer::LexFault;
use sk_outside::Sink;
use sk_parser::{Limited, ParseFault};
use sk_types::TypeFault;
use std::alloc::Global;

/// The status of a refusal.
const REFUSED: u8 = 1;

/// Tells why a source is not run.
pub(crate) fn tell_refused<E: Sink>(alloc: Global, err: &mut E, fault: SourceFault) -> u8
    ensures told { (result ≡ WANT_OF_MEMORY) ⊎ IsRefusedAs (cause_of fault) result (E.holds err.old) (E.holds err.new) }
    ensures prefix { TookPrefix (line_told (cause_of fault)) (E.holds err.old) (E.holds err.new) }
{
    match fault {
        SourceFault::Tokens(fault) => tell_token_fault(alloc, err, fault),
        SourceFault::Parse(fault) => tell_parse_fault(alloc, err, fault),
        SourceFault::Types(fault) => tell_type_fault(alloc, err, fault),
        SourceFault::Later => tell(alloc, err, b"refused later\n", REFUSED),
        SourceFault::Memory => tell_want(alloc, err),
    }
}

fn tell_token_fault<E: Sink>(alloc: Global, err: &mut E, fault: LexFault) -> u8
    ensures told { (result ≡ WANT_OF_MEMORY) ⊎ IsRefusedAs (cause_of_tokens fault) result (E.holds err.old) (E.holds err.new) }
    ensures prefix { TookPrefix (line_told (cause_of_tokens fault)) (E.holds err.old) (E.holds err.new) }
{
    match fault {
        LexFault::NoToken { at } => tell_refusal_at(alloc, err, b"refused notoken byte ", at),
        LexFault::Wide { at } => tell_refusal_at(alloc, err, b"refused wide byte ", at),
        LexFault::LongName { at } => tell_refusal_at(alloc, err, b"refused longname byte ", at),
        LexFault::Memory => tell_want(alloc, err),
    }
}

fn tell_parse_fault<E: Sink>(alloc: Global, err: &mut E, fault: ParseFault) -> u8
    ensures told { (result ≡ WANT_OF_MEMORY) ⊎ IsRefusedAs (cause_of_parse fault) result (E.holds err.old) (E.holds err.new) }
    ensures prefix { TookPrefix (line_told (cause_of_parse fault)) (E.holds err.old) (E.holds err.new) }
{
    match fault {
        ParseFault::Syntax { token } => tell_refusal_at(
            alloc,
            err,
            b"refused syntax token ",
            token,
        ),
        ParseFault::Deep { token } => tell_refusal_at(alloc, err, b"refused deep token ", token),
        ParseFault::Many { what, token } => tell_refusal_at(alloc, err, many_words(what), token),
        ParseFault::Memory => tell_want(alloc, err),
    }
}

/// The words that tell what there is too much of.
fn many_words(what: Limited) -> &'static [u8]
    ensures { result.now ≡ lines.many_words what }
{
    match what {
        Limited::Functions => b"refused many functions token ",
        Limited::Instances => b"refused many instances token ",
        Limited::Parameters => b"refused many parameters token ",
        Limited::Nodes => b"refused many nodes token ",
    }
}

fn tell_type_fault<E: Sink>(alloc: Global, err: &mut E, fault: TypeFault) -> u8
    ensures told { (result ≡ WANT_OF_MEMORY) ⊎ IsRefusedAs (cause_of_types fault) result (E.holds err.old) (E.holds err.new) }
    ensures prefix { TookPrefix (line_told (cause_of_types fault)) (E.holds err.old) (E.holds err.new) }
{
    match fault {
        TypeFault::Unknown { line } => tell_refusal_at(alloc, err, b"refused unknown line ", line),
        TypeFault::Twice { line } => tell_refusal_at(alloc, err, b"refused twice line ", line),
        TypeFault::Mismatch { line } => tell_refusal_at(
            alloc,
            err,
            b"refused mismatch line ",
            line,
        ),
        TypeFault::Arity { line } => tell_refusal_at(alloc, err, b"refused arity line ", line),
        TypeFault::NoReturn { line } => tell_refusal_at(
            alloc,
            err,
            b"refused noreturn line ",
            line,
        ),
        TypeFault::NoMain => tell(alloc, err, b"refused nomain\n", REFUSED),
        TypeFault::Memory => tell_want(alloc, err),
    }
}

/// Tells a refusal with the number of its byte, token or line.
fn tell_refusal_at<E: Sink>(alloc: Global, err: &mut E, words: &[u8], number: u32) -> u8
    ensures told { (result ≡ WANT_OF_MEMORY) ⊎ ((result ≡ 1) × Told (lines.numbered_line words.now number) (E.holds err.old) (E.holds err.new)) }
    ensures prefix { TookPrefix (lines.numbered_line words.now number) (E.holds err.old) (E.holds err.new) }
{
    tell_numbered(alloc, err, words, number as u64, REFUSED)
}
