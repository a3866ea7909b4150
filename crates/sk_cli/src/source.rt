//! From the bytes of a source to its compiled program.
ghost use Rattle.std.specs.Prelude.{◌≡◌, ◌≤◌, length, true, IfOk, IfErr};
ghost use Rattle.sk_cli.specs.Faults.{TellsSource};
ghost use Rattle.sk_cli.specs.Sources.{SpellsTyped, source_limit};
ghost use Rattle.sk_cli.specs.declared.source.SourceFault.TheVariants as fault;
ghost use Rattle.sk_tree.specs.declared.tree.Program.{Program};
ghost use Rattle.sk_vector_laws.specs.Vectors.{IsRunnable};

use sk_codegen::compile;
use sk_isa::Object;
use sk_lexer::{LexFault, tokens};
use sk_parser::{ParseFault, parse};
use sk_types::{TypeFault, check};
use sk_vector_form::has_vector_form;
use std::alloc::{AllocError, Global};

/// Why a source has no compiled program.
#[derive(Clone, Copy, PartialEq, Eq, Debug)]
pub(crate) enum SourceFault {
    Tokens(LexFault),
    Parse(ParseFault),
    Types(TypeFault),
    /// Programs of its form are not run yet.
    Later,
    Memory,
}

impl From<LexFault> for SourceFault {
    ghost from_gives = { λ given made. made ≡ fault.Tokens given };

    fn from(fault: LexFault) -> SourceFault {
        SourceFault::Tokens(fault)
    }
}

impl From<ParseFault> for SourceFault {
    ghost from_gives = { λ given made. made ≡ fault.Parse given };

    fn from(fault: ParseFault) -> SourceFault {
        SourceFault::Parse(fault)
    }
}

impl From<TypeFault> for SourceFault {
    ghost from_gives = { λ given made. made ≡ fault.Types given };

    fn from(fault: TypeFault) -> SourceFault {
        SourceFault::Types(fault)
    }
}

impl From<AllocError> for SourceFault {
    ghost from_gives = { λ _ made. made ≡ fault.Memory };

    fn from(_error: AllocError) -> SourceFault {
        SourceFault::Memory
    }
}

/// The compiled program of a source. Takes time and memory in proportion to the source.
pub(crate) fn compiled(alloc: Global, source: &[u8]) -> Result<Object, SourceFault>
    requires { length source.now ≤ source_limit }
    ensures runs { IfOk result (λ object. (program : Program) × SpellsTyped source.now program true × IsRunnable object program) }
    ensures fault { IfErr result (TellsSource source.now) }
{
    let tokens = tokens(alloc, source)?;
    let program = parse(alloc, tokens.as_slice())?;
    let typed = check(alloc, program)?;
    if has_vector_form(typed.program()) {
        Ok(compile(alloc, typed.program())?)
    } else {
        Err(SourceFault::Later)
    }
}
