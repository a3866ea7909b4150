//! From a text to its program.
ghost use Rattle.std.specs.Prelude.{IfOk};
ghost use Rattle.sk_grammar.specs.Grammar.{IsFromText};

use sk_lexer::tokens;
use sk_parser::{ParseFault, parse};
use sk_tree::Program;
use std::alloc::Global;

/// No text of a row has so many bytes or tokens.
const MANY: usize = 1 << 30;

/// Why a text is no program.
#[derive(Clone, Copy)]
pub enum Unread {
    /// It has no tokens, or too many.
    Tokens,
    /// Its tokens are no program.
    Parse(ParseFault),
}

impl From<ParseFault> for Unread {
    fn from(fault: ParseFault) -> Unread {
        Unread::Parse(fault)
    }
}

/// The program of a text, or why it is none.
#[tactic(auto, using(crate::proofs::FromText::from_text))]
pub fn read(alloc: Global, text: &[u8]) -> Result<Program, Unread>
    ensures { IfOk result (λ program. IsFromText program) }
{
    if text.len() >= MANY {
        return Err(Unread::Tokens);
    }
    let Ok(tokens) = tokens(alloc, text) else {
        return Err(Unread::Tokens);
    };
    if tokens.len() >= MANY {
        return Err(Unread::Tokens);
    }
    Ok(parse(alloc, tokens.as_slice())?)
}
