ghost use Rattle.std.specs.Prelude.{◌≡◌, IfOk, true, slice_index};
ghost use Rattle.sk_names.specs.Bytes.{is_letter};
ghost use Rattle.sk_tokens.specs.Tokens.{token_at};
ghost use Rattle.sk_lexer.specs.Pieces.{piece_of};

use crate::bytes::word_len;
use crate::piece::{Flaw, Piece};
use sk_names::Name;
use sk_tokens::TokenKind;
use std::alloc::{AllocError, Global};

/// The most bytes that a name may have, or that a string may stand for.
pub const LONGEST: usize = 255;

/// The word at the front of the rest, which begins with a letter or `_`.
pub fn word(alloc: Global, rest: &[u8]) -> Result<Piece, AllocError>
    requires { is_letter (slice_index rest.now 0) ≡ true }
    ensures { IfOk result (λ piece. piece_of piece ≡ token_at rest.now) }
{
    let bytes = word_len(rest);
    if bytes > LONGEST {
        return Ok(Piece::Faulty(Flaw::LongName));
    }
    let name = Name::from_slice(alloc, &rest[..bytes])?;
    Ok(Piece::Found(bytes, TokenKind::Word(name)))
}
