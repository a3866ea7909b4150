ghost use Rattle.std.specs.Prelude.{◌≡◌, ◌<◌, ◌==◌, ◌&&◌, List, Result, length, codes, IfOk};
ghost use Rattle.std.specs.List.{starts_with};
ghost use Rattle.sk_tokens.specs.Tokens.{TokenFault, token_at, piece_at};
ghost use Rattle.sk_tokens.specs.declared.token.Token.{Token};
ghost use Rattle.sk_lexer.specs.Pieces.{piece_of, fault_of};
ghost use Rattle.sk_lexer.specs.Faults.{Tells};

use crate::LexFault;
use crate::blank::{comment_len, line_len};
use crate::bytes::{is_blank, is_digit, is_letter};
use crate::number::number;
use crate::sign::sign;
use crate::string::string;
use crate::word::word;
use sk_tokens::TokenKind;
use std::alloc::{AllocError, Global};

/// What stands at the front of a rest of the text, with its number of bytes.
#[derive(Debug, Drop)]
pub enum Piece {
    Passed(usize),
    Found(usize, TokenKind),
    Faulty(Flaw),
}

/// Why no token stands at the front of a rest of the text.
#[derive(Clone, Copy, PartialEq, Eq, Debug)]
pub enum Flaw {
    NoToken,
    Wide,
    LongName,
}

impl Flaw {
    /// The fault of a token that begins at this byte.
    pub fn at(self, at: u32) -> LexFault
        ensures { (tokens : Result (List Token) TokenFault) → tokens ≡ Err (fault_of self at) → Tells result tokens }
    {
        match self {
            Flaw::NoToken => LexFault::NoToken { at },
            Flaw::Wide => LexFault::Wide { at },
            Flaw::LongName => LexFault::LongName { at },
        }
    }
}

/// The piece at the front of the rest, before which blanks alone stand on the line or not.
pub fn next_piece(alloc: Global, rest: &[u8], begins_line: bool) -> Result<Piece, AllocError>
    requires { 0 < length rest.now }
    ensures { IfOk result (λ piece. piece_of piece ≡ piece_at begins_line rest.now) }
{
    if is_blank(rest[0]) {
        Ok(Piece::Passed(1))
    } else if rest.starts_with(b"//") {
        Ok(Piece::Passed(line_len(rest)))
    } else if rest.starts_with(b"/*") {
        match comment_len(&rest[2..]) {
            Some(bytes) => Ok(Piece::Passed(2 + bytes)),
            None => Ok(Piece::Faulty(Flaw::NoToken)),
        }
    } else if rest[0] == b'#' {
        if is_include(rest, begins_line) {
            Ok(Piece::Passed(line_len(rest)))
        } else {
            Ok(Piece::Faulty(Flaw::NoToken))
        }
    } else {
        token(alloc, rest)
    }
}

/// Whether the line is one to pass over.
fn is_include(rest: &[u8], begins_line: bool) -> bool
    ensures { result ≡ (starts_with (λ a b. a == b) rest.now (codes "#include") && begins_line) }
{
    rest.starts_with(b"#include") && begins_line
}

/// The longest token at the front of the rest.
fn token(alloc: Global, rest: &[u8]) -> Result<Piece, AllocError>
    requires { 0 < length rest.now }
    ensures { IfOk result (λ piece. piece_of piece ≡ token_at rest.now) }
{
    let first = rest[0];
    if is_letter(first) {
        word(alloc, rest)
    } else if is_digit(first) {
        Ok(number(rest))
    } else if first == b'"' {
        string(alloc, rest)
    } else {
        Ok(sign(rest))
    }
}
