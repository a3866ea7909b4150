ghost use Rattle.std.specs.Prelude.{◌≡◌, ◌<◌, ◌≤◌, ℕ, length, take, IfOk, IfSome, slice_index};
ghost use Rattle.sk_tokens.specs.Lexemes.{string_rest_of};
ghost use Rattle.sk_tokens.specs.Tokens.{token_at};
ghost use Rattle.sk_lexer.specs.Pieces.{piece_of};
ghost use Rattle.sk_lexer.specs.Strings.{front_at, pair_at, text_after};

use crate::piece::{Flaw, Piece};
use crate::word::LONGEST;
use sk_names::Text;
use sk_tokens::TokenKind;
use std::alloc::{AllocError, Global};

/// What the rest of a string begins with.
#[derive(Clone, Copy)]
enum Front {
    /// The closing quote.
    Quote,
    /// This many bytes, which stand for one.
    Stands(usize, u8),
    /// What no string has.
    Foreign,
}

/// A string after its opening quote: how many bytes it has, its closing quote among them, and those that it stands for.
#[derive(Drop)]
struct Closed {
    bytes: usize,
    text: Vec<u8>,
}

/// The string at the front of the rest, which begins with a quote.
pub fn string(alloc: Global, rest: &[u8]) -> Result<Piece, AllocError>
    requires { slice_index rest.now 0 ≡ 34 }
    ensures { IfOk result (λ piece. piece_of piece ≡ token_at rest.now) }
{
    match up_to_quote(alloc, &rest[1..])? {
        None => Ok(Piece::Faulty(Flaw::NoToken)),
        Some(Closed { bytes, text }) => {
            if text.len() > LONGEST {
                Ok(Piece::Faulty(Flaw::LongName))
            } else {
                Ok(Piece::Found(bytes + 1, TokenKind::Text(Text::from_vec(text))))
            }
        }
    }
}

/// The rest of a string up to its closing quote, if it has one: the only front that ends a string.
fn up_to_quote(alloc: Global, rest: &[u8]) -> Result<Option<Closed>, AllocError>
    ensures within { IfOk result (λ closed. IfSome closed (λ it. it.bytes ≤ length rest.now)) }
    ensures only { IfOk result (λ closed. (bytes : ℕ) → bytes ≤ length rest.now
        → string_rest_of (take bytes rest.now) ≡ text_after closed bytes) }
{
    let mut text = Vec::new(alloc);
    let mut at = 0;
    while at < rest.len() {
        match front_of(&rest[at..]) {
            Front::Quote => return Ok(Some(Closed {
                bytes: at + 1,
                text,
            })),
            Front::Stands(bytes, byte) => {
                text.push(byte)?;
                at += bytes;
            }
            Front::Foreign => return Ok(None),
        }
    }
    Ok(None)
}

/// What the rest of a string begins with.
fn front_of(rest: &[u8]) -> Front
    requires { 0 < length rest.now }
    ensures { result ≡ front_at (slice_index rest.now 0) (slice_index rest.now 1) }
{
    match rest[0] {
        b'"' => Front::Quote,
        b'\\' => pair_of(rest),
        b' '..=b'~' => Front::Stands(1, rest[0]),
        _ => Front::Foreign,
    }
}

/// The pair of a backslash and the second byte.
fn pair_of(rest: &[u8]) -> Front
    ensures { result ≡ pair_at (slice_index rest.now 1) }
{
    if rest.len() < 2 {
        return Front::Foreign;
    }
    match rest[1] {
        b'n' => Front::Stands(2, b'\n'),
        b't' => Front::Stands(2, b'\t'),
        b'\\' => Front::Stands(2, b'\\'),
        b'"' => Front::Stands(2, b'"'),
        _ => Front::Foreign,
    }
}
