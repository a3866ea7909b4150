ghost use Rattle.std.specs.Prelude.{◌≡◌, ◌≢◌, [], ◌∷◌, false, slice_index, length, ◌<◌};
ghost use Rattle.sk_names.specs.Bytes.{is_letter, is_digit};
ghost use Rattle.sk_tokens.specs.Lexemes.{sign_of};
ghost use Rattle.sk_tokens.specs.Tokens.{token_at};
ghost use Rattle.sk_lexer.specs.Pieces.{piece_of};
ghost use Rattle.sk_token_laws.specs.Fronts.{front_sign};

use crate::piece::{Flaw, Piece};
use sk_tokens::{Sign, TokenKind};

/// The longest sign at the front of the rest, whose first byte begins no word, number or string.
pub fn sign(rest: &[u8]) -> Piece
    requires some { 0 < length rest.now }
    requires no_word { is_letter (slice_index rest.now 0) ≡ false }
    requires no_number { is_digit (slice_index rest.now 0) ≡ false }
    requires no_string { slice_index rest.now 0 ≢ 34 }
    ensures { piece_of result ≡ token_at rest.now }
{
    if let Some(sign) = first_three(rest) {
        return Piece::Found(3, TokenKind::Sign(sign));
    }
    if let Some(sign) = first_two(rest) {
        return Piece::Found(2, TokenKind::Sign(sign));
    }
    match of_one(rest[0]) {
        Some(sign) => Piece::Found(1, TokenKind::Sign(sign)),
        None => Piece::Faulty(Flaw::NoToken),
    }
}

/// The sign of the first three bytes.
fn first_three(rest: &[u8]) -> Option<Sign>
    ensures { result ≡ front_sign 3 rest.now }
{
    if rest.len() > 2 {
        of_three(rest[0], rest[1], rest[2])
    } else {
        None
    }
}

/// The sign of the first two bytes.
fn first_two(rest: &[u8]) -> Option<Sign>
    ensures { result ≡ front_sign 2 rest.now }
{
    if rest.len() > 1 {
        of_two(rest[0], rest[1])
    } else {
        None
    }
}

/// The sign of three bytes.
#[tactic(auto, unfolding(sk_tokens::specs::Lexemes::sign_of, sk_tokens::specs::Lexemes::signs))]
fn of_three(first: u8, second: u8, third: u8) -> Option<Sign>
    ensures { result ≡ sign_of (first ∷ second ∷ third ∷ []) }
{
    if second != first || third != b'=' {
        return None;
    }
    match first {
        b'<' => Some(Sign::ShlEq),
        b'>' => Some(Sign::ShrEq),
        _ => None,
    }
}

/// The sign of two bytes.
fn of_two(first: u8, second: u8) -> Option<Sign>
    ensures { result ≡ sign_of (first ∷ second ∷ []) }
{
    if second == b'=' {
        before_equals(first)
    } else if second == first {
        doubled(first)
    } else {
        None
    }
}

/// The sign of a byte and `=`.
#[tactic(auto, unfolding(sk_tokens::specs::Lexemes::sign_of, sk_tokens::specs::Lexemes::signs))]
fn before_equals(first: u8) -> Option<Sign>
    ensures { result ≡ sign_of (first ∷ 61 ∷ []) }
{
    match first {
        b'<' => Some(Sign::Le),
        b'>' => Some(Sign::Ge),
        b'=' => Some(Sign::EqEq),
        b'!' => Some(Sign::Ne),
        b'+' => Some(Sign::PlusEq),
        b'-' => Some(Sign::MinusEq),
        b'*' => Some(Sign::StarEq),
        b'/' => Some(Sign::SlashEq),
        b'%' => Some(Sign::PercentEq),
        b'&' => Some(Sign::AndEq),
        b'|' => Some(Sign::OrEq),
        b'^' => Some(Sign::CaretEq),
        _ => None,
    }
}

/// The sign of a byte twice.
#[tactic(auto, unfolding(sk_tokens::specs::Lexemes::sign_of, sk_tokens::specs::Lexemes::signs))]
fn doubled(byte: u8) -> Option<Sign>
    ensures { result ≡ sign_of (byte ∷ byte ∷ []) }
{
    match byte {
        b':' => Some(Sign::Path),
        b'<' => Some(Sign::Shl),
        b'>' => Some(Sign::Shr),
        b'=' => Some(Sign::EqEq),
        b'&' => Some(Sign::AndAnd),
        b'|' => Some(Sign::OrOr),
        b'+' => Some(Sign::PlusPlus),
        b'-' => Some(Sign::MinusMinus),
        _ => None,
    }
}

/// The sign of one byte.
#[tactic(auto, unfolding(sk_tokens::specs::Lexemes::sign_of, sk_tokens::specs::Lexemes::signs))]
fn of_one(byte: u8) -> Option<Sign>
    ensures { result ≡ sign_of (byte ∷ []) }
{
    match byte {
        b'+' => Some(Sign::Plus),
        b'-' => Some(Sign::Minus),
        b'*' => Some(Sign::Star),
        b'/' => Some(Sign::Slash),
        b'%' => Some(Sign::Percent),
        b'&' => Some(Sign::And),
        b'|' => Some(Sign::Or),
        b'^' => Some(Sign::Caret),
        b'~' => Some(Sign::Tilde),
        b'!' => Some(Sign::Not),
        b'<' => Some(Sign::Lt),
        b'>' => Some(Sign::Gt),
        b'=' => Some(Sign::Eq),
        b'?' => Some(Sign::Question),
        b':' => Some(Sign::Colon),
        b'(' => Some(Sign::OpenParen),
        b')' => Some(Sign::CloseParen),
        b'[' => Some(Sign::OpenBracket),
        b']' => Some(Sign::CloseBracket),
        b'{' => Some(Sign::OpenBrace),
        b'}' => Some(Sign::CloseBrace),
        b',' => Some(Sign::Comma),
        b';' => Some(Sign::Semi),
        b'.' => Some(Sign::Dot),
        _ => None,
    }
}
