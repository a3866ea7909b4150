ghost use Rattle.std.specs.Prelude.{◌≡◌};
ghost use Rattle.sk_reading.specs.Reading as spec;
ghost use Rattle.sk_reading.specs.ReadingExpressions as expressions;

use crate::keyword::keyword_of;
use crate::same::{same_keyword, same_sign};
use sk_reading::{Keyword, Next};
use sk_tokens::{Sign, Token, TokenKind};

/// Whether a token is this sign.
pub fn is_sign(next: Next, sign: Sign) -> bool
    ensures { result ≡ spec.is_sign sign next }
{
    match next {
        Next::Sign(other) => same_sign(other, sign),
        _ => false,
    }
}

/// Whether a token is a type: `int` or `long`.
pub fn is_type(next: Next) -> bool
    ensures { result ≡ expressions.is_type next }
{
    matches!(next, Next::Keyword(Keyword::Int | Keyword::Long))
}

/// Whether an expression may begin with a token.
pub fn begins_expression(next: Next) -> bool
    ensures { result ≡ expressions.begins_expression next }
{
    matches!(
        next,
        Next::Number
            | Next::Name
            | Next::Sign(Sign::OpenParen | Sign::Minus | Sign::Tilde | Sign::Not)
    )
}

/// Whether a token is this reserved word.
pub fn is_keyword(next: Next, keyword: Keyword) -> bool
    ensures { result ≡ spec.is_keyword keyword next }
{
    match next {
        Next::Keyword(other) => same_keyword(other, keyword),
        _ => false,
    }
}

/// What a token is, apart from what it holds: a word is a reserved one or a name.
pub fn next_of(token: &Token) -> Next
    ensures { result ≡ spec.next_of token.now }
{
    match &token.what {
        TokenKind::Word(word) => match keyword_of(word.as_bytes()) {
            Some(keyword) => Next::Keyword(keyword),
            None => Next::Name,
        },
        TokenKind::Number(_, _) => Next::Number,
        TokenKind::Text(_) => Next::Text,
        TokenKind::Sign(sign) => Next::Sign(*sign),
    }
}
