use crate::keyword::Keyword;
use sk_tokens::Sign;

/// What the next token is, apart from what it holds.
#[derive(Clone, Copy, PartialEq, Eq, Debug)]
pub enum Next {
    Keyword(Keyword),
    Name,
    Number,
    Text,
    Sign(Sign),
    End,
}
