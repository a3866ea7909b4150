use sk_base::{Cell, Ty};
use sk_names::{Name, Text};

/// An operator or a mark of punctuation.
#[derive(Clone, Copy, PartialEq, Eq, Debug)]
pub enum Sign {
    /// `<<=`
    ShlEq,
    /// `>>=`
    ShrEq,
    /// `::`
    Path,
    /// `<<`
    Shl,
    /// `>>`
    Shr,
    /// `<=`
    Le,
    /// `>=`
    Ge,
    /// `==`
    EqEq,
    /// `!=`
    Ne,
    /// `&&`
    AndAnd,
    /// `||`
    OrOr,
    /// `+=`
    PlusEq,
    /// `-=`
    MinusEq,
    /// `*=`
    StarEq,
    /// `/=`
    SlashEq,
    /// `%=`
    PercentEq,
    /// `&=`
    AndEq,
    /// `|=`
    OrEq,
    /// `^=`
    CaretEq,
    /// `++`
    PlusPlus,
    /// `--`
    MinusMinus,
    /// `+`
    Plus,
    /// `-`
    Minus,
    /// `*`
    Star,
    /// `/`
    Slash,
    /// `%`
    Percent,
    /// `&`
    And,
    /// `|`
    Or,
    /// `^`
    Caret,
    /// `~`
    Tilde,
    /// `!`
    Not,
    /// `<`
    Lt,
    /// `>`
    Gt,
    /// `=`
    Eq,
    /// `?`
    Question,
    /// `:`
    Colon,
    /// `(`
    OpenParen,
    /// `)`
    CloseParen,
    /// `[`
    OpenBracket,
    /// `]`
    CloseBracket,
    /// `{`
    OpenBrace,
    /// `}`
    CloseBrace,
    /// `,`
    Comma,
    /// `;`
    Semi,
    /// `.`
    Dot,
}

/// What a token is, wherever it stands.
#[derive(Debug, Drop)]
pub enum TokenKind {
    /// A name or a reserved word.
    Word(Name),
    /// A number and its type; it is not negative.
    Number(Ty, Cell),
    /// A string.
    Text(Text),
    Sign(Sign),
}

/// A token and the line on which it begins, counted from 1.
#[derive(Debug, Drop)]
pub struct Token {
    pub what: TokenKind,
    pub line: u32,
}
