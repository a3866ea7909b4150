/// A reserved word.
#[derive(Clone, Copy, PartialEq, Eq, Debug)]
pub enum Keyword {
    Int,
    Long,
    Auto,
    Const,
    If,
    Else,
    For,
    Return,
    Skepu,
    Std,
    SkepuInput,
}
