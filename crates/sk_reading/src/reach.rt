/// How much of an expression is read.
#[derive(Clone, Copy, PartialEq, Eq, Debug)]
pub enum Reach {
    Whole,
    /// `+`, `-` and what binds tighter.
    Sum,
    /// The operand of a prefix.
    Operand,
}
