/// An integer type of the language, in two's complement.
#[derive(Clone, Copy, PartialEq, Eq, Debug)]
pub enum Ty {
    /// `int`, of 32 bits.
    Int,
    /// `long`, of 64 bits.
    Long,
}

/// A value of either type; one of type `int` lies in the range of 32 bits.
pub type Cell = i64;

/// A binary operator.
#[derive(Clone, Copy, PartialEq, Eq, Debug)]
pub enum Op {
    Add,
    Sub,
    Mul,
    Div,
    Rem,
    Shl,
    Shr,
    And,
    Or,
    Xor,
    Lt,
    Le,
    Gt,
    Ge,
    Eq,
    Ne,
}

/// Why a run stops before its end.
#[derive(Clone, Copy, PartialEq, Eq, Debug)]
pub enum Trap {
    /// A divisor is 0.
    Divide,
    /// A place lies outside a container, a proxy or an overlap.
    Index,
    /// One invocation would begin its 65,537th turn of a loop.
    Turns,
    /// Sizes are unequal, negative or too large, or an overlap is negative or above 65,536.
    Shape,
    /// A fold of nothing without a start value.
    Empty,
}
