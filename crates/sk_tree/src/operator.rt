ghost use Rattle.std.specs.Prelude.{◌≡◌, Ok, IsOk};
ghost use Rattle.sk_base.specs.Arithmetic.{InRange, op_of};
ghost use Rattle.sk_tree.specs.Operators.{operator_value};

use sk_base::{Cell, Op, Ty, binary};

/// An associative operator of two numbers.
#[derive(Clone, Copy, PartialEq, Eq, Debug)]
pub enum OperatorKind {
    Add,
    Mul,
    And,
    Or,
    Xor,
    Min,
    Max,
    /// The left number.
    First,
    /// The right number.
    Last,
}

/// An associative operator on the numbers of a type.
#[derive(Clone, Copy, PartialEq, Eq, Debug)]
pub struct Operator {
    pub kind: OperatorKind,
    pub ty: Ty,
}

impl Operator {
    /// The operator's value for two numbers of its type. Sums and products wrap.
    pub fn apply(&self, a: Cell, b: Cell) -> Cell
        requires left { InRange self.now.ty a }
        requires right { InRange self.now.ty b }
        ensures value { result ≡ operator_value self.now a b }
        ensures range { InRange self.now.ty result }
    {
        match self.kind {
            OperatorKind::Add => total(Op::Add, self.ty, a, b),
            OperatorKind::Mul => total(Op::Mul, self.ty, a, b),
            OperatorKind::And => total(Op::And, self.ty, a, b),
            OperatorKind::Or => total(Op::Or, self.ty, a, b),
            OperatorKind::Xor => total(Op::Xor, self.ty, a, b),
            OperatorKind::Min => if a < b { a } else { b },
            OperatorKind::Max => if b < a { a } else { b },
            OperatorKind::First => a,
            OperatorKind::Last => b,
        }
    }
}

/// The value of an operator of the language where it does not trap.
fn total(op: Op, ty: Ty, a: Cell, b: Cell) -> Cell
    requires left { InRange ty a }
    requires right { InRange ty b }
    requires total { IsOk (op_of op ty a b) }
    ensures value { op_of op ty a b ≡ Ok result }
    ensures range { InRange ty result }
{
    match binary(op, ty, a, b) {
        Ok(value) => value,
        Err(_) => unreachable!(),
    }
}
