//! The operators on two cells. Each is a type of its own, so that each has loops of its own.
ghost use Rattle.std.specs.Prelude.{◌≡◌, ◌<◌, ℤ, Result, Ok};
ghost use Rattle.sk_base.specs.Arithmetic.{op_of, wrapped};
ghost use Rattle.sk_base.specs.declared.number.Op.TheVariants as op;
ghost use Rattle.sk_base.specs.declared.number.Trap.{Trap};
ghost use Rattle.sk_base.specs.declared.number.Ty.{Ty as Types};
ghost use Rattle.sk_base.specs.declared.number.Ty.TheVariants.{Int, Long};
ghost use Rattle.sk_columns.specs.Cells.{Takes, made_by};
ghost use Rattle.sk_columns.specs.declared.combine.Action.TheVariants as action;

use crate::arithmetic::{
    difference, negated, product, quotient, remainder, shifted_left, shifted_right, sum,
};
use sk_base::{Cell, Ty, convert};

/// A type, known where loops are made.
pub trait Width: Copy {
    ghost ty: { Types };

    /// The type.
    fn ty(self) -> Ty
        ensures { result ≡ ty };
}

#[derive(Clone, Copy)]
pub struct Ints;

#[derive(Clone, Copy)]
pub struct Longs;

impl Width for Ints {
    ghost ty = { Int };

    #[inline]
    fn ty(self) -> Ty {
        Ty::Int
    }
}

impl Width for Longs {
    ghost ty = { Long };

    #[inline]
    fn ty(self) -> Ty {
        Ty::Long
    }
}

/// What is made of two cells that stand at one place.
pub trait Cellwise {
    /// The value for them, or its trap.
    ghost makes: { ℤ → ℤ → Result ℤ Trap };

    /// For which of them it is evaluated.
    ghost takes: { ℤ → ℤ → Type 0 };

    /// The value.
    fn of(&self, a: Cell, b: Cell) -> Cell
        ensures { takes a b → makes a b ≡ Ok result };
}

/// `a + b`
#[derive(Drop)]
pub struct Add<W>(pub W);

impl<W: Width> Cellwise for Add<W> {
    ghost makes = { op_of op.Add W.ty };

    ghost takes = { Takes op.Add W.ty };

    #[inline]
    fn of(&self, a: Cell, b: Cell) -> Cell {
        sum(self.0.ty(), a, b)
    }
}

/// `a - b`
#[derive(Drop)]
pub struct Sub<W>(pub W);

impl<W: Width> Cellwise for Sub<W> {
    ghost makes = { op_of op.Sub W.ty };

    ghost takes = { Takes op.Sub W.ty };

    #[inline]
    fn of(&self, a: Cell, b: Cell) -> Cell {
        difference(self.0.ty(), a, b)
    }
}

/// `a * b`
#[derive(Drop)]
pub struct Mul<W>(pub W);

impl<W: Width> Cellwise for Mul<W> {
    ghost makes = { op_of op.Mul W.ty };

    ghost takes = { Takes op.Mul W.ty };

    #[inline]
    fn of(&self, a: Cell, b: Cell) -> Cell {
        product(self.0.ty(), a, b)
    }
}

/// `a / b`
#[derive(Drop)]
pub struct Div<W>(pub W);

impl<W: Width> Cellwise for Div<W> {
    ghost makes = { op_of op.Div W.ty };

    ghost takes = { Takes op.Div W.ty };

    #[inline]
    fn of(&self, a: Cell, b: Cell) -> Cell {
        quotient(self.0.ty(), a, b)
    }
}

/// `a % b`
#[derive(Drop)]
pub struct Rem<W>(pub W);

impl<W: Width> Cellwise for Rem<W> {
    ghost makes = { op_of op.Rem W.ty };

    ghost takes = { Takes op.Rem W.ty };

    #[inline]
    fn of(&self, a: Cell, b: Cell) -> Cell {
        remainder(self.0.ty(), a, b)
    }
}

/// `a << b`
#[derive(Drop)]
pub struct Shl<W>(pub W);

impl<W: Width> Cellwise for Shl<W> {
    ghost makes = { op_of op.Shl W.ty };

    ghost takes = { Takes op.Shl W.ty };

    #[inline]
    fn of(&self, a: Cell, b: Cell) -> Cell {
        shifted_left(self.0.ty(), a, b)
    }
}

/// `a >> b`
#[derive(Drop)]
pub struct Shr<W>(pub W);

impl<W: Width> Cellwise for Shr<W> {
    ghost makes = { op_of op.Shr W.ty };

    ghost takes = { Takes op.Shr W.ty };

    #[inline]
    fn of(&self, a: Cell, b: Cell) -> Cell {
        shifted_right(self.0.ty(), a, b)
    }
}

/// `a & b`
#[derive(Drop)]
pub struct And<W>(pub W);

impl<W: Width> Cellwise for And<W> {
    ghost makes = { op_of op.And W.ty };

    ghost takes = { Takes op.And W.ty };

    #[inline]
    fn of(&self, a: Cell, b: Cell) -> Cell {
        a & b
    }
}

/// `a | b`
#[derive(Drop)]
pub struct Or<W>(pub W);

impl<W: Width> Cellwise for Or<W> {
    ghost makes = { op_of op.Or W.ty };

    ghost takes = { Takes op.Or W.ty };

    #[inline]
    fn of(&self, a: Cell, b: Cell) -> Cell {
        a | b
    }
}

/// `a ^ b`
#[derive(Drop)]
pub struct Xor<W>(pub W);

impl<W: Width> Cellwise for Xor<W> {
    ghost makes = { op_of op.Xor W.ty };

    ghost takes = { Takes op.Xor W.ty };

    #[inline]
    fn of(&self, a: Cell, b: Cell) -> Cell {
        a ^ b
    }
}

/// `a < b`
#[derive(Drop)]
pub struct Lt;

impl Cellwise for Lt {
    ghost makes = { op_of op.Lt Long };

    ghost takes = { Takes op.Lt Long };

    #[inline]
    fn of(&self, a: Cell, b: Cell) -> Cell {
        i64::from(a < b)
    }
}

/// `a <= b`
#[derive(Drop)]
pub struct Le;

impl Cellwise for Le {
    ghost makes = { op_of op.Le Long };

    ghost takes = { Takes op.Le Long };

    #[inline]
    fn of(&self, a: Cell, b: Cell) -> Cell {
        i64::from(a <= b)
    }
}

/// `a > b`
#[derive(Drop)]
pub struct Gt;

impl Cellwise for Gt {
    ghost makes = { op_of op.Gt Long };

    ghost takes = { Takes op.Gt Long };

    #[inline]
    fn of(&self, a: Cell, b: Cell) -> Cell {
        i64::from(a > b)
    }
}

/// `a >= b`
#[derive(Drop)]
pub struct Ge;

impl Cellwise for Ge {
    ghost makes = { op_of op.Ge Long };

    ghost takes = { Takes op.Ge Long };

    #[inline]
    fn of(&self, a: Cell, b: Cell) -> Cell {
        i64::from(a >= b)
    }
}

/// `a == b`
#[derive(Drop)]
pub struct Eq;

impl Cellwise for Eq {
    ghost makes = { op_of op.Eq Long };

    ghost takes = { Takes op.Eq Long };

    #[inline]
    fn of(&self, a: Cell, b: Cell) -> Cell {
        i64::from(a == b)
    }
}

/// `a != b`
#[derive(Drop)]
pub struct Ne;

impl Cellwise for Ne {
    ghost makes = { op_of op.Ne Long };

    ghost takes = { Takes op.Ne Long };

    #[inline]
    fn of(&self, a: Cell, b: Cell) -> Cell {
        i64::from(a != b)
    }
}

/// `-a`
#[derive(Drop)]
pub struct Negate<W>(pub W);

impl<W: Width> Cellwise for Negate<W> {
    ghost makes = { made_by (action.Negate W.ty) };

    ghost takes = { λ a b. Unit {0} };

    #[inline]
    fn of(&self, a: Cell, _b: Cell) -> Cell {
        negated(self.0.ty(), a)
    }
}

/// `~a`
#[derive(Drop)]
pub struct Invert;

impl Cellwise for Invert {
    ghost makes = { made_by action.Invert };

    ghost takes = { λ a b. Unit {0} };

    #[inline]
    fn of(&self, a: Cell, _b: Cell) -> Cell {
        -1 - a
    }
}

/// `!a`
#[derive(Drop)]
pub struct Deny;

impl Cellwise for Deny {
    ghost makes = { made_by action.Deny };

    ghost takes = { λ a b. Unit {0} };

    #[inline]
    fn of(&self, a: Cell, _b: Cell) -> Cell {
        i64::from(a == 0)
    }
}

/// A cell as an `int`.
#[derive(Drop)]
pub struct Wrap;

impl Cellwise for Wrap {
    ghost makes = { made_by action.Wrap };

    ghost takes = { λ a b. Unit {0} };

    #[inline]
    fn of(&self, a: Cell, _b: Cell) -> Cell {
        convert(Ty::Int, a)
    }
}
