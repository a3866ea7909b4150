ghost use Rattle.std.specs.Prelude.{◌≡◌, ◌<◌, ◌^◌, pos, ◌+ℤ◌, ◌-ℤ◌, ◌*ℤ◌, false, IfOk, int_div, int_rem};
ghost use Rattle.std.specs.Int.{int_shr, int_bit_and, int_bit_or, int_bit_xor};
ghost use Rattle.sk_base.specs.Arithmetic.{width_of, InRange, wrapped, divided, places_of, flag, op_of, is_shift};

use crate::number::{Cell, Op, Trap, Ty};

/// The number in the type's range that differs from `x` by a multiple of 2^width.
pub fn wrap(ty: Ty, x: i128) -> Cell
    ensures { result ≡ wrapped ty x }
{
    let low = (x & 0xffff_ffff_ffff_ffff) as u64;
    convert(ty, low.cast_signed())
}

/// A cell of either type as a value of `ty`: for `int` its low 32 bits with their sign, for `long` the cell itself.
#[inline]
pub fn convert(ty: Ty, x: Cell) -> Cell
    ensures { result ≡ wrapped ty x }
{
    match ty {
        Ty::Int => x << 32 >> 32,
        Ty::Long => x,
    }
}

/// The value of `a op b` in the type's arithmetic, or `Divide` where a divisor is 0.
///
/// The left operand is of type `ty`, and so is the right one, unless it is a shift's count, which may be of either type.
pub fn binary(op: Op, ty: Ty, a: Cell, b: Cell) -> Result<Cell, Trap>
    requires left { InRange ty a }
    requires right { is_shift op ≡ false → InRange ty b }
    ensures value { result ≡ op_of op ty a b }
    ensures range { IfOk result (λ c. InRange ty c) }
{
    match op {
        Op::Add => Ok(sum(ty, a, b)),
        Op::Sub => Ok(difference(ty, a, b)),
        Op::Mul => Ok(product(ty, a, b)),
        Op::Div => quotient(ty, a, b),
        Op::Rem => remainder(ty, a, b),
        Op::Shl => Ok(shifted_left(ty, a, b)),
        Op::Shr => Ok(shifted_right(ty, a, b)),
        Op::And => Ok(a & b),
        Op::Or => Ok(a | b),
        Op::Xor => Ok(a ^ b),
        Op::Lt => Ok(i64::from(a < b)),
        Op::Le => Ok(i64::from(a <= b)),
        Op::Gt => Ok(i64::from(a > b)),
        Op::Ge => Ok(i64::from(a >= b)),
        Op::Eq => Ok(i64::from(a == b)),
        Op::Ne => Ok(i64::from(a != b)),
    }
}

/// `a + b`, which wraps.
#[inline]
fn sum(ty: Ty, a: Cell, b: Cell) -> Cell
    ensures { result ≡ wrapped ty (a +ℤ b) }
{
    convert(ty, a.wrapping_add(b))
}

/// `a - b`, which wraps.
#[inline]
fn difference(ty: Ty, a: Cell, b: Cell) -> Cell
    ensures { result ≡ wrapped ty (a -ℤ b) }
{
    convert(ty, a.wrapping_sub(b))
}

/// `a * b`, which wraps.
#[inline]
fn product(ty: Ty, a: Cell, b: Cell) -> Cell
    ensures { result ≡ wrapped ty (a *ℤ b) }
{
    convert(ty, a.wrapping_mul(b))
}

/// `a / b`, rounded toward 0, or `Divide`. The least number over -1 does not fit, and wraps.
#[inline]
fn quotient(ty: Ty, a: Cell, b: Cell) -> Result<Cell, Trap>
    ensures { result ≡ divided int_div ty a b }
{
    if b == 0 {
        return Err(Trap::Divide);
    }
    Ok(convert(ty, a.wrapping_div(b)))
}

/// `a % b` with the sign of `a`, or `Divide`. It is no further from 0 than `a`, so it is in range.
#[inline]
fn remainder(ty: Ty, a: Cell, b: Cell) -> Result<Cell, Trap>
    requires { InRange ty a }
    ensures { result ≡ divided int_rem ty a b }
{
    if b == 0 {
        return Err(Trap::Divide);
    }
    Ok(a.wrapping_rem(b))
}

/// `a << count`, which wraps; the count goes modulo the width.
#[inline]
fn shifted_left(ty: Ty, a: Cell, count: Cell) -> Cell
    ensures { result ≡ wrapped ty (a *ℤ pos (2 ^ places_of ty count)) }
{
    convert(ty, a << places(ty, count))
}

/// `a >> count`, filled with copies of the sign; the count goes modulo the width.
#[inline]
fn shifted_right(ty: Ty, a: Cell, count: Cell) -> Cell
    ensures { result ≡ int_shr a (places_of ty count) }
{
    a >> places(ty, count)
}

/// A shift's count modulo the width: its low bits, also where it is negative.
#[inline]
fn places(ty: Ty, count: Cell) -> u32
    ensures value { result ≡ places_of ty count }
    ensures below { result < 64 }
{
    let mask = match ty {
        Ty::Int => 31,
        Ty::Long => 63,
    };
    (count & mask) as u32
}
