//! The operators on two cells. A quotient has some value at a divisor 0 too, which nobody asks for.
ghost use Rattle.std.specs.Prelude.{◌≡◌, ◌≢◌, ◌<◌, ◌^◌, ℕ, true, FitsSigned, pos, ◌+ℤ◌, ◌-ℤ◌, ◌*ℤ◌, neg_ℤ, int_div, int_rem};
ghost use Rattle.std.specs.Int.{w32, int_shr};
ghost use Rattle.sk_base.specs.Arithmetic.{InRange, wrapped, places_of};
ghost use Rattle.sk_base.specs.declared.number.Ty.TheVariants.{Int};

use sk_base::{Cell, Ty, convert};

/// `a + b`, which wraps.
#[inline]
pub fn sum(ty: Ty, a: Cell, b: Cell) -> Cell
    ensures { result ≡ wrapped ty (a +ℤ b) }
{
    convert(ty, a.wrapping_add(b))
}

/// `a - b`, which wraps.
#[inline]
pub fn difference(ty: Ty, a: Cell, b: Cell) -> Cell
    ensures { result ≡ wrapped ty (a -ℤ b) }
{
    convert(ty, a.wrapping_sub(b))
}

/// `a * b`, which wraps.
#[inline]
pub fn product(ty: Ty, a: Cell, b: Cell) -> Cell
    ensures { result ≡ wrapped ty (a *ℤ b) }
{
    convert(ty, a.wrapping_mul(b))
}

/// `-a`, which wraps.
#[inline]
pub fn negated(ty: Ty, a: Cell) -> Cell
    ensures { result ≡ wrapped ty (neg_ℤ a) }
{
    convert(ty, a.wrapping_neg())
}

/// `a / b`, rounded toward 0. The least number over -1 does not fit, and wraps.
#[inline]
pub fn quotient(ty: Ty, a: Cell, b: Cell) -> Cell
    ensures { b ≢ pos 0 → result ≡ wrapped ty (int_div a b) }
{
    if b == 0 { 0 } else { quotient_by(ty, a, b) }
}

/// `a % b` with the sign of `a`.
#[inline]
pub fn remainder(ty: Ty, a: Cell, b: Cell) -> Cell
    ensures { b ≢ pos 0 → result ≡ wrapped ty (int_rem a b) }
{
    if b == 0 { 0 } else { remainder_by(ty, a, b) }
}

/// `a << count`, which wraps; the count goes modulo the width.
#[inline]
pub fn shifted_left(ty: Ty, a: Cell, count: Cell) -> Cell
    ensures { result ≡ wrapped ty (a *ℤ pos (2 ^ places_of ty count)) }
{
    convert(ty, a << places(ty, count))
}

/// `a >> count`, filled with copies of the sign; the count goes modulo the width.
#[inline]
pub fn shifted_right(ty: Ty, a: Cell, count: Cell) -> Cell
    ensures { result ≡ int_shr a (places_of ty count) }
{
    a >> places(ty, count)
}

/// A shift's count modulo the width: its low bits, also where it is negative.
#[inline]
fn places(ty: Ty, count: Cell) -> u32
    ensures value { result ≡ places_of ty count }
    ensures below { result < 64 }
{
    let mask = match ty {
        Ty::Int => 31,
        Ty::Long => 63,
    };
    (count & mask) as u32
}

/// Whether a cell is a number of a type. Each is one of `long`.
#[inline]
pub fn is_of(ty: Ty, x: Cell) -> bool
    ensures { result ≡ true → InRange ty x }
{
    ty == Ty::Long || is_narrow(x)
}

/// Whether a cell lies in the range of 32 bits.
#[inline]
fn is_narrow(x: Cell) -> bool
    ensures { result ≡ true → FitsSigned w32 x }
{
    x >= -2_147_483_648 && x <= 2_147_483_647
}

/// A quotient, by a division of 32 bits where that does: it is several times faster than one of 64 bits.
#[inline]
fn quotient_by(ty: Ty, a: Cell, b: Cell) -> Cell
    requires { b ≢ pos 0 }
    ensures { result ≡ wrapped ty (int_div a b) }
{
    if ty == Ty::Int && is_narrow(a) && is_narrow(b) {
        narrow_quotient(a, b)
    } else {
        convert(ty, a.wrapping_div(b))
    }
}

/// A quotient of 32 bits.
#[inline]
fn narrow_quotient(a: Cell, b: Cell) -> Cell
    requires dividend { FitsSigned w32 a }
    requires divisor { FitsSigned w32 b }
    requires other { b ≢ pos 0 }
    ensures { result ≡ wrapped Int (int_div a b) }
{
    i64::from((a as i32).wrapping_div(b as i32))
}

/// A remainder, which is no further from 0 than the dividend; by a division of 32 bits where that does.
#[inline]
fn remainder_by(ty: Ty, a: Cell, b: Cell) -> Cell
    requires { b ≢ pos 0 }
    ensures { result ≡ wrapped ty (int_rem a b) }
{
    if is_narrow(a) && is_narrow(b) {
        narrow_remainder(ty, a, b)
    } else {
        convert(ty, a.wrapping_rem(b))
    }
}

/// A remainder of 32 bits, which is one of either type.
#[inline]
fn narrow_remainder(ty: Ty, a: Cell, b: Cell) -> Cell
    requires dividend { FitsSigned w32 a }
    requires divisor { FitsSigned w32 b }
    requires other { b ≢ pos 0 }
    ensures { result ≡ wrapped ty (int_rem a b) }
{
    convert(ty, i64::from((a as i32).wrapping_rem(b as i32)))
}
