//! Quotients and remainders of ints by one number: a product and a shift in place of each division.
ghost use Rattle.std.specs.Prelude.{◌≡◌, ◌≢◌, ℕ, ◌<◌, ◌≤◌, ◌^◌, ◌/◌, ◌%◌, FitsSigned, length, pos, true, Ok, slice_index_or};
ghost use Rattle.std.specs.Int.{w32};
ghost use Rattle.sk_base.specs.Arithmetic.{op_of};
ghost use Rattle.sk_base.specs.declared.number.Op.TheVariants.{Div as Over, Rem as Rest};
ghost use Rattle.sk_base.specs.declared.number.Ty.TheVariants.{Int};
ghost use Rattle.sk_columns.specs.Scales.{Scales};

use crate::loops::{are_of, in_place_by};
use crate::operators::{Div, Ints, Rem};
use sk_base::{Cell, Ty};

/// Divides the cells of a row by a number. It fails where that is 0.
pub fn divide(to: &mut [Cell], divisor: Cell) -> bool
    ensures { result ≡ true → (place : ℕ) → place < length to.old
        → op_of Over Int (slice_index_or to.old place (pos 0)) divisor ≡ Ok (slice_index_or to.new place (pos 0)) }
{
    if divisor == 0 {
        return false;
    }
    if divisor >= 2 && divisor <= 2_147_483_648 && are_of(Ty::Int, to) {
        scale_all(scale_of(divisor as u64), to);
    } else {
        in_place_by(&Div(Ints), to, divisor);
    }
    true
}

/// Puts the remainders of the cells of a row by a number in their places. It fails where that is 0.
pub fn remain(to: &mut [Cell], divisor: Cell) -> bool
    ensures { result ≡ true → (place : ℕ) → place < length to.old
        → op_of Rest Int (slice_index_or to.old place (pos 0)) divisor ≡ Ok (slice_index_or to.new place (pos 0)) }
{
    if divisor == 0 {
        return false;
    }
    if divisor >= 2 && divisor <= 2_147_483_648 && are_of(Ty::Int, to) {
        rest_all(scale_of(divisor as u64), to);
    } else {
        in_place_by(&Rem(Ints), to, divisor);
    }
    true
}

/// What stands for a division of numbers up to 2^31 by a divisor.
#[derive(Clone, Copy)]
struct Scale {
    divisor: u64,
    multiplier: u32,
    places: u32,
}

/// The multiplier is a power of two over the divisor, rounded up; the least power from 2^31 times the divisor on will do.
fn scale_of(divisor: u64) -> Scale
    requires low { 2 ≤ divisor }
    requires high { divisor ≤ 2 ^ 31 }
    ensures divisor { result.divisor ≡ divisor }
    ensures scales { Scales divisor result.multiplier result.places }
{
    let mut power = 1;
    let mut places = 31;
    while power < divisor && places < 63 {
        power *= 2;
        places += 1;
    }
    let multiplier = (power * 2_147_483_648 + divisor - 1) / divisor;
    Scale {
        divisor,
        multiplier: multiplier as u32,
        places,
    }
}

/// Divides ints.
fn scale_all(scale: Scale, to: &mut [Cell])
    requires scales { Scales scale.divisor scale.multiplier scale.places }
    requires narrow { (place : ℕ) → place < length to.old → FitsSigned w32 (slice_index_or to.old place (pos 0)) }
    ensures { (place : ℕ) → place < length to.old
        → op_of Over Int (slice_index_or to.old place (pos 0)) (pos scale.divisor) ≡ Ok (slice_index_or to.new place (pos 0)) }
{
    for k in 0..to.len() {
        to[k] = scaled(scale, to[k]);
    }
}

/// Divides an int. A quotient by a number from 2 on fits.
#[inline]
fn scaled(scale: Scale, a: Cell) -> Cell
    requires scales { Scales scale.divisor scale.multiplier scale.places }
    requires narrow { FitsSigned w32 a }
    ensures { op_of Over Int a (pos scale.divisor) ≡ Ok result }
{
    let quotient = part(scale, a.unsigned_abs()) as i64;
    if a < 0 { -quotient } else { quotient }
}

/// Puts the remainders of ints in their places.
fn rest_all(scale: Scale, to: &mut [Cell])
    requires scales { Scales scale.divisor scale.multiplier scale.places }
    requires narrow { (place : ℕ) → place < length to.old → FitsSigned w32 (slice_index_or to.old place (pos 0)) }
    ensures { (place : ℕ) → place < length to.old
        → op_of Rest Int (slice_index_or to.old place (pos 0)) (pos scale.divisor) ≡ Ok (slice_index_or to.new place (pos 0)) }
{
    for k in 0..to.len() {
        to[k] = rest(scale, to[k]);
    }
}

/// The remainder of an int, which has its sign.
#[inline]
fn rest(scale: Scale, a: Cell) -> Cell
    requires scales { Scales scale.divisor scale.multiplier scale.places }
    requires narrow { FitsSigned w32 a }
    ensures { op_of Rest Int a (pos scale.divisor) ≡ Ok result }
{
    let left = size_left(scale, a.unsigned_abs()) as i64;
    if a < 0 { -left } else { left }
}

/// The remainder of a number up to 2^31.
#[inline]
fn size_left(scale: Scale, size: u64) -> u64
    requires scales { Scales scale.divisor scale.multiplier scale.places }
    requires narrow { size ≤ 2 ^ 31 }
    ensures value { result ≡ size % scale.divisor }
    ensures small { result ≤ 2 ^ 31 }
{
    size - part(scale, size) * scale.divisor
}

/// The quotient of a number up to 2^31: of a product of two numbers of 32 bits, which is faster than others.
#[inline]
fn part(scale: Scale, size: u64) -> u64
    requires scales { Scales scale.divisor scale.multiplier scale.places }
    requires narrow { size ≤ 2 ^ 31 }
    ensures { result ≡ size / scale.divisor }
{
    let size = size as u32;
    (u64::from(size) * u64::from(scale.multiplier)) >> scale.places
}
