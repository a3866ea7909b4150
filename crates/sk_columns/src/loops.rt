//! An operator on all cells of a row. The value goes into the row of the left operand.
ghost use Rattle.std.specs.Prelude.{◌≡◌, ◌≢◌, if◌then◌else◌, ℕ, ◌<◌, ◌+◌, length, pos, Ok, true, false, slice_index_or};
ghost use Rattle.sk_base.specs.Arithmetic.{InRange};
ghost use Rattle.sk_meaning.specs.Expressions.{holds};

use crate::arithmetic::is_of;
use crate::operators::Cellwise;
use sk_base::{Cell, Ty};

/// A row with a row.
pub fn in_place<F: Cellwise>(f: &F, to: &mut [Cell], right: &[Cell])
    requires { length to.old ≡ length right.now }
    ensures { (place : ℕ) → place < length to.old
        → F.takes (slice_index_or to.old place (pos 0)) (slice_index_or right.now place (pos 0))
        → F.makes (slice_index_or to.old place (pos 0)) (slice_index_or right.now place (pos 0)) ≡ Ok (slice_index_or to.new place (pos 0)) }
{
    for k in 0..to.len() {
        to[k] = f.of(to[k], right[k]);
    }
}

/// A row with a number.
pub fn in_place_by<F: Cellwise>(f: &F, to: &mut [Cell], right: Cell)
    ensures { (place : ℕ) → place < length to.old
        → F.takes (slice_index_or to.old place (pos 0)) right
        → F.makes (slice_index_or to.old place (pos 0)) right ≡ Ok (slice_index_or to.new place (pos 0)) }
{
    for k in 0..to.len() {
        to[k] = f.of(to[k], right);
    }
}

/// A column with a row.
pub fn onto<F: Cellwise>(f: &F, to: &mut [Cell], left: &[Cell], right: &[Cell])
    requires left { length to.old ≡ length left.now }
    requires right { length to.old ≡ length right.now }
    ensures { (place : ℕ) → place < length to.old
        → F.takes (slice_index_or left.now place (pos 0)) (slice_index_or right.now place (pos 0))
        → F.makes (slice_index_or left.now place (pos 0)) (slice_index_or right.now place (pos 0)) ≡ Ok (slice_index_or to.new place (pos 0)) }
{
    for k in 0..to.len() {
        to[k] = f.of(left[k], right[k]);
    }
}

/// A column with a number.
pub fn onto_by<F: Cellwise>(f: &F, to: &mut [Cell], left: &[Cell], right: Cell)
    requires { length to.old ≡ length left.now }
    ensures { (place : ℕ) → place < length to.old
        → F.takes (slice_index_or left.now place (pos 0)) right
        → F.makes (slice_index_or left.now place (pos 0)) right ≡ Ok (slice_index_or to.new place (pos 0)) }
{
    for k in 0..to.len() {
        to[k] = f.of(left[k], right);
    }
}

/// Puts into each cell that of one of two rows: of the first one where the cell is another number than 0.
pub fn select(to: &mut [Cell], one: &[Cell], two: &[Cell])
    requires one { length to.old ≡ length one.now }
    requires two { length to.old ≡ length two.now }
    ensures { (place : ℕ) → place < length to.old
        → slice_index_or to.new place (pos 0) ≡ (if holds (slice_index_or to.old place (pos 0)) then slice_index_or one.now place (pos 0) else slice_index_or two.now place (pos 0)) }
{
    for k in 0..to.len() {
        to[k] = selected(to[k], one[k], two[k]);
    }
}

/// One of two numbers, as a test tells.
#[inline]
fn selected(test: Cell, one: Cell, two: Cell) -> Cell
    ensures { result ≡ (if holds test then one else two) }
{
    if test == 0 { two } else { one }
}

/// One number in all cells.
pub fn fill(to: &mut [Cell], number: Cell)
    ensures { (place : ℕ) → place < length to.old → slice_index_or to.new place (pos 0) ≡ number }
{
    for k in 0..to.len() {
        to[k] = number;
    }
}

/// Consecutive numbers in the cells. It fails where one of them is too large.
pub fn count(from: u32, to: &mut [Cell]) -> bool
    ensures { result ≡ true → (place : ℕ) → place < length to.old → slice_index_or to.new place (pos 0) ≡ pos (from + place) }
{
    if to.len() > (u32::MAX - from) as usize {
        return false;
    }
    for k in 0..to.len() {
        to[k] = Cell::from(from + k as u32);
    }
    true
}

/// Whether some cell is 0.
pub fn has_zero(row: &[Cell]) -> bool
    ensures { result ≡ false → (place : ℕ) → place < length row.now → slice_index_or row.now place (pos 0) ≢ pos 0 }
{
    let mut found = false;
    for k in 0..row.len() {
        found |= row[k] == 0;
    }
    found
}

/// Whether all cells are numbers of a type.
pub fn are_of(ty: Ty, row: &[Cell]) -> bool
    ensures { result ≡ true → (place : ℕ) → place < length row.now → InRange ty (slice_index_or row.now place (pos 0)) }
{
    let mut all = true;
    for k in 0..row.len() {
        all &= is_of(ty, row[k]);
    }
    all
}
