//! An operator on two levels, whatever they are.
ghost use Rattle.std.specs.Prelude.{◌≡◌, ℕ, ◌<◌, length, pos, Ok, true, slice_index_or};
ghost use Rattle.sk_columns.specs.Cells.{cell_of};

use crate::lanes::Lanes;
use crate::level::Level;
use crate::loops::{fill, in_place, in_place_by, onto, onto_by};
use crate::operators::Cellwise;
use sk_base::Cell;

/// Puts the operator's values for two levels into the row of the left one, where the rows above begin with that of the
/// right one. It fails where a column is not as long as the row.
pub fn apply<F: Cellwise, L: Lanes>(
    f: &F,
    lanes: &L,
    left: Level,
    right: Level,
    to: &mut [Cell],
    above: &[Cell],
) -> bool
    requires lends { L.lends lanes.now }
    ensures { result ≡ true → (place : ℕ) → place < length to.old
        → F.takes (cell_of left to.old place (L.known lanes.now place)) (cell_of right above.now place (L.known lanes.now place))
        → F.makes (cell_of left to.old place (L.known lanes.now place)) (cell_of right above.now place (L.known lanes.now place)) ≡ Ok (slice_index_or to.new place (pos 0)) }
{
    match right {
        Level::Number(number) => apply_number(f, lanes, left, number, to),
        Level::Column(slot) => apply_row(f, lanes, left, lanes.column(slot), to),
        Level::Here => {
            let block = to.len();
            above.len() >= block && apply_row(f, lanes, left, &above[..block], to)
        }
    }
}

/// The right operand is a number.
fn apply_number<F: Cellwise, L: Lanes>(
    f: &F,
    lanes: &L,
    left: Level,
    right: Cell,
    to: &mut [Cell],
) -> bool
    requires lends { L.lends lanes.now }
    ensures { result ≡ true → (place : ℕ) → place < length to.old
        → F.takes (cell_of left to.old place (L.known lanes.now place)) right
        → F.makes (cell_of left to.old place (L.known lanes.now place)) right ≡ Ok (slice_index_or to.new place (pos 0)) }
{
    match left {
        Level::Here => in_place_by(f, to, right),
        Level::Number(number) => {
            fill(to, number);
            in_place_by(f, to, right);
        }
        Level::Column(slot) => {
            let column = lanes.column(slot);
            if column.len() != to.len() {
                return false;
            }
            onto_by(f, to, column, right);
        }
    }
    true
}

/// The right operand is a row.
fn apply_row<F: Cellwise, L: Lanes>(
    f: &F,
    lanes: &L,
    left: Level,
    right: &[Cell],
    to: &mut [Cell],
) -> bool
    requires lends { L.lends lanes.now }
    ensures { result ≡ true → (length right.now ≡ length to.old) × ((place : ℕ) → place < length to.old
        → F.takes (cell_of left to.old place (L.known lanes.now place)) (slice_index_or right.now place (pos 0))
        → F.makes (cell_of left to.old place (L.known lanes.now place)) (slice_index_or right.now place (pos 0)) ≡ Ok (slice_index_or to.new place (pos 0))) }
{
    if right.len() != to.len() {
        return false;
    }
    match left {
        Level::Here => in_place(f, to, right),
        Level::Number(number) => {
            fill(to, number);
            in_place(f, to, right);
        }
        Level::Column(slot) => {
            let column = lanes.column(slot);
            if column.len() != to.len() {
                return false;
            }
            onto(f, to, column, right);
        }
    }
    true
}

/// Puts the cells of a level into its row.
pub fn settle<L: Lanes>(lanes: &L, level: Level, row: &mut [Cell]) -> bool
    requires lends { L.lends lanes.now }
    ensures { result ≡ true → (place : ℕ) → place < length row.old
        → cell_of level row.old place (L.known lanes.now place) ≡ slice_index_or row.new place (pos 0) }
{
    match level {
        Level::Here => {}
        Level::Number(number) => fill(row, number),
        Level::Column(slot) => {
            let column = lanes.column(slot);
            if column.len() != row.len() {
                return false;
            }
            row.copy_from_slice(column);
        }
    }
    true
}
