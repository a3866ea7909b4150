//! Which loop does what an instruction asks for.
ghost use Rattle.std.specs.Prelude.{◌≡◌, ◌≢◌, ℕ, ℤ, Ok, ◌<◌, ◌≤◌, length, pos, true, false, slice_index_or};
ghost use Rattle.sk_base.specs.Arithmetic.{InRange, op_of};
ghost use Rattle.sk_columns.specs.Cells.{Takes, cell_of, divides, is_bitwise, made_by};

use crate::apply::{apply, settle};
use crate::arithmetic::is_of;
use crate::divide::{divide, remain};
use crate::lanes::Lanes;
use crate::level::Level;
use crate::loops::{are_of, has_zero};
use crate::operators as operator;
use crate::operators::{Ints, Longs, Width};
use sk_base::{Cell, Op, Ty};

/// What is made of one level, or of two.
#[derive(Clone, Copy)]
pub enum Action {
    Binary(Op, Ty),
    Negate(Ty),
    Invert,
    Deny,
    /// A value as an `int`.
    Wrap,
}

/// Puts what is made of two levels into the row of the left one, where the rows above begin with that of the right one. It
/// fails where there is a trap, or where a column is not as long as the row.
pub fn combine<L: Lanes>(
    action: Action,
    lanes: &L,
    left: Level,
    right: Level,
    to: &mut [Cell],
    above: &[Cell],
) -> bool
    requires lends { L.lends lanes.now }
    ensures { result ≡ true → (place : ℕ) → place < length to.old
        → made_by action (cell_of left to.old place (L.known lanes.now place)) (cell_of right above.now place (L.known lanes.now place)) ≡ Ok (slice_index_or to.new place (pos 0)) }
{
    match action {
        Action::Binary(op, ty) => combine_two(op, ty, lanes, left, right, to, above),
        Action::Negate(Ty::Int) => apply(&operator::Negate(Ints), lanes, left, right, to, above),
        Action::Negate(Ty::Long) => apply(&operator::Negate(Longs), lanes, left, right, to, above),
        Action::Invert => apply(&operator::Invert, lanes, left, right, to, above),
        Action::Deny => apply(&operator::Deny, lanes, left, right, to, above),
        Action::Wrap => apply(&operator::Wrap, lanes, left, right, to, above),
    }
}

/// An operator with two operands.
fn combine_two<L: Lanes>(
    op: Op,
    ty: Ty,
    lanes: &L,
    left: Level,
    right: Level,
    to: &mut [Cell],
    above: &[Cell],
) -> bool
    requires lends { L.lends lanes.now }
    ensures { result ≡ true → (place : ℕ) → place < length to.old
        → op_of op ty (cell_of left to.old place (L.known lanes.now place)) (cell_of right above.now place (L.known lanes.now place)) ≡ Ok (slice_index_or to.new place (pos 0)) }
{
    let block = to.len();
    if divides(op) && may_be_zero(lanes, right, above, block) {
        return false;
    }
    match (op, ty, right) {
        (Op::Div, Ty::Int, Level::Number(divisor)) => {
            return settle(lanes, left, to) && divide(to, divisor);
        }
        (Op::Rem, Ty::Int, Level::Number(divisor)) => {
            return settle(lanes, left, to) && remain(to, divisor);
        }
        _ => {}
    }
    if is_bitwise(op)
        && !(is_all_of(ty, lanes, left, to, block) && is_all_of(ty, lanes, right, above, block))
    {
        return false;
    }
    match ty {
        Ty::Int => operate(Ints, op, lanes, left, right, to, above),
        Ty::Long => operate(Longs, op, lanes, left, right, to, above),
    }
}

/// Whether an operator traps at a right operand 0.
fn divides(op: Op) -> bool
    ensures { result ≡ divides op }
{
    matches!(op, Op::Div | Op::Rem)
}

/// Whether an operator reads its operands as bits.
fn is_bitwise(op: Op) -> bool
    ensures { result ≡ is_bitwise op }
{
    matches!(op, Op::And | Op::Or | Op::Xor)
}

/// Whether all cells of a level are numbers of a type, given the rows that begin with its own.
fn is_all_of<L: Lanes>(ty: Ty, lanes: &L, level: Level, row: &[Cell], block: usize) -> bool
    requires lends { L.lends lanes.now }
    ensures { result ≡ true → (place : ℕ) → place < block → InRange ty (cell_of level row.now place (L.known lanes.now place)) }
{
    match level {
        Level::Number(number) => is_of(ty, number),
        Level::Column(slot) => {
            let column = lanes.column(slot);
            column.len() >= block && are_of(ty, column)
        }
        Level::Here => row.len() >= block && are_of(ty, &row[..block]),
    }
}

/// Whether a level may have a 0 at some of so many places.
fn may_be_zero<L: Lanes>(lanes: &L, level: Level, row: &[Cell], block: usize) -> bool
    requires lends { L.lends lanes.now }
    ensures { result ≡ false → (place : ℕ) → place < block → cell_of level row.now place (L.known lanes.now place) ≢ pos 0 }
{
    match level {
        Level::Number(number) => number == 0,
        Level::Column(slot) => {
            let column = lanes.column(slot);
            column.len() < block || has_zero(column)
        }
        Level::Here => row.len() < block || has_zero(&row[..block]),
    }
}

/// The operator's values in a type, for the operands that it takes.
fn operate<W: Width, L: Lanes>(
    width: W,
    op: Op,
    lanes: &L,
    left: Level,
    right: Level,
    to: &mut [Cell],
    above: &[Cell],
) -> bool
    requires lends { L.lends lanes.now }
    ensures { result ≡ true → (place : ℕ) → place < length to.old
        → Takes op W.ty (cell_of left to.old place (L.known lanes.now place)) (cell_of right above.now place (L.known lanes.now place))
        → op_of op W.ty (cell_of left to.old place (L.known lanes.now place)) (cell_of right above.now place (L.known lanes.now place)) ≡ Ok (slice_index_or to.new place (pos 0)) }
{
    match op {
        Op::Add => apply(&operator::Add(width), lanes, left, right, to, above),
        Op::Sub => apply(&operator::Sub(width), lanes, left, right, to, above),
        Op::Mul => apply(&operator::Mul(width), lanes, left, right, to, above),
        Op::Div => apply(&operator::Div(width), lanes, left, right, to, above),
        Op::Rem => apply(&operator::Rem(width), lanes, left, right, to, above),
        Op::Shl => apply(&operator::Shl(width), lanes, left, right, to, above),
        Op::Shr => apply(&operator::Shr(width), lanes, left, right, to, above),
        Op::And => apply(&operator::And(width), lanes, left, right, to, above),
        Op::Or => apply(&operator::Or(width), lanes, left, right, to, above),
        Op::Xor => apply(&operator::Xor(width), lanes, left, right, to, above),
        Op::Lt => apply(&operator::Lt, lanes, left, right, to, above),
        Op::Le => apply(&operator::Le, lanes, left, right, to, above),
        Op::Gt => apply(&operator::Gt, lanes, left, right, to, above),
        Op::Ge => apply(&operator::Ge, lanes, left, right, to, above),
        Op::Eq => apply(&operator::Eq, lanes, left, right, to, above),
        Op::Ne => apply(&operator::Ne, lanes, left, right, to, above),
    }
}
