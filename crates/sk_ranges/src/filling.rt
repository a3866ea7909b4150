ghost use Rattle.std.specs.Prelude.{◌≡◌, ℕ, ◌+◌, ◌<◌, ◌≤◌, max, take, drop, Some, None, IfNone, slice_index_or, vec_len, vec_capacity};
ghost use Rattle.sk_ranges.specs.Pieces.{AreTidy, end_of, state_of};
ghost use Rattle.sk_ranges.specs.Sides.{IsAdded, IsFilled, pieces_before};
ghost use Rattle.sk_ranges.specs.States.{FillsIn};
ghost use Rattle.sk_ranges.specs.declared.pieces.Piece.{Piece};

use crate::change::{Side, before, replace, right_of, without};
use crate::pieces::{Piece, place};
use sk_base::Range;

/// Adds a piece to the left side. The last piece is written at the place, or goes where the states are equal.
fn add(pieces: &mut Vec<Piece>, side: Side, piece: Piece) -> Side
    requires inside { side.place < vec_len pieces.old }
    requires empty { IfNone side.piece (side.place ≡ 0) }
    requires tidy { AreTidy 0 None (pieces_before pieces.old.items side) }
    requires rises { end_of 0 (pieces_before pieces.old.items side) < piece.end }
    ensures added { IsAdded (pieces_before pieces.old.items side) (pieces_before pieces.new.items result) piece }
    ensures piece { result.piece ≡ Some piece }
    ensures place { result.place ≤ side.place + 1 }
    ensures after { drop (side.place + 1) pieces.new.items ≡ drop (side.place + 1) pieces.old.items }
    ensures len { vec_len pieces.new ≡ vec_len pieces.old }
    ensures capacity { vec_capacity pieces.new ≡ vec_capacity pieces.old }
{
    let Some(last) = side.piece else {
        return Side {
            place: side.place,
            piece: Some(piece),
        };
    };
    if last.state == piece.state {
        return Side {
            place: side.place,
            piece: Some(piece),
        };
    }
    pieces[side.place] = last;
    Side {
        place: side.place + 1,
        piece: Some(piece),
    }
}

/// Fills the pieces before the place `to` that reach into a range from `lo` on. They are written over the pieces that are
/// read, of which there are as many or more.
fn fill_before(pieces: &mut Vec<Piece>, lo: u32, to: usize) -> Side
    requires tidy { AreTidy 0 None pieces.old.items }
    requires inside { to < vec_len pieces.old }
    requires begins { (d : Piece) → lo < (slice_index_or pieces.old.items to d).end }
    ensures filled { IsFilled pieces.old.items lo (max lo (end_of 0 (take to pieces.old.items)))
        (pieces_before pieces.new.items result) }
    ensures empty { IfNone result.piece (result.place ≡ 0) }
    ensures place { result.place ≤ to }
    ensures after { drop to pieces.new.items ≡ drop to pieces.old.items }
    ensures len { vec_len pieces.new ≡ vec_len pieces.old }
    ensures capacity { vec_capacity pieces.new ≡ vec_capacity pieces.old }
{
    let from = place(pieces, lo);
    let mut side = before(pieces, lo);
    'pieces: for at in from..to {
        let piece = pieces[at];
        let filled = Piece {
            end: piece.end,
            state: piece.state.filled(),
        };
        side = add(pieces, side, filled);
    }
    side
}

/// Makes every stale index of the range valid. The pieces that end in the range are filled in place; the last one and what
/// is behind it come in their place by one move, which has to make room for two pieces at most: one where the range begins
/// and one where it ends.
pub fn fill(pieces: &mut Vec<Piece>, range: Range)
    requires tidy { AreTidy 0 None pieces.old.items }
    requires some { range.lo < range.hi }
    requires inside { range.hi ≤ end_of 0 pieces.old.items }
    requires room { vec_len pieces.old + 2 ≤ vec_capacity pieces.old }
    ensures tidy { AreTidy 0 None pieces.new.items }
    ensures end { end_of 0 pieces.new.items ≡ end_of 0 pieces.old.items }
    ensures fills { FillsIn (state_of pieces.old.items) (state_of pieces.new.items) range.lo range.hi }
    ensures len { vec_len pieces.new ≤ vec_len pieces.old + 2 }
    ensures capacity { vec_capacity pieces.old ≤ vec_capacity pieces.new }
{
    let last = place(pieces, range.hi - 1);
    let state = pieces[last].state.filled();
    let right = right_of(pieces, range.hi, state);
    let side = fill_before(pieces, range.lo, last);
    let left = without(side, state);
    replace(pieces, left, right);
}
