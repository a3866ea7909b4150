ghost use Rattle.std.specs.Prelude.{◌≡◌, ℕ, ◌+◌, ◌<◌, ◌≤◌, ◌∷◌, ◌++◌, List, length, take, drop, None, IfNone, slice_index_or, option_to_list, vec_len, vec_capacity};
ghost use Rattle.sk_ranges.specs.Pieces.{AreTidy, end_of, state_of};
ghost use Rattle.sk_ranges.specs.Sides.{IsFilled, IsLeft, IsRight, pieces_before, pieces_after};
ghost use Rattle.sk_ranges.specs.States.{SetsIn};
ghost use Rattle.sk_ranges.specs.declared.pieces.Piece.{Piece};

use crate::pieces::{Piece, place};
use crate::state::State;
use sk_base::Range;

/// What is on one side when a range gets a state: the pieces before `place`, or those from `place` on, and a piece that
/// comes between them and the other side.
#[derive(Clone, Copy)]
pub struct Side {
    pub place: usize,
    pub piece: Option<Piece>,
}

/// The pieces from `from` up to but not including `to`, which are being replaced.
#[derive(Clone, Copy)]
struct Gap {
    from: usize,
    to: usize,
}

/// The pieces before an index, the last of them beside the place.
pub fn before(pieces: &[Piece], lo: u32) -> Side
    requires tidy { AreTidy 0 None pieces.now }
    requires inside { lo ≤ end_of 0 pieces.now }
    ensures within { result.place ≤ length pieces.now }
    ensures below { end_of 0 (take result.place pieces.now) ≤ lo }
    ensures empty { IfNone result.piece (result.place ≡ 0) }
    ensures before { IsFilled pieces.now lo lo (pieces_before pieces.now result) }
{
    if lo == 0 {
        return Side {
            place: 0,
            piece: None,
        };
    }
    let at = place(pieces, lo - 1);
    Side {
        place: at,
        piece: Some(Piece {
            end: lo,
            state: pieces[at].state,
        }),
    }
}

/// What of a left side stays before a run of the state: a last piece of that state belongs to the run.
pub fn without(side: Side, state: State) -> Side
    requires { IfNone side.piece (side.place ≡ 0) }
    ensures place { result.place ≡ side.place }
    ensures left { (pieces : List Piece) → AreTidy 0 None (pieces_before pieces side) →
        IsLeft (pieces_before pieces side) (end_of 0 (pieces_before pieces side)) state (pieces_before pieces result) }
{
    let Some(last) = side.piece else {
        return side;
    };
    if last.state == state {
        return Side {
            place: side.place,
            piece: None,
        };
    }
    side
}

/// What stays before a range that begins at `lo` and gets the state.
fn left_of(pieces: &[Piece], lo: u32, state: State) -> Side
    requires tidy { AreTidy 0 None pieces.now }
    requires inside { lo ≤ end_of 0 pieces.now }
    ensures within { result.place ≤ length pieces.now }
    ensures below { end_of 0 (take result.place pieces.now) ≤ lo }
    ensures left { IsLeft pieces.now lo state (pieces_before pieces.now result) }
{
    let side = before(pieces, lo);
    without(side, state)
}

/// What stays behind a range that ends at `hi` and gets the state; a piece beside it is the range's own.
pub fn right_of(pieces: &[Piece], hi: u32, state: State) -> Side
    requires tidy { AreTidy 0 None pieces.now }
    requires inside { hi ≤ end_of 0 pieces.now }
    ensures within { result.place ≤ length pieces.now }
    ensures above { (d : Piece) → result.place < length pieces.now →
        hi < (slice_index_or pieces.now result.place d).end }
    ensures right { IsRight pieces.now hi state (pieces_after pieces.now result) }
{
    let at = place(pieces, hi);
    if at < pieces.len() && pieces[at].state == state {
        return Side {
            place: at,
            piece: None,
        };
    }
    Side {
        place: at,
        piece: Some(Piece { end: hi, state }),
    }
}

/// Puts the piece at the beginning of the gap, over the first piece that is to go, if there is one.
fn fill(pieces: &mut Vec<Piece>, gap: Gap, piece: Option<Piece>) -> Gap
    requires ordered { gap.from ≤ gap.to }
    requires inside { gap.to ≤ vec_len pieces.old }
    requires room { vec_len pieces.old < vec_capacity pieces.old }
    ensures before { take result.from pieces.new.items ≡ take gap.from pieces.old.items ++ option_to_list piece }
    ensures after { drop result.to pieces.new.items ≡ drop gap.to pieces.old.items }
    ensures ordered { result.from ≤ result.to }
    ensures inside { result.to ≤ vec_len pieces.new }
    ensures len { vec_len pieces.new ≤ vec_len pieces.old + 1 }
    ensures capacity { vec_capacity pieces.old ≤ vec_capacity pieces.new }
{
    let Some(piece) = piece else {
        return gap;
    };
    if gap.from < gap.to {
        pieces[gap.from] = piece;
        return Gap {
            from: gap.from + 1,
            to: gap.to,
        };
    }
    // There is room, so this takes no memory.
    let _ = pieces.insert(gap.from, piece);
    Gap {
        from: gap.from + 1,
        to: gap.to + 1,
    }
}

/// Puts two pieces at a place, with one move of the pieces behind.
fn insert_both(pieces: &mut Vec<Piece>, place: usize, first: Piece, second: Piece)
    requires inside { place ≤ vec_len pieces.old }
    requires room { vec_len pieces.old + 2 ≤ vec_capacity pieces.old }
    ensures items { pieces.new.items ≡ take place pieces.old.items ++ first ∷ second ∷ drop place pieces.old.items }
    ensures len { vec_len pieces.new ≡ vec_len pieces.old + 2 }
    ensures capacity { vec_capacity pieces.old ≤ vec_capacity pieces.new }
{
    pieces.push_reserved(first);
    pieces.push_reserved(second);
    pieces[place..].rotate_right(2);
}

/// Replaces the pieces between two places by the pieces beside them, with at most one move of the pieces behind.
pub fn replace(pieces: &mut Vec<Piece>, left: Side, right: Side)
    requires ordered { left.place ≤ right.place }
    requires inside { right.place ≤ vec_len pieces.old }
    requires room { vec_len pieces.old + 2 ≤ vec_capacity pieces.old }
    ensures items { pieces.new.items ≡ pieces_before pieces.old.items left ++ pieces_after pieces.old.items right }
    ensures len { vec_len pieces.new ≤ vec_len pieces.old + 2 }
    ensures capacity { vec_capacity pieces.old ≤ vec_capacity pieces.new }
{
    match (left.piece, right.piece) {
        (Some(first), Some(second)) if left.place == right.place => insert_both(
            pieces, left.place, first, second,
        ),
        _ => fill_between(pieces, left, right),
    }
}

/// The same, where a piece goes or at most one comes.
fn fill_between(pieces: &mut Vec<Piece>, left: Side, right: Side)
    requires ordered { left.place ≤ right.place }
    requires inside { right.place ≤ vec_len pieces.old }
    requires room { vec_len pieces.old + 2 ≤ vec_capacity pieces.old }
    ensures items { pieces.new.items ≡ pieces_before pieces.old.items left ++ pieces_after pieces.old.items right }
    ensures len { vec_len pieces.new ≤ vec_len pieces.old + 2 }
    ensures capacity { vec_capacity pieces.old ≤ vec_capacity pieces.new }
{
    let gap = Gap {
        from: left.place,
        to: right.place,
    };
    let gap = fill(pieces, gap, left.piece);
    let gap = fill(pieces, gap, right.piece);
    if gap.from < gap.to {
        pieces.drain(gap.from..gap.to);
    }
}

/// Gives every index of the range the state.
pub fn set(pieces: &mut Vec<Piece>, range: Range, state: State)
    requires tidy { AreTidy 0 None pieces.old.items }
    requires some { range.lo < range.hi }
    requires inside { range.hi ≤ end_of 0 pieces.old.items }
    requires room { vec_len pieces.old + 2 ≤ vec_capacity pieces.old }
    ensures tidy { AreTidy 0 None pieces.new.items }
    ensures end { end_of 0 pieces.new.items ≡ end_of 0 pieces.old.items }
    ensures states { SetsIn (state_of pieces.old.items) (state_of pieces.new.items) range.lo range.hi state }
    ensures len { vec_len pieces.new ≤ vec_len pieces.old + 2 }
    ensures capacity { vec_capacity pieces.old ≤ vec_capacity pieces.new }
{
    let left = left_of(pieces, range.lo, state);
    let right = right_of(pieces, range.hi, state);
    replace(pieces, left, right);
}
