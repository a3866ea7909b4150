ghost use Rattle.std.specs.Prelude.{◌≡◌, ℕ, ◌+◌, ◌<◌, ◌≤◌, ◌≢◌, length, take, None, slice_index_or, IfNone, IfSome};
ghost use Rattle.sk_ranges.specs.States.{IsRun, IsFirstMissing, NoneMissing};
ghost use Rattle.sk_ranges.specs.Pieces.{AreTidy, end_of, state_of};
ghost use Rattle.sk_ranges.specs.declared.pieces.Piece.{Piece};

use crate::state::State;
use sk_base::Range;

/// Indices of one state, from the end of the piece before up to but not including `end`.
#[derive(Clone, Copy, PartialEq, Eq, Debug)]
pub struct Piece {
    pub end: u32,
    pub state: State,
}

/// Neighbouring indices of one state.
#[derive(Clone, Copy, PartialEq, Eq, Debug)]
pub struct Run {
    pub range: Range,
    pub state: State,
}

/// How many pieces end at the index or before it.
pub fn place(pieces: &[Piece], index: u32) -> usize
    requires { AreTidy 0 None pieces.now }
    ensures within { result ≤ length pieces.now }
    ensures inside { index < end_of 0 pieces.now → result < length pieces.now }
    ensures before { end_of 0 (take result pieces.now) ≤ index }
    ensures after { (d : Piece) → result < length pieces.now →
        index < (slice_index_or pieces.now result d).end }
{
    pieces.partition_point(|piece| piece.end <= index)
}

/// Where the last piece ends.
pub fn end(pieces: &[Piece]) -> u32
    ensures { result ≡ end_of 0 pieces.now }
{
    match pieces {
        [.., last] => last.end,
        [] => 0,
    }
}

/// The state at an index.
pub fn at(pieces: &[Piece], index: u32) -> State
    requires tidy { AreTidy 0 None pieces.now }
    requires inside { index < end_of 0 pieces.now }
    ensures { result ≡ state_of pieces.now index }
{
    pieces[place(pieces, index)].state
}

/// The indices of a range's first piece that lie in the range, and their state.
pub fn first_run(pieces: &[Piece], range: Range) -> Run
    requires tidy { AreTidy 0 None pieces.now }
    requires some { range.lo < range.hi }
    requires inside { range.hi ≤ end_of 0 pieces.now }
    ensures begins { result.range.lo ≡ range.lo }
    ensures run { IsRun (state_of pieces.now) result.state range.lo result.range.hi range.hi }
{
    let piece = pieces[place(pieces, range.lo)];
    Run {
        range: Range {
            lo: range.lo,
            hi: piece.end.min(range.hi),
        },
        state: piece.state,
    }
}

/// The first stale run of a range.
pub fn missing(pieces: &[Piece], range: Range) -> Option<Range>
    requires tidy { AreTidy 0 None pieces.now }
    requires inside { range.hi ≤ end_of 0 pieces.now }
    ensures none { IfNone result (NoneMissing (state_of pieces.now) range.lo range.hi) }
    ensures first { IfSome result (λ run.
        IsFirstMissing (state_of pieces.now) range.lo range.hi run.lo run.hi) }
{
    let mut lo = range.lo;
    let mut at = place(pieces, lo);
    'pieces: while lo < range.hi {
        let piece = pieces[at];
        if piece.state == State::Stale {
            let hi = piece.end.min(range.hi);
            return Some(Range { lo, hi });
        }
        lo = piece.end;
        at += 1;
    }
    None
}
