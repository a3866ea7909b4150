ghost use Rattle.std.specs.Prelude.{◌≡◌, ℕ, ◌+◌, ◌<◌, ◌≤◌, length, replicate, IsTrue, ◌↔◌, IsOk, IfOk, OnOk, OnErr, IfNone, IfSome};
ghost use Rattle.sk_ranges.specs.States.{state_at, SetsIn, FillsIn, IsRun, IsFirstMissing, NoneMissing};

use crate::pieces::{self, Piece, Run};
use crate::state::State;
use crate::{change, filling};
use sk_base::Range;
use std::alloc::{AllocError, Global};
use std::marker::Model;

/// Want of memory.
#[derive(Clone, Copy, PartialEq, Eq, Debug)]
pub struct Memory;

impl From<AllocError> for Memory {
    fn from(_: AllocError) -> Memory {
        Memory
    }
}

/// The state of each index of a copy, from 0 on, and room for the changes that were reserved. Contracts see the list of
/// states by index, and the number of those changes.
#[derive(Debug, Drop)]
pub struct States {
    pieces: Vec<Piece>,
}

impl Model for States {
    ghost use Rattle.std.specs.Prelude.{◌-◌, ◌/◌, None, vec_len, vec_capacity};
    ghost use Rattle.sk_ranges.specs.States.{StatesView};
    ghost use Rattle.sk_ranges.specs.Pieces.{AreTidy, states_of};

    ghost Value = { StatesView };

    // A change adds two pieces at most.
    ghost view = { λ s. record {
      states = states_of s.pieces.items;
      reserved = (vec_capacity s.pieces - vec_len s.pieces) / 2;
    } };

    ghost invariant = { λ s. AreTidy 0 None s.pieces.items };
}

impl States {
    /// So many indices, all stale.
    pub fn new(alloc: Global, len: u32) -> Result<States, Memory>
        ensures states { IfOk result (λ s. s.states ≡ replicate len State.Stale) }
        ensures reserved { IfOk result (λ s. s.reserved ≡ 0) }
    {
        let mut pieces = Vec::with_capacity(alloc, 1)?;
        if len > 0 {
            pieces.push_reserved(Piece {
                end: len,
                state: State::Stale,
            });
        }
        Ok(States { pieces })
    }

    /// How many indices there are.
    pub fn len(&self) -> u32
        ensures { result ≡ length self.now.states }
    {
        pieces::end(&self.pieces)
    }

    /// Whether there is no index.
    pub fn is_empty(&self) -> bool
        ensures { IsTrue result ↔ (length self.now.states ≡ 0) }
    {
        self.len() == 0
    }

    /// Makes room for so many calls of `set` or `fill`; room that is there already counts. Want of memory leaves all as it
    /// was.
    pub fn reserve(&mut self, n: u32) -> Result<(), Memory>
        ensures states { self.new.states ≡ self.old.states }
        ensures ok { OnOk result (n ≤ self.new.reserved) }
        ensures kept { self.old.reserved ≤ self.new.reserved }
        ensures succeeds { n ≤ self.old.reserved → IsOk result }
        ensures err { OnErr result (self.new ≡ self.old) }
    {
        self.pieces.reserve(2 * n as usize)?;
        Ok(())
    }

    /// Gives each index of the range the state, and takes no memory. Runs of equal state are kept: the cost is a binary
    /// search among them, those that the range meets, and one move of those behind it.
    pub fn set(&mut self, range: Range, state: State)
        requires inside { range.hi ≤ length self.old.states }
        requires reserved { 0 < self.old.reserved }
        ensures len { length self.new.states ≡ length self.old.states }
        ensures states { SetsIn (state_at self.old.states) (state_at self.new.states) range.lo range.hi state }
        ensures reserved { self.old.reserved ≤ self.new.reserved + 1 }
    {
        if !range.is_empty() {
            change::set(&mut self.pieces, range, state);
        }
    }

    /// Makes each stale index of a range valid. It takes the room of one change, and no memory. The cost is binary
    /// searches among the runs, those that the range meets, and one move of those behind it.
    pub fn fill(&mut self, range: Range)
        requires inside { range.hi ≤ length self.old.states }
        requires reserved { 0 < self.old.reserved }
        ensures len { length self.new.states ≡ length self.old.states }
        ensures fills { FillsIn (state_at self.old.states) (state_at self.new.states) range.lo range.hi }
        ensures reserved { self.old.reserved ≤ self.new.reserved + 1 }
    {
        if !range.is_empty() {
            filling::fill(&mut self.pieces, range);
        }
    }

    /// The state at an index, found by binary search.
    pub fn at(&self, index: u32) -> State
        requires { index < length self.now.states }
        ensures { result ≡ state_at self.now.states index }
    {
        pieces::at(&self.pieces, index)
    }

    /// The longest run of one state that begins where the range does and stays in it, found by binary search. A walk over
    /// the runs of a range asks for the rest of the range again from each run's end, and takes no memory.
    pub fn first_run(&self, range: Range) -> Run
        requires some { range.lo < range.hi }
        requires inside { range.hi ≤ length self.now.states }
        ensures begins { result.range.lo ≡ range.lo }
        ensures run { IsRun (state_at self.now.states) result.state range.lo result.range.hi range.hi }
    {
        pieces::first_run(&self.pieces, range)
    }

    /// The first stale run of the range, as long as it can be there; none where no index of the range is stale. The cost
    /// is a binary search, and the runs of the range before the answer.
    pub fn missing(&self, range: Range) -> Option<Range>
        requires { range.hi ≤ length self.now.states }
        ensures none { IfNone result (NoneMissing (state_at self.now.states) range.lo range.hi) }
        ensures first { IfSome result (λ run.
            IsFirstMissing (state_at self.now.states) range.lo range.hi run.lo run.hi) }
    {
        pieces::missing(&self.pieces, range)
    }
}
