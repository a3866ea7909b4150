//! One copy of a block of a store.
ghost use Rattle.std.specs.Prelude.{◌≡◌, ◌≢◌, ℕ, ◌+◌, ◌-◌, ◌<◌, ◌≤◌, true, false, length, IfOk, IfSome, IfNone};
ghost use Rattle.sk_ranges.specs.States.{SetsIn, FillsIn};
ghost use Rattle.sk_copy_states.specs.Held.{IsFit, HasRoom, SameBlock, IsFresh, state_of};
ghost use Rattle.sk_copy_states.specs.declared.held.Held.{Held};

use sk_base::Range;
use sk_ranges::{State, States};
use sk_spaces::Memory;
use std::alloc::Global;

/// A copy of a block of a store: which of its indices it has, how often it is pinned, and for how many messages to it there is
/// room. Its cells are in the block of the same number.
#[derive(Drop)]
pub struct Held {
    pub store: u64,
    pub space: u32,
    pub lo: u32,
    pub hi: u32,
    pub states: States,
    pub pins: u32,
    pub expected: u32,
}

/// A copy of a block, all stale and not pinned, with room for so many changes of its states.
pub fn fresh(alloc: Global, store: u64, space: u32, block: Range, room: u32) -> Result<Held, Memory>
    ensures { IfOk result (IsFresh store space block.lo block.hi room) }
{
    let Ok(mut states) = States::new(alloc, block.len()) else {
        return Err(Memory);
    };
    if states.reserve(room).is_err() {
        return Err(Memory);
    }
    Ok(Held {
        store,
        space,
        lo: block.lo,
        hi: block.hi,
        states,
        pins: 0,
        expected: 0,
    })
}

/// Gives the indices of a range that lie in the block a state.
pub fn set_state(held: &mut Held, range: Range, state: State)
    requires fit { IsFit held.old }
    requires room { HasRoom 1 held.old }
    ensures block { SameBlock held.old held.new }
    ensures room { held.old.states.reserved ≤ held.new.states.reserved + 1 }
    ensures before { (i : ℕ) → i < range.lo → state_of held.new i ≡ state_of held.old i }
    ensures inside { (i : ℕ) → range.lo ≤ i → i < range.hi → held.old.lo ≤ i → i < held.old.hi →
        state_of held.new i ≡ state }
    ensures outside { (i : ℕ) → held.old.hi ≤ i → state_of held.new i ≡ state_of held.old i }
    ensures below { (i : ℕ) → i < held.old.lo → state_of held.new i ≡ state_of held.old i }
    ensures after { (i : ℕ) → range.hi ≤ i → state_of held.new i ≡ state_of held.old i }
{
    let lo = range.lo.max(held.lo);
    let hi = range.hi.min(held.hi);
    if lo < hi {
        held.states.set(
            Range {
                lo: lo - held.lo,
                hi: hi - held.lo,
            },
            state,
        );
    }
}

/// Makes valid what is stale of a range of the block.
pub fn fill_state(held: &mut Held, range: Range)
    requires fit { IsFit held.old }
    requires room { HasRoom 1 held.old }
    requires above { held.old.lo ≤ range.lo }
    requires below { range.hi ≤ held.old.hi }
    ensures block { SameBlock held.old held.new }
    ensures room { held.old.states.reserved ≤ held.new.states.reserved + 1 }
    ensures fills { FillsIn (state_of held.old) (state_of held.new) range.lo range.hi }
{
    if !range.is_empty() {
        held.states.fill(Range {
            lo: range.lo - held.lo,
            hi: range.hi - held.lo,
        });
    }
}

/// How far a copy may be read from the beginning of a range on.
pub fn readable_to(held: &Held, range: Range) -> u32
    requires fit { IsFit held.now }
    ensures above { range.lo ≤ result }
    ensures below { result ≤ range.hi }
    ensures readable { (i : ℕ) → range.lo ≤ i → i < result → state_of held.now i ≢ State.Stale }
    ensures end { result < range.hi → state_of held.now result ≡ State.Stale }
{
    let hi = range.hi.min(held.hi);
    if range.lo < held.lo || hi <= range.lo {
        return range.lo;
    }
    let inside = Range {
        lo: range.lo - held.lo,
        hi: hi - held.lo,
    };
    match held.states.missing(inside) {
        Some(run) => held.lo + run.lo,
        None => hi,
    }
}

/// How far a copy is stale from the beginning of a range on; it is stale outside its block.
pub fn stale_to(held: &Held, range: Range) -> u32
    requires fit { IsFit held.now }
    ensures above { range.lo ≤ result }
    ensures below { result ≤ range.hi }
    ensures stale { (i : ℕ) → range.lo ≤ i → i < result → state_of held.now i ≡ State.Stale }
    ensures end { result < range.hi → state_of held.now result ≢ State.Stale }
{
    let lo = range.lo.max(held.lo);
    let hi = range.hi.min(held.hi);
    if hi <= lo {
        return range.hi;
    }
    let run = held.states.first_run(Range {
        lo: lo - held.lo,
        hi: hi - held.lo,
    });
    if run.state != State::Stale {
        return lo;
    }
    let end = held.lo + run.range.hi;
    if end == held.hi { range.hi } else { end }
}

/// How far a copy is the owner from the beginning of a range on.
pub fn owned_to(held: &Held, range: Range) -> u32
    requires fit { IsFit held.now }
    ensures above { range.lo ≤ result }
    ensures below { result ≤ range.hi }
    ensures owned { (i : ℕ) → range.lo ≤ i → i < result → state_of held.now i ≡ State.Owner }
    ensures end { result < range.hi → state_of held.now result ≢ State.Owner }
{
    let hi = range.hi.min(held.hi);
    if range.lo < held.lo || hi <= range.lo {
        return range.lo;
    }
    let run = held.states.first_run(Range {
        lo: range.lo - held.lo,
        hi: hi - held.lo,
    });
    if run.state == State::Owner {
        held.lo + run.range.hi
    } else {
        range.lo
    }
}

/// The first stale run of a range of the block.
pub fn missing_in(held: &Held, range: Range) -> Option<Range>
    requires fit { IsFit held.now }
    requires above { held.now.lo ≤ range.lo }
    requires below { range.hi ≤ held.now.hi }
    ensures none { IfNone result ((i : ℕ) → range.lo ≤ i → i < range.hi → state_of held.now i ≢ State.Stale) }
    ensures some { IfSome result (λ run. run.lo < run.hi) }
    ensures within { IfSome result (λ run. (range.lo ≤ run.lo) × (run.hi ≤ range.hi)) }
    ensures earlier { IfSome result (λ run. (i : ℕ) → range.lo ≤ i → i < run.lo → state_of held.now i ≢ State.Stale) }
    ensures stale { IfSome result (λ run. (i : ℕ) → run.lo ≤ i → i < run.hi → state_of held.now i ≡ State.Stale) }
{
    let run = held.states.missing(Range {
        lo: range.lo - held.lo,
        hi: range.hi - held.lo,
    })?;
    Some(Range {
        lo: held.lo + run.lo,
        hi: held.lo + run.hi,
    })
}

/// How a range of a copy's block begins: all owned, or not owned at all, up to an index.
#[derive(Clone, Copy)]
pub struct Part {
    pub owned: bool,
    pub hi: u32,
}

/// How a range of the block begins.
pub fn first_part(held: &Held, range: Range) -> Part
    requires fit { IsFit held.now }
    requires some { range.lo < range.hi }
    requires above { held.now.lo ≤ range.lo }
    requires below { range.hi ≤ held.now.hi }
    ensures begins { range.lo < result.hi }
    ensures within { result.hi ≤ range.hi }
    ensures owned { result.owned ≡ true → (i : ℕ) → range.lo ≤ i → i < result.hi → state_of held.now i ≡ State.Owner }
    ensures other { result.owned ≡ false → (i : ℕ) → range.lo ≤ i → i < result.hi → state_of held.now i ≢ State.Owner }
{
    let run = held.states.first_run(Range {
        lo: range.lo - held.lo,
        hi: range.hi - held.lo,
    });
    Part {
        owned: run.state == State::Owner,
        hi: held.lo + run.range.hi,
    }
}
