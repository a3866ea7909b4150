//! From which copy cells come.
ghost use Rattle.std.specs.Prelude.{◌≡◌, ◌≢◌, ℕ, ◌<◌, ◌≤◌, length, slice_index, IfSome, IfNone};
ghost use Rattle.sk_copy_states.specs.Held.{IsFit};
ghost use Rattle.sk_copy_states.specs.Copies.{held_in, state_in};
ghost use Rattle.sk_copy_states.specs.Sources.{LiesIn, MayRead, AllStale, AllOwned, IsNear, NoneNear, IsOwnerOf, IsSourceOf};

use crate::held::{Held, owned_to, readable_to, stale_to};
use sk_base::Range;
use sk_ranges::State;
use std::collections::BTreeMap;

/// A copy, if there is one, and up to which index that is so.
#[derive(Clone, Copy)]
pub struct Source {
    pub id: Option<u64>,
    pub hi: u32,
}

/// Whether a copy lies in a space and may be read at the beginning of a range, and up to which index that is so.
fn look(copies: &BTreeMap<u64, Held>, id: u64, space: u32, range: Range) -> Source
    requires some { range.lo < range.hi }
    requires fit { IfSome (held_in copies.now.entries id) IsFit }
    ensures above { range.lo < result.hi }
    ensures below { result.hi ≤ range.hi }
    ensures same { IfSome result.id (λ found. found ≡ id) }
    ensures lies { IfSome result.id (λ found. LiesIn space (held_in copies.now.entries id)) }
    ensures readable { IfSome result.id (λ found. MayRead (held_in copies.now.entries id) range.lo result.hi) }
    ensures stale { IfNone result.id (LiesIn space (held_in copies.now.entries id) → AllStale (held_in copies.now.entries id) range.lo result.hi) }
{
    let Some(held) = copies.get(&id) else {
        return Source {
            id: None,
            hi: range.hi,
        };
    };
    if held.space != space {
        return Source {
            id: None,
            hi: range.hi,
        };
    }
    let hi = readable_to(held, range);
    if hi > range.lo {
        return Source { id: Some(id), hi };
    }
    Source {
        id: None,
        hi: stale_to(held, range),
    }
}

/// The first of the listed copies that lies in a space and may be read where a range begins, if there is one, and up to which
/// index that is so.
pub fn near(copies: &BTreeMap<u64, Held>, ids: &[u64], space: u32, range: Range) -> Source
    requires some { range.lo < range.hi }
    requires fit { (q : ℕ) → IfSome (held_in copies.now.entries q) IsFit }
    ensures above { range.lo < result.hi }
    ensures below { result.hi ≤ range.hi }
    ensures found { IfSome result.id (λ id. IsNear (held_in copies.now.entries) ids.now space range.lo result.hi id) }
    ensures none { IfNone result.id (NoneNear (held_in copies.now.entries) ids.now space range.lo result.hi) }
{
    let mut hi = range.hi;
    'ids: for at in 0..ids.len() {
        let seen = look(copies, ids[at], space, Range { lo: range.lo, hi });
        hi = seen.hi;
        if seen.id.is_some() {
            return seen;
        }
    }
    Source { id: None, hi }
}

/// How far a copy owns a range from its beginning on.
fn owned_by(copies: &BTreeMap<u64, Held>, id: u64, range: Range) -> u32
    requires fit { IfSome (held_in copies.now.entries id) IsFit }
    ensures above { range.lo ≤ result }
    ensures below { result ≤ range.hi }
    ensures owned { AllOwned (held_in copies.now.entries id) range.lo result }
    ensures end { result < range.hi → state_in (held_in copies.now.entries id) result ≢ State.Owner }
{
    match copies.get(&id) {
        Some(held) => owned_to(held, range),
        None => range.lo,
    }
}

/// The listed copy that owns the beginning of a range, if there is one, and up to which index that is so.
pub fn owner(copies: &BTreeMap<u64, Held>, ids: &[u64], range: Range) -> Source
    requires some { range.lo < range.hi }
    requires fit { (q : ℕ) → IfSome (held_in copies.now.entries q) IsFit }
    ensures above { range.lo < result.hi }
    ensures below { result.hi ≤ range.hi }
    ensures found { IfSome result.id (λ id. IsOwnerOf (held_in copies.now.entries) ids.now range.lo result.hi id) }
    ensures none { IfNone result.id ((k : ℕ) → k < length ids.now →
        state_in (held_in copies.now.entries (slice_index ids.now k)) range.lo ≢ State.Owner) }
{
    'ids: for at in 0..ids.len() {
        let hi = owned_by(copies, ids[at], range);
        if hi > range.lo {
            return Source {
                id: Some(ids[at]),
                hi,
            };
        }
    }
    Source {
        id: None,
        hi: range.hi,
    }
}

/// From which of the listed copies the beginning of a range is filled in a space, if one of them owns it, and up to which index
/// that is so.
pub fn best(copies: &BTreeMap<u64, Held>, ids: &[u64], space: u32, range: Range) -> Source
    requires some { range.lo < range.hi }
    requires fit { (q : ℕ) → IfSome (held_in copies.now.entries q) IsFit }
    ensures above { range.lo < result.hi }
    ensures below { result.hi ≤ range.hi }
    ensures found { IfSome result.id (λ id. IsSourceOf (held_in copies.now.entries) ids.now space range.lo result.hi id) }
    ensures none { IfNone result.id ((k : ℕ) → k < length ids.now →
        state_in (held_in copies.now.entries (slice_index ids.now k)) range.lo ≢ State.Owner) }
{
    let near = near(copies, ids, space, range);
    if near.id.is_some() {
        return near;
    }
    let rest = Range {
        lo: range.lo,
        hi: near.hi,
    };
    owner(copies, ids, rest)
}
