//! Whether copies own something.
ghost use Rattle.std.specs.Prelude.{◌≡◌, ◌≢◌, ℕ, ◌<◌, true, false, length, slice_index, IfSome};
ghost use Rattle.sk_copy_states.specs.Held.{IsFit, state_of};
ghost use Rattle.sk_copy_states.specs.Copies.{held_in, state_in};

use crate::held::{Held, first_part};
use sk_base::Range;
use sk_ranges::State;
use std::collections::BTreeMap;

/// Whether a copy owns an index of its block.
fn owns_some(held: &Held) -> bool
    requires fit { IsFit held.now }
    ensures some { result ≡ true → (i : ℕ) × (state_of held.now i ≡ State.Owner) }
    ensures none { result ≡ false → (i : ℕ) → state_of held.now i ≢ State.Owner }
{
    let mut lo = held.lo;
    'parts: while lo < held.hi {
        let part = first_part(held, Range { lo, hi: held.hi });
        if part.owned {
            return true;
        }
        lo = part.hi;
    }
    false
}

/// Whether the copy with this number is there and owns an index.
fn owns(copies: &BTreeMap<u64, Held>, id: u64) -> bool
    requires fit { IfSome (held_in copies.now.entries id) IsFit }
    ensures some { result ≡ true → (i : ℕ) × (state_in (held_in copies.now.entries id) i ≡ State.Owner) }
    ensures none { result ≡ false → (i : ℕ) → state_in (held_in copies.now.entries id) i ≢ State.Owner }
{
    match copies.get(&id) {
        Some(held) => owns_some(held),
        None => false,
    }
}

/// Whether one of the listed copies owns an index.
pub fn is_owned(copies: &BTreeMap<u64, Held>, ids: &[u64]) -> bool
    requires fit { (q : ℕ) → IfSome (held_in copies.now.entries q) IsFit }
    ensures some { result ≡ true → (k : ℕ) × (k < length ids.now)
        × ((i : ℕ) × (state_in (held_in copies.now.entries (slice_index ids.now k)) i ≡ State.Owner)) }
    ensures none { result ≡ false → (k : ℕ) → k < length ids.now →
        (i : ℕ) → state_in (held_in copies.now.entries (slice_index ids.now k)) i ≢ State.Owner }
{
    'ids: for at in 0..ids.len() {
        if owns(copies, ids[at]) {
            return true;
        }
    }
    false
}
