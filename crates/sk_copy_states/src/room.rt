//! What takes room in a space, and what may give way.
ghost use Rattle.std.specs.Prelude.{◌≡◌, ℕ, ◌<◌, ◌≤◌, ◌^◌, length, slice_index, true, IfOk, IfSome, IfNone, IsSomeAnd};
ghost use Rattle.sk_copy_states.specs.Copies.{held_in};
ghost use Rattle.sk_copy_states.specs.Loose.{is_loose, loose_in, kept_by, pinned_in};

use crate::held::Held;
use sk_spaces::Memory;
use std::alloc::Global;
use std::collections::BTreeMap;

/// Whether a copy lies in a space and is not pinned.
fn may_go(held: &Held, space: u32) -> bool
    ensures { result ≡ is_loose space held.now }
{
    held.space == space && held.pins == 0
}

/// The copies of a space that are not pinned, in order of number.
pub fn loose(copies: &BTreeMap<u64, Held>, alloc: Global, space: u32) -> Result<Vec<u64>, Memory>
    ensures list { IfOk result (λ ids. ids.items ≡ loose_in space copies.now.entries) }
    ensures each { IfOk result (λ ids. (k : ℕ) → k < length ids.items →
        IsSomeAnd (held_in copies.now.entries (slice_index ids.items k)) (λ held. is_loose space held ≡ true)) }
{
    let mut ids = Vec::new(alloc);
    'copies: for (id, held) in copies {
        if may_go(held, space) {
            ids.push(*id)?;
        }
    }
    Ok(ids)
}

/// How many cells of a space a copy keeps while it is pinned.
fn cells_kept(held: &Held, space: u32) -> u32
    ensures { result ≡ kept_by space held.now }
{
    if held.space == space && held.pins != 0 {
        held.hi.saturating_sub(held.lo)
    } else {
        0
    }
}

/// How many cells of a space its pinned copies have together, if so many can be counted.
pub fn pinned(copies: &BTreeMap<u64, Held>, space: u32) -> Option<u32>
    ensures some { IfSome result (λ n. n ≡ pinned_in space copies.now.entries) }
    ensures none { IfNone result (2 ^ 32 ≤ pinned_in space copies.now.entries) }
{
    let mut total: u32 = 0;
    'copies: for (_, held) in copies {
        total = total.checked_add(cells_kept(held, space))?;
    }
    Some(total)
}
