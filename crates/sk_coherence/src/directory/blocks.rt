//! Which blocks there are, and the host's block of an index.
ghost use Rattle.std.specs.Prelude.{◌≡◌, ℕ, ◌+◌, ◌*◌, ◌/◌, ◌<◌, ◌≤◌, ◌^◌, min, Some, IfSome, IfNone, IsSome, IsTrue, ◌↔◌};
ghost use Rattle.sk_base.specs.Shape.{cells_of};
ghost use Rattle.sk_copy_states.specs.Copies.{home_in};
ghost use Rattle.sk_coherence_laws.specs.Directory.{copy_at, store_at};
ghost use Rattle.sk_coherence_laws.specs.HostBlocks.{HasBlock, IsHostBlock, home_at};

use crate::directory::Directory;
use sk_base::Range;
use sk_copies::{CopyId, StoreId};
use sk_copy_states::copies;
use sk_spaces::Journal;

impl<J: Journal> Directory<J> {
    /// The copy of a store with exactly this block in a space, if there is one. It looks at the store's copies alone.
    pub(crate) fn find(&self, store: StoreId, space: u32, block: Range) -> Option<CopyId>
        requires there { IsSome (store_at self.now store.id) }
        ensures found { IfSome result (λ copy. home_in (copy_at self.now copy.id)
            ≡ Some (home_at store.id space block.lo block.hi)) }
        ensures none { IfNone result (HasBlock self.now store.id space block.lo block.hi → ⊥) }
    {
        let listed = self.stores.get(&store.id)?;
        let id = copies::find_block(&self.copies, listed.copies(), store.id, space, block)?;
        Some(CopyId { id })
    }

    /// Whether a copy of a store with exactly this block is in a space. It looks at the store's copies alone.
    pub fn has_block(&self, store: StoreId, space: u32, block: Range) -> bool
        requires there { IsSome (store_at self.now store.id) }
        ensures { IsTrue result ↔ HasBlock self.now store.id space block.lo block.hi }
    {
        match self.find(store, space, block) {
            Some(_) => true,
            None => false,
        }
    }

    /// The block of an index on the host: its tile, or the whole store.
    pub fn host_block(&self, store: StoreId, index: u32) -> Range
        requires there { IsSome (store_at self.now store.id) }
        requires inside { IfSome (store_at self.now store.id) (λ s. index < cells_of s.shape) }
        ensures block { IfSome (store_at self.now store.id) (λ s.
            IsHostBlock self.now store.id s index result.lo result.hi) }
        ensures above { result.lo ≤ index }
        ensures below { index < result.hi }
        ensures within { IfSome (store_at self.now store.id) (λ s. result.hi ≤ cells_of s.shape) }
    {
        let Some(listed) = self.stores.get(&store.id) else {
            return Range { lo: 0, hi: 0 };
        };
        let whole = Range {
            lo: 0,
            hi: listed.shape().cells(),
        };
        let Some(tile) = listed.tile() else {
            return whole;
        };
        if listed.is_rebound() {
            return whole;
        }
        if self.has_block(store, 0, whole) {
            return whole;
        }
        tile_of(index, tile, whole.hi)
    }
}

/// The tile of an index of a store with so many cells.
fn tile_of(index: u32, tile: u32, cells: u32) -> Range
    requires some { 0 < tile }
    requires inside { index < cells }
    ensures lo { result.lo ≡ index / tile * tile }
    ensures hi { result.hi ≡ min (result.lo + tile) cells }
    ensures above { result.lo ≤ index }
    ensures below { index < result.hi }
    ensures within { result.hi ≤ cells }
{
    let lo = index / tile * tile;
    Range {
        lo,
        hi: lo.saturating_add(tile).min(cells),
    }
}
