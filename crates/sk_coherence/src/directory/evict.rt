//! Copies that go.
ghost use Rattle.std.specs.Prelude.{◌≡◌, ◌≢◌, ℕ, ◌+◌, ◌<◌, ◌≤◌, None, Some, true, false, IfSome, IsSome, IfOk, OnOk, OnErr};
ghost use Rattle.sk_ranges.specs.declared.state.State.TheVariants.{Owner};
ghost use Rattle.sk_spaces.specs.Spaces.{Changes, block_at};
ghost use Rattle.sk_copy_states.specs.Copies.{ReachesIn, home_in, store_in, state_in, pins_in};
ghost use Rattle.sk_copy_states.specs.Stores.{IsBlockOf};
ghost use Rattle.sk_coherence_laws.specs.Directory.{copy_at, store_at};
ghost use Rattle.sk_coherence_laws.specs.Adds.{Places};
ghost use Rattle.sk_coherence_laws.specs.Frees.{FreesSome};
ghost use Rattle.sk_coherence_laws.specs.HostBlocks.{home_at};
ghost use Rattle.sk_coherence_laws.specs.Moves.{CanMove, OwnsAt};
ghost use Rattle.sk_coherence_laws.specs.Serves.{Serves, GrowsAt};
ghost use Rattle.sk_coherence_laws.specs.Steps.{Traces, IsAlloc};
ghost use Rattle.sk_coherence_laws.specs.Traced.{TracesStep};
ghost use Rattle.sk_coherence.specs.Evicts.{OwnsNone, IsFar, IsBackHome, KeepsFar, MakesBack, Retreats, Evicts, TracesEviction};

use crate::directory::Directory;
use sk_base::Range;
use sk_copies::{CopyId, StoreId, Transfer};
use sk_copy_states::copies::remove;
use sk_copy_states::entries::Place;
use sk_copy_states::held::{Part, first_part};
use sk_copy_states::stores::forget;
use sk_spaces::{Block, Journal, Memory, Spaces, Step};
use std::alloc::Global;

impl<J: Journal> Directory<J> {
    /// Takes away a copy, with what it owns. The journal has room for the step.
    pub(crate) fn let_go(&mut self, alloc: Global, copy: CopyId)
        requires ready { self.old.owed + 1 ≤ self.old.ready }
        requires there { IsSome (copy_at self.old copy.id) }
        ensures freed { FreesSome self.old self.new copy.id }
        ensures ready { self.new.ready + 1 ≡ self.old.ready }
    {
        let Some(held) = self.copies.get(&copy.id) else {
            return;
        };
        let store = held.store;
        remove(&mut self.copies, copy.id);
        forget(&mut self.stores, store, copy.id);
        self.ready -= 1;
        free_ready(&mut self.spaces, alloc, copy);
    }

    /// Takes away a copy that owns nothing. The journal has room for the step.
    pub(crate) fn free(&mut self, alloc: Global, copy: CopyId)
        requires ready { self.old.owed + 1 ≤ self.old.ready }
        requires there { IsSome (copy_at self.old copy.id) }
        requires owns_none { (i : ℕ) → state_in (copy_at self.old copy.id) i ≢ Owner }
        ensures freed { FreesSome self.old self.new copy.id }
        ensures traced { TracesStep self.old self.new (Step.Free copy.id) }
    {
        self.is_sound();
        self.let_go(alloc, copy);
    }

    /// The store of a copy.
    pub(crate) fn store_of(&self, copy: CopyId) -> StoreId
        requires there { IsSome (copy_at self.now copy.id) }
        ensures { store_in (copy_at self.now copy.id) ≡ Some result.id }
    {
        let held = self.copies.get(&copy.id).unwrap();
        StoreId { id: held.store }
    }

    /// The block of a copy.
    fn block(&self, copy: CopyId) -> Range
        requires there { IsSome (copy_at self.now copy.id) }
        ensures { IfSome (copy_at self.now copy.id) (λ held. (result.lo ≡ held.lo) × (result.hi ≡ held.hi)) }
    {
        let held = self.copies.get(&copy.id).unwrap();
        Range {
            lo: held.lo,
            hi: held.hi,
        }
    }

    /// How a range of a copy's block begins: all owned, or not owned at all, up to an index.
    fn part(&self, copy: CopyId, range: Range) -> Part
        requires there { IsSome (copy_at self.now copy.id) }
        requires some { range.lo < range.hi }
        requires reaches { ReachesIn (copy_at self.now copy.id) range.lo range.hi }
        ensures begins { range.lo < result.hi }
        ensures within { result.hi ≤ range.hi }
        ensures owned { result.owned ≡ true → OwnsAt self.now copy.id range.lo result.hi }
        ensures other { result.owned ≡ false → OwnsNone (copy_at self.now copy.id) range.lo result.hi }
    {
        first_part(self.copies.get(&copy.id).unwrap(), range)
    }

    /// The host's copy of a block of a store, which is made where there is none.
    pub(crate) fn host_copy(
        &mut self,
        alloc: Global,
        store: StoreId,
        block: Range,
    ) -> Result<CopyId, Memory>
        requires there { IsSome (store_at self.old store.id) }
        requires block { IfSome (store_at self.old store.id) (IsBlockOf block.lo block.hi) }
        ensures home { IfOk result (λ copy. home_in (copy_at self.new copy.id)
            ≡ Some (home_at store.id 0 block.lo block.hi)) }
        ensures serves { Serves self.old self.new }
        ensures stays { (q : ℕ) → IsSome (copy_at self.old q) → GrowsAt self.old self.new q }
        ensures places { Places self.old self.new (home_at store.id 0 block.lo block.hi) }
        ensures traced { Traces (IsAlloc (home_at store.id 0 block.lo block.hi)) self.old self.new }
    {
        let place = Place {
            store: store.id,
            space: 0,
            block,
        };
        match self.place(alloc, place) {
            Ok(copy) => Ok(copy),
            Err(_) => Err(Memory),
        }
    }

    /// Where the beginning of indices that a copy owns goes back to: the host's copy with the host's block of the first of them,
    /// which is made where there is none, and as far as that block goes. The journal has room for a step more.
    fn way_back(&mut self, alloc: Global, copy: CopyId, run: Range) -> Result<Transfer, Memory>
        requires there { IsSome (copy_at self.old copy.id) }
        requires far { IsFar (copy_at self.old copy.id) }
        requires some { run.lo < run.hi }
        requires reaches { ReachesIn (copy_at self.old copy.id) run.lo run.hi }
        requires owns { OwnsAt self.old copy.id run.lo run.hi }
        ensures retreats { Retreats self.old self.new copy.id }
        ensures ready { OnOk result (self.new.owed + 1 ≤ self.new.ready) }
        ensures can { IfOk result (λ way. CanMove self.new way.from.id way.to.id way.range.lo way.range.hi) }
        ensures owns { IfOk result (λ way. OwnsAt self.new way.from.id way.range.lo way.range.hi) }
        ensures from { IfOk result (λ way. way.from.id ≡ copy.id) }
        ensures begins { IfOk result (λ way. way.range.lo ≡ run.lo) }
        ensures ends { IfOk result (λ way. (run.lo < way.range.hi) × (way.range.hi ≤ run.hi)) }
        ensures back { IfOk result (λ way. IfSome (home_in (copy_at self.new way.to.id)) (IsBackHome self.new copy.id)) }
    {
        self.is_sound();
        let store = self.store_of(copy);
        let block = self.host_block(store, run.lo);
        let hi = run.hi.min(block.hi);
        let to = self.host_copy(alloc, store, block)?;
        self.reserve(alloc, 1)?;
        Ok(Transfer {
            from: copy,
            to,
            range: Range { lo: run.lo, hi },
        })
    }

    /// Hands the beginning of indices that a copy owns back to the host; answers how far.
    fn hand_home(&mut self, alloc: Global, copy: CopyId, run: Range) -> Result<u32, Memory>
        requires there { IsSome (copy_at self.old copy.id) }
        requires far { IsFar (copy_at self.old copy.id) }
        requires some { run.lo < run.hi }
        requires reaches { ReachesIn (copy_at self.old copy.id) run.lo run.hi }
        requires owns { OwnsAt self.old copy.id run.lo run.hi }
        ensures retreats { Retreats self.old self.new copy.id }
        ensures part { IfOk result (λ hi. (run.lo < hi) × (hi ≤ run.hi) × OwnsNone (copy_at self.new copy.id) run.lo hi) }
    {
        self.is_sound();
        let way = self.way_back(alloc, copy, run)?;
        self.is_sound();
        self.hand_back(alloc, way)?;
        Ok(way.range.hi)
    }

    /// Hands the beginning of a range of a copy's block back to the host where it is owned; answers where the rest begins.
    fn retreat_next(&mut self, alloc: Global, copy: CopyId, rest: Range) -> Result<u32, Memory>
        requires there { IsSome (copy_at self.old copy.id) }
        requires far { IsFar (copy_at self.old copy.id) }
        requires some { rest.lo < rest.hi }
        requires reaches { ReachesIn (copy_at self.old copy.id) rest.lo rest.hi }
        ensures retreats { Retreats self.old self.new copy.id }
        ensures part { IfOk result (λ hi. (rest.lo < hi) × (hi ≤ rest.hi) × OwnsNone (copy_at self.new copy.id) rest.lo hi) }
    {
        let part = self.part(copy, rest);
        if !part.owned {
            return Ok(part.hi);
        }
        let run = Range {
            lo: rest.lo,
            hi: part.hi,
        };
        self.hand_home(alloc, copy, run)
    }

    /// Hands all that a copy owns back to the host.
    fn retreat(&mut self, alloc: Global, copy: CopyId) -> Result<(), Memory>
        requires there { IsSome (copy_at self.old copy.id) }
        requires far { IsFar (copy_at self.old copy.id) }
        ensures retreats { Retreats self.old self.new copy.id }
        ensures ok { OnOk result ((i : ℕ) → state_in (copy_at self.new copy.id) i ≢ Owner) }
    {
        self.is_sound();
        let block = self.block(copy);
        let mut lo = block.lo;
        'parts: while lo < block.hi {
            let next = self.retreat_next(alloc, copy, Range { lo, hi: block.hi })?;
            lo = next;
        }
        Ok(())
    }

    /// Takes a copy on a rank away that is not pinned. What it owns goes back to the host first, so that every index keeps an
    /// owner. Every other copy on a rank is as before.
    pub fn evict(&mut self, alloc: Global, copy: CopyId) -> Result<(), Memory>
        requires there { IsSome (copy_at self.old copy.id) }
        requires far { IsFar (copy_at self.old copy.id) }
        requires unpinned { pins_in (copy_at self.old copy.id) ≡ 0 }
        ensures ok { OnOk result (Evicts self.old self.new copy.id) }
        ensures serves { Serves self.old self.new }
        ensures others { KeepsFar self.old self.new copy.id }
        ensures made { MakesBack self.old self.new copy.id }
        ensures stands { OnErr result (IsSome (copy_at self.new copy.id)) }
        ensures traced { TracesEviction self.old self.new copy.id }
    {
        self.is_sound();
        self.retreat(alloc, copy)?;
        self.reserve(alloc, 1)?;
        self.is_sound();
        self.free(alloc, copy);
        Ok(())
    }
}

/// Takes a block away, where the journal has room.
fn free_ready<J: Journal>(spaces: &mut Spaces<J>, alloc: Global, copy: CopyId)
    requires there { IsSome (block_at spaces.old copy.id) }
    requires room { 0 < spaces.old.journal.spare }
    ensures { Changes spaces.old spaces.new copy.id None spaces.old.named (Step.Free copy.id) }
{
    let _ = spaces.free(alloc, Block { id: copy.id });
}
