//! Room for new blocks.
ghost use Rattle.std.specs.Prelude.{◌≡◌, ℕ, ◌+◌, ◌<◌, ◌≤◌, IfOk, IfErr, IfSome, OnOk, IsTrue, ◌↔◌, IsSome, ◌-◌, ◌⊎◌, length, slice_index};
ghost use Rattle.sk_spaces.specs.Spaces.{used_at};
ghost use Rattle.sk_copy_states.specs.Copies.{pins_in};
ghost use Rattle.sk_copy_states.specs.Loose.{loose_in, pinned_in};
ghost use Rattle.sk_coherence_laws.specs.Directory.{copy_at, store_at};
ghost use Rattle.sk_coherence_laws.specs.HostBlocks.{HasBlock, home_at};
ghost use Rattle.sk_coherence_laws.specs.Serves.{Serves};
ghost use Rattle.sk_coherence_laws.specs.Steps.{Traces};
ghost use Rattle.sk_coherence.specs.Evicts.{IsIn, KeepsPinned, KeepsLeft, MakesHostBlocks};
ghost use Rattle.sk_coherence.specs.Room.{IsFull, IsShort, IsAcquireFault, IsEarly, IsGivingWay, IsMakingWay, MakesOnly};

use crate::directory::Directory;
use crate::faults::AcquireFault;
use sk_copies::{CopyId, StoreId};
use sk_copy_states::entries::Place;
use sk_copy_states::room::{loose, pinned};
use sk_parts::Chooser;
use sk_spaces::{Journal, Memory};
use std::alloc::Global;

impl<J: Journal> Directory<J> {
    /// Whether so many cells more would be too much in a rank's space.
    fn is_full(&self, space: u32, len: u32) -> bool
        requires far { 0 < space }
        requires ranks { space ≤ self.now.spaces.memories.ranks }
        ensures { IsTrue result ↔ IsFull self.now space len }
    {
        self.spaces.capacity() - self.spaces.used(space) < len
    }

    /// The pinned cells of a space are among those that are taken there. It changes nothing.
    fn pinned_are_taken(&self, space: u32)
        ensures { pinned_in space self.now.copies ≤ used_at self.now.spaces space }
    {
        let _copies = self.copies.len();
    }

    /// How many cells of a rank's space its pinned copies have together: no more than are taken there, so they can be counted.
    fn pinned(&self, space: u32) -> u32
        requires ranks { space ≤ self.now.spaces.memories.ranks }
        requires far { 0 < space }
        ensures { result ≡ pinned_in space self.now.copies }
    {
        self.pinned_are_taken(space);
        let used = self.spaces.used(space);
        pinned(&self.copies, space).unwrap_or(used)
    }

    /// The copy of a space that the chooser picks among those that are not pinned, counted in order of number.
    fn pick<C: Chooser>(&self, alloc: Global, space: u32, chooser: &mut C) -> Result<CopyId, Memory>
        requires far { 0 < space }
        ensures there { IfOk result (λ copy. IsSome (copy_at self.now copy.id)) }
        ensures far { IfOk result (λ copy. IsIn space (copy_at self.now copy.id)) }
        ensures unpinned { IfOk result (λ copy. pins_in (copy_at self.now copy.id) ≡ 0) }
        ensures listed { IfOk result (λ copy. (k : ℕ) × (k < length (loose_in space self.now.copies)) × (slice_index (loose_in space self.now.copies) k ≡ copy.id)) }
    {
        let ids = loose(&self.copies, alloc, space)?;
        let Ok(count) = u32::try_from(ids.len()) else {
            return Err(Memory);
        };
        if count == 0 {
            return Err(Memory);
        }
        let at = chooser.choose(count) as usize;
        Ok(CopyId { id: ids[at] })
    }

    /// One copy of a space goes, as the chooser picks.
    fn evict_one<C: Chooser>(
        &mut self,
        alloc: Global,
        space: u32,
        chooser: &mut C,
    ) -> Result<(), Memory>
        requires far { 0 < space }
        ensures serves { Serves self.old self.new }
        ensures pinned { KeepsPinned self.old self.new }
        ensures kept { OnOk result (KeepsLeft self.old self.new space) }
        ensures made { MakesHostBlocks self.old self.new }
        ensures less { OnOk result (used_at self.new.spaces space < used_at self.old.spaces space) }
        ensures traced { Traces (IsGivingWay self.old space (used_at self.old.spaces space)) self.old self.new }
    {
        self.is_sound();
        let copy = self.pick(alloc, space, chooser)?;
        self.evict(alloc, copy)?;
        Ok(())
    }

    /// Room for a block on a rank that no copy has: one copy there that is not pinned goes after another, while there is too little.
    fn make_room<C: Chooser>(
        &mut self,
        alloc: Global,
        place: Place,
        chooser: &mut C,
    ) -> Result<(), Memory>
        requires far { 0 < place.space }
        requires ranks { place.space ≤ self.old.spaces.memories.ranks }
        requires absent { HasBlock self.old place.store place.space place.block.lo place.block.hi → ⊥ }
        ensures serves { Serves self.old self.new }
        ensures pinned { KeepsPinned self.old self.new }
        ensures kept { OnOk result (KeepsLeft self.old self.new place.space) }
        ensures made { MakesHostBlocks self.old self.new }
        ensures traced { Traces (IsMakingWay self.old (home_at place.store place.space place.block.lo place.block.hi)) self.old self.new }
        ensures ok { OnOk result (IsFull self.new place.space (place.block.hi - place.block.lo) → ⊥) }
    {
        self.is_sound();
        'evictions: while self.is_full(place.space, place.block.len()) {
            self.evict_one(alloc, place.space, chooser)?;
        }
        Ok(())
    }

    /// Room for a block, if a copy with it has to be made on a rank.
    pub(crate) fn find_room<C: Chooser>(
        &mut self,
        alloc: Global,
        place: Place,
        chooser: &mut C,
    ) -> Result<(), AcquireFault>
        requires there { IsSome (store_at self.old place.store) }
        requires ranks { place.space ≤ self.old.spaces.memories.ranks }
        ensures serves { Serves self.old self.new }
        ensures pinned { KeepsPinned self.old self.new }
        ensures kept { OnOk result (KeepsLeft self.old self.new place.space) }
        ensures made { MakesOnly self.old self.new (home_at place.store place.space place.block.lo place.block.hi) }
        ensures traced { Traces (IsMakingWay self.old (home_at place.store place.space place.block.lo place.block.hi)) self.old self.new }
        ensures fault { IfErr result (IsAcquireFault self.old place.store place.space place.block.lo place.block.hi) }
        ensures early { IfErr result (IsEarly self.old self.new) }
        ensures fits { OnOk result (0 < place.space → HasBlock self.old place.store place.space place.block.lo place.block.hi ⊎ (IsFull self.new place.space (place.block.hi - place.block.lo) → ⊥)) }
        ensures long { OnOk result (IsShort self.old place.store place.space place.block.lo place.block.hi → ⊥) }
    {
        self.is_sound();
        let store = StoreId { id: place.store };
        if place.space == 0 {
            return Ok(());
        }
        if self.has_block(store, place.space, place.block) {
            return Ok(());
        }
        let need = place.block.len();
        if !self.is_full(place.space, need) {
            self.pinned_are_taken(place.space);
            return Ok(());
        }
        let capacity = self.capacity();
        let pinned = self.pinned(place.space);
        if exceeds(pinned, need, capacity) {
            return Err(AcquireFault::NoRoom {
                need,
                pinned,
                capacity,
            });
        }
        self.make_room(alloc, place, chooser)?;
        Ok(())
    }
}

/// Whether so many pinned cells and those that are needed would be more than there are.
fn exceeds(pinned: u32, need: u32, capacity: u32) -> bool
    ensures { IsTrue result ↔ (capacity < pinned + need) }
{
    u64::from(capacity) < u64::from(pinned) + u64::from(need)
}
