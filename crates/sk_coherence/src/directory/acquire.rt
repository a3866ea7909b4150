//! Copies that are acquired.
ghost use Rattle.std.specs.Prelude.{◌≡◌, ◌≢◌, ℕ, ◌+◌, ◌-◌, ◌<◌, ◌≤◌, Some, None, IfSome, IsSome, IfOk, IfErr, OnOk, OnErr};
ghost use Rattle.sk_copy_states.specs.Copies.{home_in, store_in, state_in, pins_in};
ghost use Rattle.sk_coherence_laws.specs.Directory.{copy_at, store_at};
ghost use Rattle.sk_copy_states.specs.Stores.{IsBlockOf};
ghost use Rattle.sk_copy_states.specs.Sources.{MayRead};
ghost use Rattle.sk_coherence_laws.specs.HostBlocks.{home_at};
ghost use Rattle.sk_coherence_laws.specs.Owned.{IsOwned};
ghost use Rattle.sk_coherence_laws.specs.Serves.{Serves};
ghost use Rattle.sk_coherence_laws.specs.Steps.{Traces, IsAlloc, IsServing};
ghost use Rattle.sk_coherence_laws.specs.Moves.{Idles};
ghost use Rattle.sk_coherence_laws.specs.Owes.{OwesWrite, AcquiresWrite};
ghost use Rattle.sk_coherence_laws.specs.Acquires.{PinsOne, Acquires, IsRoomFault};
ghost use Rattle.sk_coherence_laws.specs.Traced.{IsLike};
ghost use Rattle.sk_spaces.specs.Machine.{Machine};
ghost use Rattle.sk_coherence.specs.Evicts.{KeepsPinned, KeepsPinnedBut, KeepsLeft, KeepsLeftBut};
ghost use Rattle.sk_coherence.specs.Room.{IsShort, IsAcquireFault, IsEarly, IsYielding, IsDue, MakesOnly};

use crate::directory::Directory;
use crate::faults::AcquireFault;
use sk_base::Range;
use sk_copies::{CopyId, StoreId};
use sk_copy_states::copies::{pin, reserve_listed};
use sk_copy_states::entries::Place;
use sk_copy_states::stores::expect_write;
use sk_parts::Chooser;
use sk_spaces::{Journal, Memory, SpaceFault};
use std::alloc::Global;

impl<J: Journal> Directory<J> {
    /// Adds one pin to a copy.
    pub(crate) fn pin(&mut self, copy: CopyId) -> Result<(), Memory>
        requires there { IsSome (copy_at self.old copy.id) }
        ensures ok { OnOk result (PinsOne self.old self.new copy.id) }
        ensures err { OnErr result ((q : ℕ) → copy_at self.new q ≡ copy_at self.old q) }
        ensures same { self.new ≡ record self.old { copies = self.new.copies } }
        ensures traced { (m : Machine) → IsLike m self.old → IsLike m self.new }
    {
        pin(&mut self.copies, copy.id)
    }

    /// The copy with exactly this block in a space, pinned once more, which may be read where it is needed. It is made where there
    /// is none; no other copy gives way for it.
    pub(crate) fn acquire_here(
        &mut self,
        alloc: Global,
        place: Place,
        need: Range,
    ) -> Result<CopyId, SpaceFault>
        requires there { IsSome (store_at self.old place.store) }
        requires block { IfSome (store_at self.old place.store) (IsBlockOf place.block.lo place.block.hi) }
        requires ranks { place.space ≤ self.old.spaces.memories.ranks }
        requires above { place.block.lo ≤ need.lo }
        requires below { need.hi ≤ place.block.hi }
        requires owned { (i : ℕ) → need.lo ≤ i → i < need.hi → IsOwned self.old place.store i }
        ensures ok { IfOk result (λ copy. Acquires self.old self.new copy.id) }
        ensures home { IfOk result (λ copy. home_in (copy_at self.new copy.id)
            ≡ Some (home_at place.store place.space place.block.lo place.block.hi)) }
        ensures readable { IfOk result (λ copy. MayRead (copy_at self.new copy.id) need.lo need.hi) }
        ensures pinned { IfOk result (λ copy. 0 < pins_in (copy_at self.new copy.id)) }
        ensures others { KeepsPinnedBut self.old self.new (home_at place.store place.space place.block.lo place.block.hi) }
        ensures fault { IfErr result (IsRoomFault self.old place.store place.space place.block.lo place.block.hi) }
        ensures err { OnErr result (Serves self.old self.new) }
        ensures kept { OnOk result (KeepsLeftBut self.old self.new (home_at place.store place.space place.block.lo place.block.hi)) }
        ensures made { MakesOnly self.old self.new (home_at place.store place.space place.block.lo place.block.hi) }
        ensures traced { Traces (IsServing (home_at place.store place.space place.block.lo place.block.hi) need.lo need.hi) self.old self.new }
    {
        self.is_sound();
        let copy = self.place(alloc, place)?;
        self.fill_needed(alloc, copy, need)?;
        self.pin(copy)?;
        Ok(copy)
    }

    /// The copy with exactly this block in a space, pinned once more, which may be read where it is needed. It is made where there
    /// is none; on a rank other copies that are not pinned go for it, as the chooser picks, while there is too little room. Stale
    /// runs are filled from the copy of least number in the same space that may be read there, or else from the owner. This costs
    /// a look at each copy of the store for each part that comes from one copy, the moves of the cells, and, where copies give way,
    /// a walk over all copies for each of them.
    pub fn acquire_read<C: Chooser>(
        &mut self,
        alloc: Global,
        store: StoreId,
        space: u32,
        block: Range,
        need: Range,
        chooser: &mut C,
    ) -> Result<CopyId, AcquireFault>
        requires there { IsSome (store_at self.old store.id) }
        requires block { IfSome (store_at self.old store.id) (IsBlockOf block.lo block.hi) }
        requires ranks { space ≤ self.old.spaces.memories.ranks }
        requires above { block.lo ≤ need.lo }
        requires below { need.hi ≤ block.hi }
        requires owned { (i : ℕ) → need.lo ≤ i → i < need.hi → IsOwned self.old store.id i }
        ensures ok { IfOk result (λ copy. Acquires self.old self.new copy.id) }
        ensures home { IfOk result (λ copy. home_in (copy_at self.new copy.id)
            ≡ Some (home_at store.id space block.lo block.hi)) }
        ensures readable { IfOk result (λ copy. MayRead (copy_at self.new copy.id) need.lo need.hi) }
        ensures pinned { IfOk result (λ copy. 0 < pins_in (copy_at self.new copy.id)) }
        ensures others { KeepsPinnedBut self.old self.new (home_at store.id space block.lo block.hi) }
        ensures fault { IfErr result (IsAcquireFault self.old store.id space block.lo block.hi) }
        ensures early { IfErr result (IsEarly self.old self.new) }
        ensures short { OnOk result (IsShort self.old store.id space block.lo block.hi → ⊥) }
        ensures err { OnErr result (Serves self.old self.new) }
        ensures kept { OnOk result (KeepsLeftBut self.old self.new (home_at store.id space block.lo block.hi)) }
        ensures made { MakesOnly self.old self.new (home_at store.id space block.lo block.hi) }
        ensures traced { Traces (IsDue self.old (home_at store.id space block.lo block.hi) need.lo need.hi) self.old self.new }
    {
        self.is_sound();
        let place = Place {
            store: store.id,
            space,
            block,
        };
        self.find_room(alloc, place, chooser)?;
        match self.acquire_here(alloc, place, need) {
            Ok(copy) => Ok(copy),
            Err(_) => Err(AcquireFault::Memory),
        }
    }

    /// Pins a copy, and makes room for one write of its store, and for cells anew that may go before it: in the states of each of
    /// the store's copies and in the journal. They are owed from then on.
    fn owe_write(&mut self, store: StoreId, copy: CopyId) -> Result<(), Memory>
        requires ready { self.old.owed + 2 ≤ self.old.ready }
        requires there { IsSome (store_at self.old store.id) }
        requires copy { IsSome (copy_at self.old copy.id) }
        ensures ok { OnOk result (OwesWrite self.old self.new store.id copy.id) }
        ensures err { OnErr result (Idles self.old self.new) }
        ensures traced { (m : Machine) → IsLike m self.old → IsLike m self.new }
    {
        let Some(listed) = self.stores.get(&store.id) else {
            return Err(Memory);
        };
        let Some(room) = listed.room().checked_add(2) else {
            return Err(Memory);
        };
        reserve_listed(&mut self.copies, listed.copies(), room)?;
        pin(&mut self.copies, copy.id)?;
        expect_write(&mut self.stores, store.id);
        self.owed += 2;
        Ok(())
    }

    /// The copy with exactly this block in a space, pinned once more, with room for a write. It is made where there is none;
    /// nothing is filled, and no other copy gives way for it.
    pub(crate) fn acquire_write_here(
        &mut self,
        alloc: Global,
        place: Place,
    ) -> Result<CopyId, SpaceFault>
        requires there { IsSome (store_at self.old place.store) }
        requires block { IfSome (store_at self.old place.store) (IsBlockOf place.block.lo place.block.hi) }
        requires ranks { place.space ≤ self.old.spaces.memories.ranks }
        ensures ok { IfOk result (λ copy. AcquiresWrite self.old self.new place.store copy.id) }
        ensures home { IfOk result (λ copy. home_in (copy_at self.new copy.id)
            ≡ Some (home_at place.store place.space place.block.lo place.block.hi)) }
        ensures others { KeepsPinned self.old self.new }
        ensures fault { IfErr result (IsRoomFault self.old place.store place.space place.block.lo place.block.hi) }
        ensures err { OnErr result (Serves self.old self.new) }
        ensures kept { OnOk result (KeepsLeft self.old self.new place.space) }
        ensures made { MakesOnly self.old self.new (home_at place.store place.space place.block.lo place.block.hi) }
        ensures traced { Traces (IsAlloc (home_at place.store place.space place.block.lo place.block.hi)) self.old self.new }
    {
        self.is_sound();
        let copy = self.place(alloc, place)?;
        let store = StoreId { id: place.store };
        self.reserve(alloc, 2)?;
        self.owe_write(store, copy)?;
        Ok(copy)
    }

    /// The copy with exactly this block in a space, pinned once more, with room for one write of it, for cells anew that may go
    /// before it, and for one `unpin`. It is made where there is none, and nothing is filled; on a rank other copies that are not
    /// pinned go for it, as the chooser picks, while there is too little room.
    pub fn acquire_write<C: Chooser>(
        &mut self,
        alloc: Global,
        store: StoreId,
        space: u32,
        block: Range,
        chooser: &mut C,
    ) -> Result<CopyId, AcquireFault>
        requires there { IsSome (store_at self.old store.id) }
        requires block { IfSome (store_at self.old store.id) (IsBlockOf block.lo block.hi) }
        requires ranks { space ≤ self.old.spaces.memories.ranks }
        ensures ok { IfOk result (λ copy. AcquiresWrite self.old self.new store.id copy.id) }
        ensures home { IfOk result (λ copy. home_in (copy_at self.new copy.id)
            ≡ Some (home_at store.id space block.lo block.hi)) }
        ensures others { KeepsPinned self.old self.new }
        ensures fault { IfErr result (IsAcquireFault self.old store.id space block.lo block.hi) }
        ensures early { IfErr result (IsEarly self.old self.new) }
        ensures short { OnOk result (IsShort self.old store.id space block.lo block.hi → ⊥) }
        ensures err { OnErr result (Serves self.old self.new) }
        ensures kept { OnOk result (KeepsLeft self.old self.new space) }
        ensures made { MakesOnly self.old self.new (home_at store.id space block.lo block.hi) }
        ensures traced { Traces (IsYielding self.old (home_at store.id space block.lo block.hi)) self.old self.new }
    {
        self.is_sound();
        let place = Place {
            store: store.id,
            space,
            block,
        };
        self.find_room(alloc, place, chooser)?;
        match self.acquire_write_here(alloc, place) {
            Ok(copy) => Ok(copy),
            Err(_) => Err(AcquireFault::Memory),
        }
    }
}
