//! New copies.
ghost use Rattle.std.specs.Prelude.{◌≡◌, ◌≢◌, ℕ, ◌+◌, ◌-◌, ◌<◌, ◌≤◌, Some, None, IfSome, IsSome, IfOk, IfErr, IsErr, OnOk, OnErr};
ghost use Rattle.sk_spaces.specs.Memories.{LacksRoom};
ghost use Rattle.sk_spaces.specs.Spaces.{NotesStep, IsSpaceFault};
ghost use Rattle.sk_coherence_laws.specs.Directory.{copy_at, store_at};
ghost use Rattle.sk_copy_states.specs.Stores.{IsBlockOf};
ghost use Rattle.sk_coherence_laws.specs.Moves.{Idles};
ghost use Rattle.sk_coherence_laws.specs.Traced.{TracesStep};
ghost use Rattle.sk_coherence_laws.specs.Adds.{AddsSome, Places};
ghost use Rattle.sk_copy_states.specs.Copies.{home_in};
ghost use Rattle.sk_coherence_laws.specs.HostBlocks.{HasBlock, home_at};
ghost use Rattle.sk_coherence_laws.specs.Serves.{Serves, GrowsAt};
ghost use Rattle.sk_coherence_laws.specs.Steps.{Traces, IsAlloc};

use crate::directory::Directory;
use sk_copies::{CopyId, StoreId};
use sk_copy_states::entries::{Place, enter, leave};
use sk_spaces::{Journal, SpaceFault, Step};
use std::alloc::Global;

impl<J: Journal> Directory<J> {
    /// A new copy of a block of a store in a space, all stale and not pinned. The journal has room for the step.
    pub(crate) fn add_copy(&mut self, alloc: Global, place: Place) -> Result<CopyId, SpaceFault>
        requires ready { self.old.owed + 1 ≤ self.old.ready }
        requires there { IsSome (store_at self.old place.store) }
        requires block { IfSome (store_at self.old place.store) (IsBlockOf place.block.lo place.block.hi) }
        requires ranks { place.space ≤ self.old.spaces.memories.ranks }
        ensures ok { IfOk result (λ copy. AddsSome self.old self.new copy.id place.store place.space
            place.block.lo place.block.hi) }
        ensures traced { IfOk result (λ copy. TracesStep self.old self.new
            (Step.Alloc copy.id place.store place.space place.block.lo place.block.hi)) }
        ensures fault { IfErr result (λ fault. IsSpaceFault self.old.spaces place.space
            place.block.lo place.block.hi fault) }
        ensures noted { IfOk result (λ copy. NotesStep self.old.spaces self.new.spaces
            (Step.Alloc copy.id place.store place.space place.block.lo place.block.hi)) }
        ensures kept { IfOk result (λ copy. (self.new.owed ≡ self.old.owed) × (self.new.named ≡ self.old.named)) }
        ensures idle { OnErr result (Idles self.old self.new) }
    {
        let id = self.spaces.next();
        enter(&mut self.copies, &mut self.stores, alloc, id, place)?;
        match self
            .spaces
            .alloc(alloc, place.store, place.space, place.block)
        {
            Ok(_) => {
                self.ready -= 1;
                Ok(CopyId { id })
            }
            Err(fault) => {
                leave(&mut self.copies, &mut self.stores, id, place.store);
                Err(fault)
            }
        }
    }

    /// The copy of a store with exactly this block in a space, which is made where there is none; then it is all stale and not
    /// pinned.
    pub(crate) fn place(&mut self, alloc: Global, place: Place) -> Result<CopyId, SpaceFault>
        requires there { IsSome (store_at self.old place.store) }
        requires block { IfSome (store_at self.old place.store) (IsBlockOf place.block.lo place.block.hi) }
        requires ranks { place.space ≤ self.old.spaces.memories.ranks }
        ensures home { IfOk result (λ copy. home_in (copy_at self.new copy.id)
            ≡ Some (home_at place.store place.space place.block.lo place.block.hi)) }
        ensures serves { Serves self.old self.new }
        ensures stays { (q : ℕ) → IsSome (copy_at self.old q) → GrowsAt self.old self.new q }
        ensures traced { Traces (IsAlloc (home_at place.store place.space place.block.lo place.block.hi)) self.old self.new }
        ensures fault { IfErr result (λ fault. IsSpaceFault self.old.spaces place.space
            place.block.lo place.block.hi fault) }
        ensures places { Places self.old self.new (home_at place.store place.space place.block.lo place.block.hi) }
        ensures absent { IsErr result → HasBlock self.old place.store place.space place.block.lo place.block.hi → ⊥ }
    {
        self.is_sound();
        let store = StoreId { id: place.store };
        if let Some(copy) = self.find(store, place.space, place.block) {
            return Ok(copy);
        }
        self.reserve(alloc, 1)?;
        self.is_sound();
        let copy = self.add_copy(alloc, place)?;
        Ok(copy)
    }
}
