//! Copies that are acquired before all that is needed of them is there.
ghost use Rattle.std.specs.Prelude.{◌≡◌, ◌≢◌, ℕ, ◌+◌, ◌-◌, ◌<◌, ◌≤◌, ◌++◌, Some, IfSome, IfNone, IsSome, IfOk, IfErr, OnOk, OnErr, option_to_list};
ghost use Rattle.sk_copy_states.specs.Copies.{KeepsStates, ReachesIn, home_in, state_in, pins_in};
ghost use Rattle.sk_copy_states.specs.Stores.{IsBlockOf};
ghost use Rattle.sk_coherence_laws.specs.Directory.{copy_at, store_at};
ghost use Rattle.sk_coherence_laws.specs.HostBlocks.{home_at};
ghost use Rattle.sk_coherence_laws.specs.Moves.{CanMove, IsStaleAt, IsSourceAt};
ghost use Rattle.sk_coherence_laws.specs.Owned.{HasOwnerAt, IsOwned};
ghost use Rattle.sk_coherence_laws.specs.Serves.{Serves, GrowsAt};
ghost use Rattle.sk_coherence_laws.specs.Acquires.{Acquires};
ghost use Rattle.sk_coherence_laws.specs.Steps.{Traces};
ghost use Rattle.sk_coherence.specs.Evicts.{IsFar, KeepsFar, KeepsPinnedBut, KeepsLeftBut, MakesHostBlocks};
ghost use Rattle.sk_coherence.specs.Room.{IsShort, IsAcquireFault, IsEarly, IsDue, MakesOnly};
ghost use Rattle.sk_coherence.specs.Later.{LieTogether, IsAlone, IsToSend, AreLeft, IsLooked, IsServingLater, IsDueLater, AreServedLater, AreHosted};

use crate::directory::Directory;
use crate::faults::AcquireFault;
use sk_base::Range;
use sk_copies::{CopyId, StoreId, Transfer};
use sk_copy_states::entries::Place;
use sk_copy_states::sources::{Source, near};
use sk_parts::Chooser;
use sk_spaces::{Journal, Memory};
use std::alloc::Global;

/// Up to which index a range was looked at, and the message that is left to do for the end of what was, if there is one.
#[derive(Clone, Copy)]
struct Looked {
    hi: u32,
    transfer: Option<Transfer>,
}

/// Keeps a message that is left to do.
fn keep(transfers: &mut Vec<Transfer>, transfer: Option<Transfer>) -> Result<(), Memory>
    ensures { OnOk result (transfers.new.items ≡ transfers.old.items ++ option_to_list transfer) }
{
    if let Some(transfer) = transfer {
        transfers.push(transfer)?;
    }
    Ok(())
}

impl<J: Journal> Directory<J> {
    /// The copy of least number in the space of another one that may be read where a stale run of that one begins, if there is
    /// one, and up to which index that is so.
    fn near(&self, copy: CopyId, run: Range) -> Source
        requires there { IsSome (copy_at self.now copy.id) }
        requires some { run.lo < run.hi }
        requires reaches { ReachesIn (copy_at self.now copy.id) run.lo run.hi }
        requires stale { IsStaleAt self.now copy.id run.lo run.hi }
        ensures above { run.lo < result.hi }
        ensures below { result.hi ≤ run.hi }
        ensures can { IfSome result.id (λ from. CanMove self.now from copy.id run.lo result.hi) }
        ensures source { IfSome result.id (λ from. IsSourceAt self.now from copy.id run.lo result.hi) }
        ensures near { IfSome result.id (λ from. LieTogether (copy_at self.now from) (copy_at self.now copy.id)) }
        ensures none { IfNone result.id (IsAlone self.now copy.id run.lo result.hi) }
    {
        let space = self.copies.get(&copy.id).unwrap().space;
        let store = self.store_of(copy);
        match self.stores.get(&store.id) {
            Some(listed) => near(&self.copies, listed.copies(), space, run),
            None => Source {
                id: None,
                hi: run.hi,
            },
        }
    }

    /// The beginning of a stale run of a copy on a rank is made readable on the host, as far as the host's block goes; the message
    /// from there is left to do.
    fn leave(&mut self, alloc: Global, copy: CopyId, run: Range) -> Result<Transfer, Memory>
        requires there { IsSome (copy_at self.old copy.id) }
        requires far { IsFar (copy_at self.old copy.id) }
        requires some { run.lo < run.hi }
        requires reaches { ReachesIn (copy_at self.old copy.id) run.lo run.hi }
        requires missing { IsStaleAt self.old copy.id run.lo run.hi }
        requires alone { IsAlone self.old copy.id run.lo run.hi }
        requires owned { (i : ℕ) → run.lo ≤ i → i < run.hi → HasOwnerAt self.old copy.id i }
        ensures serves { Serves self.old self.new }
        ensures traced { AreHosted self.old self.new copy.id run.lo run.hi }
        ensures others { KeepsFar self.old self.new copy.id }
        ensures made { MakesHostBlocks self.old self.new }
        ensures grows { (q : ℕ) → IsSome (copy_at self.old q) → GrowsAt self.old self.new q }
        ensures kept { KeepsStates (copy_at self.old copy.id) (copy_at self.new copy.id) }
        ensures sends { IfOk result (λ transfer. IsToSend self.new copy.id transfer) }
        ensures begins { IfOk result (λ transfer. transfer.range.lo ≡ run.lo) }
        ensures within { IfOk result (λ transfer. transfer.range.hi ≤ run.hi) }
    {
        self.is_sound();
        let store = self.store_of(copy);
        let block = self.host_block(store, run.lo);
        let range = Range {
            lo: run.lo,
            hi: run.hi.min(block.hi),
        };
        let from = self.host_copy(alloc, store, block)?;
        self.fill_needed(alloc, from, range)?;
        Ok(Transfer {
            from,
            to: copy,
            range,
        })
    }

    /// The beginning of a range of a copy on a rank that is needed: it may be read, or is filled from a copy in the same space, or
    /// is left to a message.
    fn look(&mut self, alloc: Global, copy: CopyId, rest: Range) -> Result<Looked, Memory>
        requires there { IsSome (copy_at self.old copy.id) }
        requires far { IsFar (copy_at self.old copy.id) }
        requires some { rest.lo < rest.hi }
        requires reaches { ReachesIn (copy_at self.old copy.id) rest.lo rest.hi }
        requires owned { (i : ℕ) → rest.lo ≤ i → i < rest.hi → HasOwnerAt self.old copy.id i }
        ensures serves { Serves self.old self.new }
        ensures traced { AreServedLater self.old self.new copy.id rest.lo rest.hi }
        ensures others { KeepsFar self.old self.new copy.id }
        ensures made { MakesHostBlocks self.old self.new }
        ensures grows { (q : ℕ) → IsSome (copy_at self.old q) → GrowsAt self.old self.new q }
        ensures before { (i : ℕ) → i < rest.lo → state_in (copy_at self.new copy.id) i ≡ state_in (copy_at self.old copy.id) i }
        ensures looked { IfOk result (λ looked. IsLooked self.new copy.id rest.lo rest.hi looked.hi looked.transfer) }
    {
        let Some(run) = self.missing(copy, rest) else {
            return Ok(Looked {
                hi: rest.hi,
                transfer: None,
            });
        };
        let near = self.near(copy, run);
        let part = Range {
            lo: run.lo,
            hi: near.hi,
        };
        let Some(id) = near.id else {
            let transfer = self.leave(alloc, copy, part)?;
            return Ok(Looked {
                hi: transfer.range.hi,
                transfer: Some(transfer),
            });
        };
        let transfer = Transfer {
            from: CopyId { id },
            to: copy,
            range: part,
        };
        self.fill_from(alloc, transfer)?;
        Ok(Looked {
            hi: part.hi,
            transfer: None,
        })
    }

    /// What is needed of a copy on a rank is filled from its own space, and the messages for the rest are left to do.
    fn look_needed(
        &mut self,
        alloc: Global,
        copy: CopyId,
        need: Range,
    ) -> Result<Vec<Transfer>, Memory>
        requires there { IsSome (copy_at self.old copy.id) }
        requires far { IsFar (copy_at self.old copy.id) }
        requires reaches { ReachesIn (copy_at self.old copy.id) need.lo need.hi }
        requires owned { (i : ℕ) → need.lo ≤ i → i < need.hi → HasOwnerAt self.old copy.id i }
        ensures serves { Serves self.old self.new }
        ensures made { MakesHostBlocks self.old self.new }
        ensures traced { AreServedLater self.old self.new copy.id need.lo need.hi }
        ensures others { KeepsFar self.old self.new copy.id }
        ensures grows { (q : ℕ) → IsSome (copy_at self.old q) → GrowsAt self.old self.new q }
        ensures left { IfOk result (λ transfers. AreLeft self.new copy.id need.lo need.hi transfers.items) }
    {
        self.is_sound();
        let mut transfers = Vec::new(alloc);
        let mut lo = need.lo;
        'parts: while lo < need.hi {
            let looked = self.look(alloc, copy, Range { lo, hi: need.hi })?;
            keep(&mut transfers, looked.transfer)?;
            lo = looked.hi;
        }
        Ok(transfers)
    }

    /// The copy with exactly this block on a rank, pinned once more, and the messages that are left to do for what is needed of it.
    /// It is made where there is none; no other copy gives way for it.
    fn acquire_later_here(
        &mut self,
        alloc: Global,
        place: Place,
        need: Range,
    ) -> Result<(CopyId, Vec<Transfer>), Memory>
        requires there { IsSome (store_at self.old place.store) }
        requires far { 0 < place.space }
        requires block { IfSome (store_at self.old place.store) (IsBlockOf place.block.lo place.block.hi) }
        requires ranks { place.space ≤ self.old.spaces.memories.ranks }
        requires above { place.block.lo ≤ need.lo }
        requires below { need.hi ≤ place.block.hi }
        requires owned { (i : ℕ) → need.lo ≤ i → i < need.hi → IsOwned self.old place.store i }
        ensures ok { IfOk result (λ later. Acquires self.old self.new later.0.id) }
        ensures home { IfOk result (λ later. home_in (copy_at self.new later.0.id)
            ≡ Some (home_at place.store place.space place.block.lo place.block.hi)) }
        ensures left { IfOk result (λ later. AreLeft self.new later.0.id need.lo need.hi later.1.items) }
        ensures pinned { IfOk result (λ later. 0 < pins_in (copy_at self.new later.0.id)) }
        ensures others { KeepsPinnedBut self.old self.new (home_at place.store place.space place.block.lo place.block.hi) }
        ensures err { OnErr result (Serves self.old self.new) }
        ensures kept { OnOk result (KeepsLeftBut self.old self.new (home_at place.store place.space place.block.lo place.block.hi)) }
        ensures made { MakesOnly self.old self.new (home_at place.store place.space place.block.lo place.block.hi) }
        ensures traced { Traces (IsServingLater self.old (home_at place.store place.space place.block.lo place.block.hi) need.lo need.hi) self.old self.new }
    {
        self.is_sound();
        let copy = match self.place(alloc, place) {
            Ok(copy) => copy,
            Err(_) => return Err(Memory),
        };
        let transfers = self.look_needed(alloc, copy, need)?;
        self.pin(copy)?;
        Ok((copy, transfers))
    }

    /// The copy with exactly this block in a space, pinned once more, and the messages from the host that are left to do: they take
    /// exactly those of the needed indices that are still stale in it, each once. It is made where there is none; on a rank other
    /// copies that are not pinned go for it, as the chooser picks, while there is too little room. Stale runs are filled from the
    /// copy of least number in the same space that may be read there, or else are made readable in the host's block and left to
    /// messages; on the host it is `acquire_read`, and no message is left. It costs what `acquire_read` costs.
    pub fn acquire_later<C: Chooser>(
        &mut self,
        alloc: Global,
        store: StoreId,
        space: u32,
        block: Range,
        need: Range,
        chooser: &mut C,
    ) -> Result<(CopyId, Vec<Transfer>), AcquireFault>
        requires there { IsSome (store_at self.old store.id) }
        requires block { IfSome (store_at self.old store.id) (IsBlockOf block.lo block.hi) }
        requires ranks { space ≤ self.old.spaces.memories.ranks }
        requires above { block.lo ≤ need.lo }
        requires below { need.hi ≤ block.hi }
        requires owned { (i : ℕ) → need.lo ≤ i → i < need.hi → IsOwned self.old store.id i }
        ensures ok { IfOk result (λ later. Acquires self.old self.new later.0.id) }
        ensures home { IfOk result (λ later. home_in (copy_at self.new later.0.id)
            ≡ Some (home_at store.id space block.lo block.hi)) }
        ensures left { IfOk result (λ later. AreLeft self.new later.0.id need.lo need.hi later.1.items) }
        ensures pinned { IfOk result (λ later. 0 < pins_in (copy_at self.new later.0.id)) }
        ensures others { KeepsPinnedBut self.old self.new (home_at store.id space block.lo block.hi) }
        ensures fault { IfErr result (IsAcquireFault self.old store.id space block.lo block.hi) }
        ensures early { IfErr result (IsEarly self.old self.new) }
        ensures short { OnOk result (IsShort self.old store.id space block.lo block.hi → ⊥) }
        ensures err { OnErr result (Serves self.old self.new) }
        ensures kept { OnOk result (KeepsLeftBut self.old self.new (home_at store.id space block.lo block.hi)) }
        ensures made { MakesOnly self.old self.new (home_at store.id space block.lo block.hi) }
        ensures host { space ≡ 0 → Traces (IsDue self.old (home_at store.id space block.lo block.hi) need.lo need.hi) self.old self.new }
        ensures far { 0 < space → Traces (IsDueLater self.old (home_at store.id space block.lo block.hi) need.lo need.hi) self.old self.new }
    {
        if space == 0 {
            let copy = self.acquire_read(alloc, store, space, block, need, chooser)?;
            return Ok((copy, Vec::new(alloc)));
        }
        self.is_sound();
        let place = Place {
            store: store.id,
            space,
            block,
        };
        self.find_room(alloc, place, chooser)?;
        match self.acquire_later_here(alloc, place, need) {
            Ok(later) => Ok(later),
            Err(_) => Err(AcquireFault::Memory),
        }
    }
}
