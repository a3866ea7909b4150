//! Stale indices that are filled.
ghost use Rattle.std.specs.Prelude.{◌≡◌, ◌≢◌, ℕ, ◌+◌, ◌<◌, ◌≤◌, None, Some, IfSome, IfNone, IsSome, IfOk, OnOk, OnErr};
ghost use Rattle.sk_copy_states.specs.Copies.{KeepsStates, ReachesIn, state_in};
ghost use Rattle.sk_coherence_laws.specs.Directory.{copy_at};
ghost use Rattle.sk_coherence_laws.specs.Moves.{CanMove, IsStaleAt, IsSourceAt};
ghost use Rattle.sk_copy_states.specs.Sources.{MayRead};
ghost use Rattle.sk_coherence_laws.specs.Owned.{HasOwnerAt};
ghost use Rattle.sk_coherence_laws.specs.Serves.{Serves, GrowsAt};
ghost use Rattle.sk_coherence_laws.specs.Steps.{AreFilled};
ghost use Rattle.sk_coherence.specs.Later.{LieTogether, AreFilledBeside};

use crate::directory::Directory;
use sk_base::Range;
use sk_copies::{CopyId, Transfer};
use sk_copy_states::held::missing_in;
use sk_copy_states::sources::best;
use sk_spaces::{Journal, Memory};
use std::alloc::Global;

impl<J: Journal> Directory<J> {
    /// The first stale run of a range of a copy's block.
    pub(crate) fn missing(&self, copy: CopyId, range: Range) -> Option<Range>
        requires there { IsSome (copy_at self.now copy.id) }
        requires reaches { ReachesIn (copy_at self.now copy.id) range.lo range.hi }
        ensures none { IfNone result (MayRead (copy_at self.now copy.id) range.lo range.hi) }
        ensures some { IfSome result (λ run. run.lo < run.hi) }
        ensures within { IfSome result (λ run. (range.lo ≤ run.lo) × (run.hi ≤ range.hi)) }
        ensures earlier { IfSome result (λ run. MayRead (copy_at self.now copy.id) range.lo run.lo) }
        ensures stale { IfSome result (λ run. IsStaleAt self.now copy.id run.lo run.hi) }
    {
        missing_in(self.copies.get(&copy.id)?, range)
    }

    /// How the beginning of a stale run is filled: from the copy of least number in the same space that may be read there,
    /// or else from the owner; and as far as that is so.
    fn source(&self, to: CopyId, run: Range) -> Option<Transfer>
        requires there { IsSome (copy_at self.now to.id) }
        requires some { run.lo < run.hi }
        requires reaches { ReachesIn (copy_at self.now to.id) run.lo run.hi }
        requires stale { IsStaleAt self.now to.id run.lo run.hi }
        requires owned { HasOwnerAt self.now to.id run.lo }
        ensures some { IsSome result }
        ensures to { IfSome result (λ transfer. transfer.to.id ≡ to.id) }
        ensures begins { IfSome result (λ transfer. transfer.range.lo ≡ run.lo) }
        ensures within { IfSome result (λ transfer. (run.lo < transfer.range.hi) × (transfer.range.hi ≤ run.hi)) }
        ensures can { IfSome result (λ transfer.
            CanMove self.now transfer.from.id to.id run.lo transfer.range.hi) }
        ensures source { IfSome result (λ transfer.
            IsSourceAt self.now transfer.from.id to.id run.lo transfer.range.hi) }
    {
        let held = self.copies.get(&to.id)?;
        let store = self.stores.get(&held.store)?;
        let best = best(&self.copies, store.copies(), held.space, run);
        let from = best.id?;
        Some(Transfer {
            from: CopyId { id: from },
            to,
            range: Range {
                lo: run.lo,
                hi: best.hi,
            },
        })
    }

    /// Fills stale indices of a copy from the copy of its store from which they have to come.
    pub(crate) fn fill_from(&mut self, alloc: Global, transfer: Transfer) -> Result<(), Memory>
        requires can { CanMove self.old transfer.from.id transfer.to.id transfer.range.lo transfer.range.hi }
        requires missing { IsStaleAt self.old transfer.to.id transfer.range.lo transfer.range.hi }
        requires source { IsSourceAt self.old transfer.from.id transfer.to.id transfer.range.lo transfer.range.hi }
        requires some { transfer.range.lo < transfer.range.hi }
        ensures serves { Serves self.old self.new }
        ensures traced { AreFilled self.old self.new transfer.to.id transfer.range.lo transfer.range.hi }
        ensures grows { (q : ℕ) → GrowsAt self.old self.new q }
        ensures others { (q : ℕ) → q ≢ transfer.to.id → KeepsStates (copy_at self.old q) (copy_at self.new q) }
        ensures before { (i : ℕ) → i < transfer.range.lo →
            state_in (copy_at self.new transfer.to.id) i ≡ state_in (copy_at self.old transfer.to.id) i }
        ensures ok { OnOk result (MayRead (copy_at self.new transfer.to.id) transfer.range.lo transfer.range.hi) }
        ensures beside { LieTogether (copy_at self.old transfer.from.id) (copy_at self.old transfer.to.id) →
            AreFilledBeside self.old self.new transfer.to.id transfer.range.lo transfer.range.hi }
    {
        self.is_sound();
        self.reserve(alloc, 1)?;
        self.is_sound();
        self.fill(alloc, transfer)?;
        Ok(())
    }

    /// Fills the first part of a range that is missing, from one copy, if something is; then the rest begins behind it.
    fn fill_next(&mut self, alloc: Global, copy: CopyId, need: Range) -> Result<Option<u32>, Memory>
        requires there { IsSome (copy_at self.old copy.id) }
        requires reaches { ReachesIn (copy_at self.old copy.id) need.lo need.hi }
        requires owned { (i : ℕ) → need.lo ≤ i → i < need.hi → HasOwnerAt self.old copy.id i }
        ensures serves { Serves self.old self.new }
        ensures traced { AreFilled self.old self.new copy.id need.lo need.hi }
        ensures stays { GrowsAt self.old self.new copy.id }
        ensures grows { (q : ℕ) → GrowsAt self.old self.new q }
        ensures others { (q : ℕ) → q ≢ copy.id → KeepsStates (copy_at self.old q) (copy_at self.new q) }
        ensures all { IfOk result (λ rest. IfNone rest (MayRead (copy_at self.new copy.id) need.lo need.hi)) }
        ensures part { IfOk result (λ rest. IfSome rest (λ lo.
            (need.lo < lo) × (lo ≤ need.hi) × MayRead (copy_at self.new copy.id) need.lo lo)) }
    {
        self.is_sound();
        let Some(run) = self.missing(copy, need) else {
            return Ok(None);
        };
        let Some(transfer) = self.source(copy, run) else {
            return Err(Memory);
        };
        self.fill_from(alloc, transfer)?;
        Ok(Some(transfer.range.hi))
    }

    /// Fills what is missing of a range of a copy's block.
    pub(crate) fn fill_needed(
        &mut self,
        alloc: Global,
        copy: CopyId,
        need: Range,
    ) -> Result<(), Memory>
        requires there { IsSome (copy_at self.old copy.id) }
        requires reaches { ReachesIn (copy_at self.old copy.id) need.lo need.hi }
        requires owned { (i : ℕ) → need.lo ≤ i → i < need.hi → HasOwnerAt self.old copy.id i }
        ensures serves { Serves self.old self.new }
        ensures traced { AreFilled self.old self.new copy.id need.lo need.hi }
        ensures stays { GrowsAt self.old self.new copy.id }
        ensures grows { (q : ℕ) → GrowsAt self.old self.new q }
        ensures others { (q : ℕ) → q ≢ copy.id → KeepsStates (copy_at self.old q) (copy_at self.new q) }
        ensures ok { OnOk result (MayRead (copy_at self.new copy.id) need.lo need.hi) }
    {
        self.is_sound();
        let mut lo = need.lo;
        'parts: while lo < need.hi {
            let rest = Range { lo, hi: need.hi };
            match self.fill_next(alloc, copy, rest)? {
                Some(next) => lo = next,
                None => return Ok(()),
            }
        }
        Ok(())
    }
}
