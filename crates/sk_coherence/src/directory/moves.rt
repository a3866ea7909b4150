//! Cells that go from one copy of a store to another one.
ghost use Rattle.std.specs.Prelude.{◌≡◌, ℕ, ◌+◌, ◌<◌, ◌≤◌, None, Some, IfSome, IsSome, IfOk, OnOk, OnErr};
ghost use Rattle.sk_spaces.specs.Blocks.{Reaches, copied};
ghost use Rattle.sk_spaces.specs.Spaces.{Changes, block_at};
ghost use Rattle.sk_copy_states.specs.Stores.{changes_in};
ghost use Rattle.sk_coherence_laws.specs.Directory.{copy_at, store_at};
ghost use Rattle.sk_coherence_laws.specs.Moves.{CanMove, IsStaleAt, OwnsAt, Fills, HandsBack, Idles};
ghost use Rattle.sk_coherence_laws.specs.Traced.{TracesStep};

use crate::directory::Directory;
use sk_copies::{CopyId, Transfer};
use sk_copy_states::copies::{hand_over, reserve_one, set_one};
use sk_ranges::State;
use sk_spaces::{Block, Journal, Memory, Spaces, Step};
use std::alloc::Global;

impl<J: Journal> Directory<J> {
    /// For how many changes of its states a copy has to have room, with one more than those that are owed to writes.
    fn room_with_one(&self, copy: CopyId) -> Result<u32, Memory>
        requires there { IsSome (copy_at self.now copy.id) }
        ensures { IfOk result (λ n. IfSome (copy_at self.now copy.id) (λ held.
            n ≡ changes_in (store_at self.now held.store) + 1)) }
    {
        let Some(held) = self.copies.get(&copy.id) else {
            return Err(Memory);
        };
        let room = match self.stores.get(&held.store) {
            Some(store) => store.room(),
            None => 0,
        };
        room.checked_add(1).ok_or(Memory)
    }

    /// Fills stale indices of a copy from another copy of its store. The journal has room for the step.
    pub(crate) fn fill(&mut self, alloc: Global, transfer: Transfer) -> Result<(), Memory>
        requires ready { self.old.owed + 1 ≤ self.old.ready }
        requires can { CanMove self.old transfer.from.id transfer.to.id transfer.range.lo transfer.range.hi }
        requires missing { IsStaleAt self.old transfer.to.id transfer.range.lo transfer.range.hi }
        ensures ok { OnOk result (Fills self.old self.new transfer.from.id transfer.to.id transfer.range.lo transfer.range.hi) }
        ensures traced { OnOk result (TracesStep self.old self.new
            (Step.Copy transfer.from.id transfer.to.id transfer.range.lo transfer.range.hi)) }
        ensures err { OnErr result (Idles self.old self.new) }
    {
        let room = self.room_with_one(transfer.to)?;
        reserve_one(&mut self.copies, transfer.to.id, room)?;
        set_one(
            &mut self.copies,
            transfer.to.id,
            transfer.range,
            State::Valid,
        );
        self.ready -= 1;
        let step = Step::Copy {
            from: transfer.from.id,
            to: transfer.to.id,
            lo: transfer.range.lo,
            hi: transfer.range.hi,
        };
        move_as(&mut self.spaces, alloc, step, transfer);
        Ok(())
    }

    /// Makes a copy the owner of indices that another copy of its store owns, which is valid there from then on. The journal
    /// has room for the step.
    pub(crate) fn hand_back(&mut self, alloc: Global, transfer: Transfer) -> Result<(), Memory>
        requires ready { self.old.owed + 1 ≤ self.old.ready }
        requires can { CanMove self.old transfer.from.id transfer.to.id transfer.range.lo transfer.range.hi }
        requires owns { OwnsAt self.old transfer.from.id transfer.range.lo transfer.range.hi }
        ensures ok { OnOk result (HandsBack self.old self.new transfer.from.id transfer.to.id transfer.range.lo transfer.range.hi) }
        ensures traced { OnOk result (TracesStep self.old self.new
            (Step.Back transfer.from.id transfer.to.id transfer.range.lo transfer.range.hi)) }
        ensures err { OnErr result (Idles self.old self.new) }
    {
        let room = self.room_with_one(transfer.to)?;
        hand_over(
            &mut self.copies,
            transfer.from.id,
            transfer.to.id,
            transfer.range,
            room,
        )?;
        self.ready -= 1;
        let step = Step::Back {
            from: transfer.from.id,
            to: transfer.to.id,
            lo: transfer.range.lo,
            hi: transfer.range.hi,
        };
        move_as(&mut self.spaces, alloc, step, transfer);
        Ok(())
    }
}

/// Moves cells between two blocks under a name, where the journal has room.
fn move_as<J: Journal>(spaces: &mut Spaces<J>, alloc: Global, step: Step, transfer: Transfer)
    requires source { IsSome (block_at spaces.old transfer.from.id) }
    requires target { IsSome (block_at spaces.old transfer.to.id) }
    requires readable { IfSome (block_at spaces.old transfer.from.id) (Reaches transfer.range.lo transfer.range.hi) }
    requires writable { IfSome (block_at spaces.old transfer.to.id) (Reaches transfer.range.lo transfer.range.hi) }
    requires room { 0 < spaces.old.journal.spare }
    ensures { Changes spaces.old spaces.new transfer.to.id (copied transfer.range.lo transfer.range.hi
        (block_at spaces.old transfer.from.id) (block_at spaces.old transfer.to.id)) None step }
{
    spaces.named(step);
    let from = Block {
        id: transfer.from.id,
    };
    let to = Block { id: transfer.to.id };
    let _ = spaces.copy(alloc, from, to, transfer.range);
}
