//! Messages between two copies of a store in two spaces.
ghost use Rattle.std.specs.Prelude.{◌≡◌, ◌≢◌, ℕ, ◌+◌, ◌-◌, ◌<◌, ◌≤◌, [], ◌∷◌, map, slice_get, IfSome, IsSome, Some, None, OnOk, OnErr};
ghost use Rattle.sk_spaces.specs.Machine.{Machine};
ghost use Rattle.sk_spaces.specs.Blocks.{IsWhole, Reaches, cells_at};
ghost use Rattle.sk_spaces.specs.Spaces.{Stays, block_at};
ghost use Rattle.sk_copy_states.specs.Copies.{ExpectsMore, pins_in};
ghost use Rattle.sk_copy_states.specs.Stores.{changes_in};
ghost use Rattle.sk_messages.specs.Messages.{Puts, IsSame};
ghost use Rattle.sk_coherence_laws.specs.Directory.{copy_at, store_at, mail_at};
ghost use Rattle.sk_coherence_laws.specs.Moves.{CanMove, IsStaleAt};
ghost use Rattle.sk_coherence_laws.specs.Sends.{HasSends, KeepsSends, AddsSends, UsesSend, MakesRoom, LieApart, Sends, Delivers, count_in};
ghost use Rattle.sk_coherence_laws.specs.Traced.{IsLike, TracesStep};

use crate::directory::{Directory, note_ready, put};
use sk_base::Range;
use sk_copies::{CopyId, Transfer};
use sk_copy_states::copies::{expect_one, fill_one};
use sk_messages::{Messages, Sent};
use sk_spaces::{Block, Journal, Memory, Spaces, Step};
use std::alloc::Global;

impl<J: Journal> Directory<J> {
    /// For how many changes of a copy's states there is room besides messages to it: those that are owed to writes.
    fn owed_changes(&self, copy: CopyId) -> u32
        requires there { IsSome (copy_at self.now copy.id) }
        ensures { IfSome (copy_at self.now copy.id) (λ held. result ≡ changes_in (store_at self.now held.store)) }
    {
        let store = self.copies.get(&copy.id).unwrap().store;
        match self.stores.get(&store) {
            Some(store) => store.room(),
            None => 0,
        }
    }

    /// Makes room for a message more to a copy.
    fn expect_message(&mut self, copy: CopyId) -> Result<(), Memory>
        requires there { IsSome (copy_at self.old copy.id) }
        ensures ok { OnOk result (ExpectsMore 1 (copy_at self.old copy.id) (copy_at self.new copy.id)) }
        ensures err { OnErr result ((q : ℕ) → copy_at self.new q ≡ copy_at self.old q) }
        ensures others { (q : ℕ) → q ≢ copy.id → copy_at self.new q ≡ copy_at self.old q }
        ensures same { self.new ≡ record self.old { copies = self.new.copies } }
        ensures traced { (m : Machine) → IsLike m self.old → IsLike m self.new }
    {
        let room = self.owed_changes(copy);
        expect_one(&mut self.copies, copy.id, room)?;
        Ok(())
    }

    /// Makes room in the journal for so many steps of messages more.
    fn set_aside(&mut self, alloc: Global, steps: u32) -> Result<(), Memory>
        ensures ok { OnOk result (self.new.aside ≡ self.old.aside + steps) }
        ensures err { OnErr result (self.new.aside ≡ self.old.aside) }
        ensures spaces { Stays self.old.spaces self.new.spaces self.old.spaces.named }
        ensures same { self.new ≡ record self.old { spaces = self.new.spaces; aside = self.new.aside } }
        ensures traced { (m : Machine) → IsLike m self.old → IsLike m self.new }
    {
        let Some(aside) = self.aside.checked_add(steps) else {
            return Err(Memory);
        };
        let Some(all) = self.ready.checked_add(aside) else {
            return Err(Memory);
        };
        self.spaces.reserve(alloc, all)?;
        self.aside = aside;
        Ok(())
    }

    /// Makes room for so many messages more, with so many cells in all, but not for their steps.
    fn expect_cells(&mut self, count: u32, cells: u32) -> Result<(), Memory>
        ensures room { OnOk result (self.new.messages.room ≡ self.old.messages.room + count) }
        ensures cells { OnOk result (self.new.messages.cells ≡ self.old.messages.cells + cells) }
        ensures err_room { OnErr result (self.new.messages.room ≡ self.old.messages.room) }
        ensures err_cells { OnErr result (self.new.messages.cells ≡ self.old.messages.cells) }
        ensures messages { IsSame self.old.messages self.new.messages }
        ensures same { self.new ≡ record self.old { messages = self.new.messages } }
        ensures traced { (m : Machine) → IsLike m self.old → IsLike m self.new }
    {
        self.messages.reserve(count, cells)?;
        Ok(())
    }

    /// Makes room for so many messages more, with so many cells in all: for the messages themselves, and for their steps.
    fn expect_messages(&mut self, alloc: Global, count: u32, cells: u32) -> Result<(), Memory>
        ensures aside { OnOk result (self.new.aside ≡ self.old.aside + (count + count)) }
        ensures room { OnOk result (self.new.messages.room ≡ self.old.messages.room + count) }
        ensures cells { OnOk result (self.new.messages.cells ≡ self.old.messages.cells + cells) }
        ensures kept { KeepsSends self.old self.new }
        ensures makes { MakesRoom self.old self.new }
        ensures copies { self.new.copies ≡ self.old.copies }
        ensures traced { (m : Machine) → IsLike m self.old → IsLike m self.new }
    {
        let Some(steps) = count.checked_add(count) else {
            return Err(Memory);
        };
        self.set_aside(alloc, steps)?;
        self.expect_cells(count, cells)?;
        Ok(())
    }

    /// Makes room for one message to each listed copy, with so many cells in all, besides the messages for which there is room
    /// already. A copy may be listed several times. The room is for the messages and their cells, for the steps of their sending
    /// and delivery, and for their changes of the copies' states; what is not used stays. Where memory is wanting, there may be
    /// more room than before. The cost is a look at each listed copy, and one at each message since the last time when none was
    /// in flight, which are forgotten where none is.
    pub fn reserve_sends(&mut self, alloc: Global, to: &[CopyId], cells: u32) -> Result<(), Memory>
        requires there { (k : ℕ) → IfSome (slice_get to.now k) (λ copy. IsSome (copy_at self.old copy.id)) }
        ensures ok { OnOk result (AddsSends self.old self.new (map (λ copy. copy.id) to.now) cells) }
        ensures kept { KeepsSends self.old self.new }
        ensures makes { MakesRoom self.old self.new }
        ensures traced { (m : Machine) → IsLike m self.old → IsLike m self.new }
    {
        let Ok(count) = u32::try_from(to.len()) else {
            return Err(Memory);
        };
        self.expect_messages(alloc, count, cells)?;
        self.expect_each(to)?;
        Ok(())
    }

    /// Makes room for a message more to each listed copy.
    fn expect_each(&mut self, to: &[CopyId]) -> Result<(), Memory>
        requires there { (k : ℕ) → IfSome (slice_get to.now k) (λ copy. IsSome (copy_at self.old copy.id)) }
        ensures ok { OnOk result ((q : ℕ) → ExpectsMore (count_in q (map (λ copy. copy.id) to.now)) (copy_at self.old q) (copy_at self.new q)) }
        ensures makes { (q : ℕ) → (more : ℕ) × ExpectsMore more (copy_at self.old q) (copy_at self.new q) }
        ensures same { self.new ≡ record self.old { copies = self.new.copies } }
        ensures traced { (m : Machine) → IsLike m self.old → IsLike m self.new }
    {
        'copies: for at in 0..to.len() {
            let copy = to[at];
            self.expect_message(copy)?;
        }
        Ok(())
    }

    /// Sends cells from one copy to another one of its store in another space, and gives the number of the message, which no
    /// other has. It takes no memory: there is room for the message. The cost is one move of the cells.
    pub fn send(&mut self, transfer: &Transfer) -> u64
        requires can { CanMove self.old transfer.now.from.id transfer.now.to.id transfer.now.range.lo transfer.now.range.hi }
        requires apart { LieApart self.old transfer.now.from.id transfer.now.to.id }
        requires stale { IsStaleAt self.old transfer.now.to.id transfer.now.range.lo transfer.now.range.hi }
        requires pinned { 0 < pins_in (copy_at self.old transfer.now.to.id) }
        requires room { HasSends self.old (transfer.now.to.id ∷ []) (transfer.now.range.hi - transfer.now.range.lo) }
        ensures sent { Sends self.old self.new result transfer.now.from.id transfer.now.to.id transfer.now.range.lo transfer.now.range.hi }
        ensures left { UsesSend self.old self.new transfer.now.to.id (transfer.now.range.hi - transfer.now.range.lo) }
        ensures traced { TracesStep self.old self.new
            (Step.Send result transfer.now.from.id transfer.now.to.id transfer.now.range.lo transfer.now.range.hi) }
    {
        let held = self.copies.get(&transfer.from.id).unwrap();
        let sent = Sent {
            store: held.store,
            target: transfer.to.id,
            range: transfer.range,
        };
        let message = put_from(
            &mut self.messages,
            &self.spaces,
            sent,
            transfer.from,
            held.lo,
        );
        self.aside -= 1;
        let step = Step::Send {
            message,
            from: transfer.from.id,
            to: transfer.to.id,
            lo: transfer.range.lo,
            hi: transfer.range.hi,
        };
        note_ready(&mut self.spaces, self.alloc, step);
        message
    }

    /// A message comes to its copy, which is valid then where it was stale, with the cells of the sending; what the copy owns
    /// keeps its cells. The message is in flight: none of its indices was written or made stale since it was sent. It takes no
    /// memory. The cost is one move of the cells, and the change of the copy's states.
    pub fn deliver(&mut self, message: u64)
        requires flying { IsSome (mail_at self.old message) }
        requires there { IfSome (mail_at self.old message) (λ mail. IsSome (copy_at self.old mail.target)) }
        ensures delivered { IfSome (mail_at self.old message) (Delivers self.old self.new message) }
        ensures left { KeepsSends self.old self.new }
        ensures traced { TracesStep self.old self.new (Step.Deliver message) }
    {
        let Some(sent) = self.messages.get(message) else {
            return;
        };
        fill_one(&mut self.copies, sent.target, sent.range);
        self.aside -= 1;
        put(
            &mut self.spaces,
            Step::Deliver { message },
            self.alloc,
            CopyId { id: sent.target },
            sent.range.lo,
            self.messages.cells(message),
        );
        self.messages.take(message);
    }
}

/// Puts a message with the cells of a block in flight. The block's first index is `first`.
fn put_from<J: Journal>(
    messages: &mut Messages,
    spaces: &Spaces<J>,
    sent: Sent,
    from: CopyId,
    first: u32,
) -> u64
    requires there { IsSome (block_at spaces.now from.id) }
    requires first { IfSome (block_at spaces.now from.id) (λ block. block.lo ≡ first) }
    requires whole { IfSome (block_at spaces.now from.id) IsWhole }
    requires reaches { IfSome (block_at spaces.now from.id) (Reaches sent.range.lo sent.range.hi) }
    requires room { 0 < messages.old.room }
    requires cells { sent.range.hi - sent.range.lo ≤ messages.old.cells }
    ensures { IfSome (block_at spaces.now from.id) (λ block. Puts messages.old messages.new result (record {
      store = sent.store;
      target = sent.target;
      lo = sent.range.lo;
      hi = sent.range.hi;
      cells = cells_at block sent.range.lo sent.range.hi;
    })) }
{
    let cells = spaces.cells(Block { id: from.id });
    let lo = (sent.range.lo - first) as usize;
    let hi = (sent.range.hi - first) as usize;
    messages.put(sent, &cells[lo..hi])
}
