//! Copies and stores that are not needed any more.
ghost use Rattle.std.specs.Prelude.{◌≡◌, ◌≢◌, ℕ, ◌+◌, ◌-◌, ◌<◌, ◌≤◌, true, false, length, None, Some, IfSome, IfNone, IsSome, IsOk, OnOk, OnErr};
ghost use Rattle.sk_ranges.specs.declared.state.State.TheVariants.{Owner};
ghost use Rattle.sk_copy_states.specs.Copies.{LiesAmong, HasRoomIn, home_in, store_in, state_in};
ghost use Rattle.sk_copy_states.specs.Stores.{changes_in, copies_in, len_in};
ghost use Rattle.sk_coherence_laws.specs.Directory.{copy_at, store_at};
ghost use Rattle.sk_coherence_laws.specs.Moves.{Idles};
ghost use Rattle.sk_coherence_laws.specs.Retires.{Stales, Thins, Retires, Closes, IsFreeing, IsRetiring, IsClosing, IsLikeBut, Leads};
ghost use Rattle.sk_coherence_laws.specs.Steps.{Traces};
ghost use Rattle.sk_coherence_laws.specs.Traced.{IsLike, TracesStep};
ghost use Rattle.sk_spaces.specs.Machine.{Machine};
ghost use Rattle.sk_messages.specs.Messages.{MessagesView, Spoils};
ghost use Rattle.sk_spaces.specs.Spaces.{Stays};

use crate::directory::{Directory, note_ready};
use sk_base::Range;
use sk_copies::{CopyId, StoreId};
use sk_copy_states::copies::{find_among, reserve_listed, stale_all};
use sk_copy_states::owners::is_owned;
use sk_copy_states::stores::remove;
use sk_spaces::{Journal, Memory, Step};
use std::alloc::Global;

impl<J: Journal> Directory<J> {
    /// Makes room in the journal to make indices of a store stale and to take all its copies away, besides what is owed.
    fn expect_steps(&mut self, alloc: Global, store: StoreId) -> Result<(), Memory>
        requires there { IsSome (store_at self.old store.id) }
        ensures ok { OnOk result (self.new.owed + (length (copies_in (store_at self.old store.id)) + 1) ≤ self.new.ready) }
        ensures kept { self.old.ready ≤ self.new.ready }
        ensures spaces { Stays self.old.spaces self.new.spaces self.old.spaces.named }
        ensures same { self.new ≡ record self.old { spaces = self.new.spaces; ready = self.new.ready } }
        ensures succeeds { self.old.owed + (length (copies_in (store_at self.old store.id)) + 1) ≤ self.old.ready → IsOk result }
    {
        let Some(listed) = self.stores.get(&store.id) else {
            return Err(Memory);
        };
        let Ok(count) = u32::try_from(listed.copies().len()) else {
            return Err(Memory);
        };
        let Some(steps) = count.checked_add(1) else {
            return Err(Memory);
        };
        self.reserve(alloc, steps)
    }

    /// Makes room for a change of the states of each of a store's copies, besides those that are owed to writes.
    fn expect_stale(&mut self, store: StoreId) -> Result<(), Memory>
        requires there { IsSome (store_at self.old store.id) }
        ensures idle { Idles self.old self.new }
        ensures ready { self.new.ready ≡ self.old.ready }
        ensures ok { OnOk result ((q : ℕ) → store_in (copy_at self.new q) ≡ Some store.id →
            HasRoomIn (changes_in (store_at self.new store.id) + 1) (copy_at self.new q)) }
    {
        let Some(listed) = self.stores.get(&store.id) else {
            return Err(Memory);
        };
        let Some(room) = listed.room().checked_add(1) else {
            return Err(Memory);
        };
        reserve_listed(&mut self.copies, listed.copies(), room)
    }

    /// A range becomes stale in each copy of a store. Each of them, and the journal, has room for it.
    fn make_stale(&mut self, store: StoreId, range: Range)
        requires there { IsSome (store_at self.old store.id) }
        requires inside { range.hi ≤ len_in (store_at self.old store.id) }
        requires room { (q : ℕ) → store_in (copy_at self.old q) ≡ Some store.id →
            HasRoomIn (changes_in (store_at self.old store.id) + 1) (copy_at self.old q) }
        requires ready { self.old.owed + 1 ≤ self.old.ready }
        ensures staled { Stales self.old self.new store.id range.lo range.hi }
        ensures ready { self.new.ready + 1 ≡ self.old.ready }
        ensures traced { TracesStep self.old self.new (Step.Stale store.id range.lo range.hi) }
    {
        let Some(listed) = self.stores.get(&store.id) else {
            return;
        };
        stale_all(&mut self.copies, listed.copies(), store.id, range);
        self.messages.spoil(store.id, range);
        self.ready -= 1;
        let step = Step::Stale {
            store: store.id,
            lo: range.lo,
            hi: range.hi,
        };
        note_ready(&mut self.spaces, self.alloc, step);
    }

    /// The first copy of a store that has all of its block in a range, if there is one. It looks at the store's copies alone.
    fn first_among(&self, store: StoreId, range: Range) -> Option<CopyId>
        requires there { IsSome (store_at self.now store.id) }
        ensures found { IfSome result (λ copy. LiesAmong store.id range.lo range.hi (home_in (copy_at self.now copy.id))) }
        ensures none { IfNone result ((q : ℕ) → LiesAmong store.id range.lo range.hi (home_in (copy_at self.now q)) → ⊥) }
    {
        let listed = self.stores.get(&store.id)?;
        let id = find_among(&self.copies, listed.copies(), store.id, range)?;
        Some(CopyId { id })
    }

    /// Takes the copies of a store away that have all of their block in a range, with what they own. The journal has room for
    /// the steps.
    fn free_among(&mut self, store: StoreId, range: Range)
        requires there { IsSome (store_at self.old store.id) }
        requires ready { self.old.owed + length (copies_in (store_at self.old store.id)) ≤ self.old.ready }
        ensures thins { Thins self.old self.new store.id range.lo range.hi }
        ensures gone { (q : ℕ) → LiesAmong store.id range.lo range.hi (home_in (copy_at self.new q)) → ⊥ }
        ensures traced { Leads (IsFreeing store.id range.lo range.hi) (λ m. IsLikeBut store.id range.lo range.hi m self.old)
            (λ m. IsLikeBut store.id range.lo range.hi m self.new) self.old self.new }
    {
        self.is_sound();
        'copies: while let Some(copy) = self.first_among(store, range) {
            self.is_sound();
            self.let_go(self.alloc, copy);
        }
    }

    /// A range becomes stale in each copy of a store, messages over it are spoilt, and the copies that have all of their block in it
    /// are freed.
    pub fn retire(&mut self, alloc: Global, store: StoreId, range: Range) -> Result<(), Memory>
        requires there { IsSome (store_at self.old store.id) }
        requires inside { range.hi ≤ len_in (store_at self.old store.id) }
        ensures ok { OnOk result (Retires self.old self.new store.id range.lo range.hi) }
        ensures err { OnErr result (Idles self.old self.new) }
        ensures traced { Traces (IsRetiring store.id range.lo range.hi) self.old self.new }
    {
        self.expect_steps(alloc, store)?;
        self.expect_stale(store)?;
        self.make_stale(store, range);
        self.is_sound();
        self.free_among(store, range);
        Ok(())
    }

    /// Whether a copy of a store owns an index. It looks at the store's copies alone.
    fn is_owned(&self, store: StoreId) -> bool
        requires there { IsSome (store_at self.now store.id) }
        ensures some { result ≡ true → (q : ℕ) × (i : ℕ)
            × (store_in (copy_at self.now q) ≡ Some store.id) × (state_in (copy_at self.now q) i ≡ Owner) }
        ensures none { result ≡ false → (q i : ℕ) →
            store_in (copy_at self.now q) ≡ Some store.id → state_in (copy_at self.now q) i ≢ Owner }
    {
        match self.stores.get(&store.id) {
            Some(listed) => is_owned(&self.copies, listed.copies()),
            None => false,
        }
    }

    /// The messages over a range of a store will not come. Where the store has no copies, each of them has lost its copy.
    fn forget_messages(&mut self, store: StoreId, range: Range)
        ensures spoilt { Spoils self.old.messages self.new.messages store.id range.lo range.hi }
        ensures same { self.new ≡ record self.old { messages = self.new.messages } }
        ensures traced { ((q : ℕ) → store_in (copy_at self.old q) ≢ Some store.id) →
            (m : Machine) → IsLike m self.old → IsLike m self.new }
    {
        self.messages.spoil(store.id, range);
    }

    /// Where an index of a store is owned, spoils the messages over the store and notes that all of its indices are stale. The
    /// journal has room for the step.
    fn give_up(&mut self, store: StoreId)
        requires there { IsSome (store_at self.old store.id) }
        requires ready { self.old.owed + 1 ≤ self.old.ready }
        ensures spoilt { (left : MessagesView) → Spoils self.new.messages left store.id 0 (len_in (store_at self.old store.id)) →
            Spoils self.old.messages left store.id 0 (len_in (store_at self.old store.id)) }
        ensures same { self.new ≡ record self.old { spaces = self.new.spaces; ready = self.new.ready; messages = self.new.messages } }
        ensures memories { self.new.spaces.memories ≡ self.old.spaces.memories }
        ensures ready { self.old.ready ≤ self.new.ready + 1 }
        ensures traced { Leads (IsClosing store.id (len_in (store_at self.old store.id))) (λ m. IsLike m self.old)
            (λ m. IsLikeBut store.id 0 (len_in (store_at self.old store.id)) m self.new) self.old self.new }
    {
        self.is_sound();
        if !self.is_owned(store) {
            return;
        }
        let hi = self.shape(store).cells();
        self.forget_messages(store, Range { lo: 0, hi });
        let step = Step::Stale {
            store: store.id,
            lo: 0,
            hi,
        };
        let _ = self.note(self.alloc, step);
    }

    /// Takes a store away that has no copies. What was owed to writes of it is not owed any more.
    fn forget_store(&mut self, store: StoreId)
        requires there { IsSome (store_at self.old store.id) }
        requires none { (q : ℕ) → store_in (copy_at self.old q) ≢ Some store.id }
        ensures gone { store_at self.new store.id ≡ None }
        ensures others { (t : ℕ) → t ≢ store.id → store_at self.new t ≡ store_at self.old t }
        ensures same { self.new ≡ record self.old {
          stores = self.new.stores;
          owed = self.old.owed - changes_in (store_at self.old store.id);
        } }
        ensures traced { (m : Machine) → IsLike m self.old → IsLike m self.new }
    {
        let Some(listed) = self.stores.get(&store.id) else {
            return;
        };
        self.owed = self.owed.saturating_sub(listed.room());
        remove(&mut self.stores, store.id);
    }

    /// Takes a store away with all of its copies. Where there is room for one step more than the store has copies, it takes no
    /// memory.
    pub fn close(&mut self, alloc: Global, store: StoreId) -> Result<(), Memory>
        requires there { IsSome (store_at self.old store.id) }
        ensures ok { OnOk result (Closes self.old self.new store.id) }
        ensures err { OnErr result (Idles self.old self.new) }
        ensures traced { Traces (IsClosing store.id (len_in (store_at self.old store.id))) self.old self.new }
        ensures succeeds { self.old.owed + (length (copies_in (store_at self.old store.id)) + 1) ≤ self.old.ready → IsOk result }
    {
        self.expect_steps(alloc, store)?;
        let whole = Range {
            lo: 0,
            hi: self.shape(store).cells(),
        };
        self.give_up(store);
        self.is_sound();
        self.free_among(store, whole);
        self.forget_messages(store, whole);
        self.forget_store(store);
        Ok(())
    }
}
