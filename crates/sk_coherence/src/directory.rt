//! The directory.
ghost use Rattle.std.specs.Prelude.{◌≡◌, ◌≢◌, ℕ, ◌+◌, ◌-◌, ◌<◌, ◌≤◌, [], min, length, slice_index, Some, None, IfSome, IsSome, IfOk, IsOk, OnOk, OnErr, IsTrue, ◌↔◌, option_map};
ghost use Rattle.sk_spaces.specs.Blocks.{Reaches, written};
ghost use Rattle.sk_spaces.specs.Spaces.{Stays, OnlyNotes, Changes, block_at};
ghost use Rattle.sk_copy_states.specs.Copies.{ReachesIn, OwnsAlone, store_in};
ghost use Rattle.sk_copy_states.specs.Stores.{UsesWrite, changes_in, opened};
ghost use Rattle.sk_coherence_laws.specs.Directory.{DirectoryView, IsSound, copy_at, store_at, cells_of_copy};
ghost use Rattle.sk_coherence_laws.specs.Writes.{WritesCopy, SameRoom};
ghost use Rattle.sk_coherence_laws.specs.Traced.{IsLike, TracesWrite, TracesStep, Opens};
ghost use Rattle.sk_spaces.specs.declared.step.Step.{Step};
ghost use Rattle.sk_coherence.specs.Evicts.{IsOnHost};
ghost use Rattle.sk_coherence.specs.Named.{SaysWrite};
ghost use Rattle.sk_spaces.specs.Machine.{Machine};

mod acquire;
mod add;
mod blocks;
mod evict;
mod fill;
mod later;
mod messages;
mod moves;
mod rebind;
mod retire;
mod room;

use sk_base::{Cell, Range, Shape, Ty};
use sk_copies::{CopyId, StoreId};
use sk_copy_states::copies::{own_alone, unpin};
use sk_copy_states::held::Held;
use sk_copy_states::store::Store;
use sk_copy_states::stores::{insert, use_write};
use sk_messages::Messages;
use sk_spaces::{Block, Journal, Memory, Spaces, Step};
use std::alloc::Global;
use std::collections::BTreeMap;
use std::marker::Model;

/// The stores and their copies, and the messages between them, over the memories of a run.
#[derive(Drop)]
pub struct Directory<J: Journal> {
    spaces: Spaces<J>,
    copies: BTreeMap<u64, Held>,
    stores: BTreeMap<u64, Store>,
    next: u64,
    ready: u32,
    owed: u32,
    named: Option<Step>,
    messages: Messages,
    aside: u32,
    alloc: Global,
}

impl<J: Journal> Model for Directory<J> {
    ghost use Rattle.sk_coherence_laws.specs.Directory.{DirectoryView, IsSound};

    ghost Value = { DirectoryView };

    ghost view = { λ d. record {
      spaces = d.spaces;
      copies = d.copies.entries;
      stores = d.stores.entries;
      next = d.next;
      ready = d.ready;
      owed = d.owed;
      named = d.named;
      messages = d.messages;
      aside = d.aside;
    } };

    ghost invariant = { λ d. IsSound (record {
      spaces = d.spaces;
      copies = d.copies.entries;
      stores = d.stores.entries;
      next = d.next;
      ready = d.ready;
      owed = d.owed;
      named = d.named;
      messages = d.messages;
      aside = d.aside;
    }) };
}

impl<J: Journal> Directory<J> {
    /// A directory without stores, over memories without blocks. The allocator is kept, and asked for nothing.
    pub fn new(alloc: Global, spaces: Spaces<J>) -> Directory<J>
        requires empty { spaces.memories.blocks ≡ [] }
        ensures { result ≡ record {
          spaces = spaces;
          copies = [];
          stores = [];
          next = 0;
          ready = 0;
          owed = 0;
          named = None;
          messages = record { first = 0; mails = []; room = 0; cells = 0 };
          aside = 0;
        } }
    {
        Directory {
            spaces,
            copies: BTreeMap::new(alloc),
            stores: BTreeMap::new(alloc),
            next: 0,
            ready: 0,
            owed: 0,
            named: None,
            messages: Messages::new(alloc),
            aside: 0,
            alloc,
        }
    }

    /// The cells that each rank's space has.
    pub fn capacity(&self) -> u32
        ensures { result ≡ self.now.spaces.memories.capacity }
    {
        self.spaces.capacity()
    }

    /// The sizes of a store.
    pub fn shape(&self, store: StoreId) -> &Shape
        requires there { IsSome (store_at self.now store.id) }
        ensures { IfSome (store_at self.now store.id) (λ s. result.now ≡ s.shape) }
    {
        self.stores.get(&store.id).unwrap().shape()
    }

    /// All cells of a copy, in the order of its block. Those of stale indices may be any.
    pub fn cells(&self, copy: CopyId) -> &[Cell]
        requires there { IsSome (copy_at self.now copy.id) }
        ensures { IfSome (cells_of_copy self.now copy.id) (λ block. result.now ≡ block.cells) }
    {
        self.spaces.cells(Block { id: copy.id })
    }

    /// Gives the step as which the next `release_write` is noted: its copy, range and cells are those of that write.
    pub fn named(&mut self, step: Step)
        ensures { self.new ≡ record self.old { named = Some step } }
    {
        self.named = Some(step);
    }

    /// What is true of every directory. It changes nothing.
    pub fn is_sound(&self)
        ensures { IsSound self.now }
    {
        let _next = self.next;
    }

    /// Gives the journal back.
    pub fn finish(self) -> J
        ensures { J.means result ≡ self.spaces.journal }
    {
        let Directory {
            spaces,
            copies: _,
            stores: _,
            next: _,
            ready: _,
            owed: _,
            named: _,
            messages: _,
            aside: _,
            alloc: _,
        } = self;
        spaces.finish()
    }

    /// Makes room for so many steps besides those that are owed, and those of messages; room that is there already counts.
    pub fn reserve(&mut self, alloc: Global, n: u32) -> Result<(), Memory>
        ensures ok { OnOk result (self.new.owed + n ≤ self.new.ready) }
        ensures kept { self.old.ready ≤ self.new.ready }
        ensures spaces { Stays self.old.spaces self.new.spaces self.old.spaces.named }
        ensures same { self.new ≡ record self.old { spaces = self.new.spaces; ready = self.new.ready } }
        ensures succeeds { self.old.owed + n ≤ self.old.ready → IsOk result }
        ensures traced { (m : Machine) → IsLike m self.old → IsLike m self.new }
    {
        if n <= self.ready - self.owed {
            return Ok(());
        }
        let Some(all) = self.owed.checked_add(n) else {
            return Err(Memory);
        };
        let Some(steps) = all.checked_add(self.aside) else {
            return Err(Memory);
        };
        self.spaces.reserve(alloc, steps)?;
        self.ready = all;
        Ok(())
    }

    /// Notes a step that writes no cell. Where there is room for a step besides those that are owed, it takes no memory.
    pub fn note(&mut self, alloc: Global, step: Step) -> Result<(), Memory>
        ensures ok { OnOk result (OnlyNotes self.old.spaces self.new.spaces step) }
        ensures err { OnErr result (Stays self.old.spaces self.new.spaces self.old.spaces.named) }
        ensures same { self.new ≡ record self.old { spaces = self.new.spaces; ready = self.new.ready } }
        ensures used { self.old.ready ≤ self.new.ready + 1 }
        ensures succeeds { self.old.owed + 1 ≤ self.old.ready → IsOk result }
        ensures traced { (m : Machine) → IsLike m self.old → IsLike m self.new }
    {
        self.reserve(alloc, 1)?;
        self.spaces.note(alloc, step)?;
        self.ready -= 1;
        Ok(())
    }

    /// A new store of cells of a type, without copies. The store of a recorded version has the tile of its versions.
    pub fn open(
        &mut self,
        alloc: Global,
        shape: &Shape,
        ty: Ty,
        tile: Option<u32>,
    ) -> Result<StoreId, Memory>
        requires tile { IfSome tile (λ tile. 0 < tile) }
        ensures ok { IfOk result (λ store. Opens self.old self.new store.id (opened ty shape.now tile)) }
        ensures traced { IfOk result (λ store. TracesStep self.old self.new (Step.Store store.id ty shape.now)) }
        ensures err { OnErr result (self.new ≡ record self.old { spaces = self.new.spaces; ready = self.new.ready }) }
        ensures spaces { OnErr result (Stays self.old.spaces self.new.spaces self.old.spaces.named) }
        ensures kept { OnErr result (self.old.ready ≤ self.new.ready) }
    {
        self.reserve(alloc, 1)?;
        let id = self.next;
        if id == u64::MAX {
            return Err(Memory);
        }
        let store = Store::new(ty, shape.again(), tile, Vec::new(alloc));
        insert(&mut self.stores, id, store)?;
        self.next = id + 1;
        self.ready -= 1;
        let step = Step::Store {
            store: id,
            ty,
            shape: shape.again(),
        };
        note_ready(&mut self.spaces, alloc, step);
        Ok(StoreId { id })
    }

    /// Takes one pin away from a copy.
    pub fn unpin(&mut self, copy: CopyId)
        requires there { IsSome (copy_at self.old copy.id) }
        requires pinned { IfSome (copy_at self.old copy.id) (λ held. 0 < held.pins) }
        ensures unpinned { IfSome (copy_at self.old copy.id) (λ held.
            copy_at self.new copy.id ≡ Some (record held { pins = held.pins - 1 })) }
        ensures others { (q : ℕ) → q ≢ copy.id → copy_at self.new q ≡ copy_at self.old q }
        ensures same { self.new ≡ record self.old { copies = self.new.copies } }
        ensures traced { (m : Machine) → IsLike m self.old → IsLike m self.new }
    {
        unpin(&mut self.copies, copy.id);
    }

    /// The cells of a copy become the owner's at a range of its block: every other copy of the store is stale there, and messages
    /// over it are spoilt. It is noted under the name that was given before, and takes no memory. Beside the change of the copies' states
    /// and one move of the cells it costs a look at each message since the last time when none was in flight, where one is.
    pub fn release_write(&mut self, copy: CopyId, range: Range, cells: &[Cell])
        requires named { IsSome self.old.named }
        requires there { IsSome (copy_at self.old copy.id) }
        requires reaches { ReachesIn (copy_at self.old copy.id) range.lo range.hi }
        requires len { range.lo + length cells.now ≡ range.hi }
        requires room { IfSome (copy_at self.old copy.id) (λ held. 0 < changes_in (store_at self.old held.store)) }
        requires owed { 0 < self.old.owed }
        ensures written { WritesCopy self.old self.new copy.id range.lo range.hi cells.now }
        ensures same { SameRoom self.old self.new }
        ensures stores { IfSome (copy_at self.old copy.id) (λ held. UsesWrite self.old.stores self.new.stores held.store) }
        ensures used { IfSome (copy_at self.old copy.id) (λ held.
            self.new.owed ≡ self.old.owed - min (changes_in (store_at self.old held.store)) 2) }
        ensures ready { self.new.ready + 1 ≡ self.old.ready }
        ensures next { self.new.next ≡ self.old.next }
        ensures traced { TracesWrite self.old self.new copy.id range.lo range.hi cells.now }
        ensures legal { (step : Step) → self.old.named ≡ Some step → IsOnHost (copy_at self.old copy.id) →
            SaysWrite self.old copy.id range.lo range.hi cells.now step → TracesStep self.old self.new step }
    {
        let Some(held) = self.copies.get(&copy.id) else {
            return;
        };
        let id = held.store;
        let Some(store) = self.stores.get(&id) else {
            return;
        };
        let Some(step) = self.named.take() else {
            return;
        };
        let used = store.used_by_write();
        own_alone(&mut self.copies, store.copies(), copy.id, range);
        self.messages.spoil(id, range);
        use_write(&mut self.stores, id);
        self.owed = self.owed.saturating_sub(used);
        self.ready -= 1;
        put(&mut self.spaces, step, self.alloc, copy, range.lo, cells);
    }
}

/// Puts cells into a copy's block under a name, where the journal has room.
fn put<J: Journal>(
    spaces: &mut Spaces<J>,
    step: Step,
    alloc: Global,
    copy: CopyId,
    lo: u32,
    cells: &[Cell],
)
    requires there { IsSome (block_at spaces.old copy.id) }
    requires inside { IfSome (block_at spaces.old copy.id) (Reaches lo (lo + length cells.now)) }
    requires room { 0 < spaces.old.journal.spare }
    ensures { Changes spaces.old spaces.new copy.id
        (option_map (written lo cells.now) (block_at spaces.old copy.id)) None step }
{
    spaces.named(step);
    let _ = spaces.kernel_out(alloc, Block { id: copy.id }, lo, cells);
}

/// Notes a step where the journal has room.
fn note_ready<J: Journal>(spaces: &mut Spaces<J>, alloc: Global, step: Step)
    requires room { 0 < spaces.old.journal.spare }
    ensures { OnlyNotes spaces.old spaces.new step }
{
    let _ = spaces.note(alloc, step);
}
