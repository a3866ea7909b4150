//! A copy in the lists of copies and of stores.
ghost use Rattle.std.specs.Prelude.{◌≡◌, ℕ, ◌≤◌, None, Some, IsSome, IfSome, OnOk, OnErr};
ghost use Rattle.sk_copy_states.specs.Copies.{ChangesCopy, held_in};
ghost use Rattle.sk_copy_states.specs.Stores.{StoreView, PutsStore, store_of, with_copy};
ghost use Rattle.sk_copy_states.specs.Entries.{Enters};

use crate::held::{Held, fresh};
use crate::store::Store;
use crate::{copies, stores};
use sk_base::Range;
use sk_spaces::Memory;
use std::alloc::Global;
use std::collections::BTreeMap;

/// Where a new copy is to lie.
#[derive(Clone, Copy)]
pub struct Place {
    pub store: u64,
    pub space: u32,
    pub block: Range,
}

/// Lists a new copy, all stale. Where memory is wanting, each look-up answers as before.
pub fn enter(
    held: &mut BTreeMap<u64, Held>,
    all: &mut BTreeMap<u64, Store>,
    alloc: Global,
    id: u64,
    place: Place,
) -> Result<(), Memory>
    requires there { IsSome (store_of all.old.entries place.store) }
    requires absent { held_in held.old.entries id ≡ None }
    ensures ok { OnOk result (IfSome (store_of all.old.entries place.store)
        (Enters held.old.entries held.new.entries all.old.entries all.new.entries id place.store place.space
        place.block.lo place.block.hi)) }
    ensures held { OnErr result ((q : ℕ) → held_in held.new.entries q ≡ held_in held.old.entries q) }
    ensures stores { OnErr result ((t : ℕ) → store_of all.new.entries t ≡ store_of all.old.entries t) }
{
    let Some(store) = all.get(&place.store) else {
        return Err(Memory);
    };
    let copy = fresh(alloc, place.store, place.space, place.block, store.room())?;
    stores::list(all, place.store, id)?;
    if copies::insert(held, id, copy).is_err() {
        stores::unlist(all, place.store);
        return Err(Memory);
    }
    Ok(())
}

/// Takes a copy that was listed last off the lists.
pub fn leave(held: &mut BTreeMap<u64, Held>, all: &mut BTreeMap<u64, Store>, id: u64, store: u64)
    ensures copy { ChangesCopy held.old.entries held.new.entries id None }
    ensures store { (copy : ℕ) (st : StoreView) → store_of all.old.entries store ≡ Some (with_copy copy st) →
        PutsStore all.old.entries all.new.entries store st }
{
    copies::remove(held, id);
    stores::unlist(all, store);
}
