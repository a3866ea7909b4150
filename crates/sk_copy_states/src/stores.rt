//! Stores by number.
ghost use Rattle.std.specs.Prelude.{◌≡◌, ◌≢◌, ℕ, ◌+◌, ◌^◌, ◌<◌, length, slice_index, None, Some, IfSome, IsSome, OnOk, OnErr};
ghost use Rattle.sk_copy_states.specs.Stores.{UsesWrite, PutsStore, StoreView, store_of, copies_in, with_copy};
ghost use Rattle.sk_copy_states.specs.Stores.{LosesCopy};
ghost use Rattle.sk_copy_states.specs.Stores.{OwesOne};
ghost use Rattle.sk_copy_states.specs.Stores.{RebindsOne};

use crate::store::Store;
use sk_spaces::Memory;
use std::collections::BTreeMap;

/// A write of a store was released.
pub fn use_write(stores: &mut BTreeMap<u64, Store>, id: u64)
    ensures { UsesWrite stores.old.entries stores.new.entries id }
{
    if let Some(store) = stores.get_mut(&id) {
        store.use_write();
    }
}

/// A write of a store is to come.
pub fn expect_write(stores: &mut BTreeMap<u64, Store>, id: u64)
    requires room { IfSome (store_of stores.old.entries id) (λ store. store.room + 2 < 2 ^ 32) }
    ensures { OwesOne stores.old.entries stores.new.entries id }
{
    if let Some(store) = stores.get_mut(&id) {
        store.expect_write();
    }
}

/// The cells of a store are to be written anew.
pub fn rebind(stores: &mut BTreeMap<u64, Store>, id: u64)
    ensures { RebindsOne stores.old.entries stores.new.entries id }
{
    if let Some(store) = stores.get_mut(&id) {
        store.rebind();
    }
}

/// Adds a store.
pub fn insert(stores: &mut BTreeMap<u64, Store>, id: u64, store: Store) -> Result<(), Memory>
    ensures ok { OnOk result (PutsStore stores.old.entries stores.new.entries id store) }
    ensures err { OnErr result (stores.new.entries ≡ stores.old.entries) }
{
    match stores.insert(id, store) {
        Ok(_) => Ok(()),
        Err(_) => Err(Memory),
    }
}

/// Lists one copy more of a store.
pub fn list(stores: &mut BTreeMap<u64, Store>, id: u64, copy: u64) -> Result<(), Memory>
    ensures ok { OnOk result (IfSome (store_of stores.old.entries id) (λ store.
        PutsStore stores.old.entries stores.new.entries id (with_copy copy store))) }
    ensures err { OnErr result ((t : ℕ) → store_of stores.new.entries t ≡ store_of stores.old.entries t) }
{
    match stores.get_mut(&id) {
        Some(store) => store.list(copy),
        None => Ok(()),
    }
}

/// Takes the last copy off the list of a store.
pub fn unlist(stores: &mut BTreeMap<u64, Store>, id: u64)
    ensures { (copy : ℕ) (store : StoreView) → store_of stores.old.entries id ≡ Some (with_copy copy store) →
        PutsStore stores.old.entries stores.new.entries id store }
{
    if let Some(store) = stores.get_mut(&id) {
        store.unlist();
    }
}

/// Takes a listed copy off the list of a store.
pub fn forget(stores: &mut BTreeMap<u64, Store>, id: u64, copy: u64)
    requires there { IsSome (store_of stores.old.entries id) }
    requires listed { (k : ℕ) × (k < length (copies_in (store_of stores.old.entries id)))
        × (slice_index (copies_in (store_of stores.old.entries id)) k ≡ copy) }
    ensures { IfSome (store_of stores.old.entries id) (λ store. (now : StoreView)
        × PutsStore stores.old.entries stores.new.entries id now × LosesCopy copy store now) }
{
    if let Some(store) = stores.get_mut(&id) {
        store.forget(copy);
    }
}

/// Takes a store away.
pub fn remove(stores: &mut BTreeMap<u64, Store>, id: u64)
    ensures here { store_of stores.new.entries id ≡ None }
    ensures others { (s : ℕ) → s ≢ id → store_of stores.new.entries s ≡ store_of stores.old.entries s }
{
    stores.remove(&id);
}
