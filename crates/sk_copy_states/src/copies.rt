//! Copies by number.
ghost use Rattle.std.specs.Prelude.{◌≡◌, ◌≢◌, ℕ, ◌+◌, ◌-◌, ◌<◌, ◌≤◌, ◌^◌, length, slice_index, IfSome, IfNone, IsSome, IsTrue, ◌↔◌, Some, None, OnOk, OnErr};
ghost use Rattle.sk_copy_states.specs.Held.{IsFit, HasRoom};
ghost use Rattle.sk_copy_states.specs.Copies.{HasRoomIn, ExpectsMore, FillsAt};
ghost use Rattle.sk_copy_states.specs.Copies.{held_in, home_in, pins_in, expected_in, SetsAt, OwnsAlone, StalesAll, HandsOver, ReachesIn, IsReady, store_in, ChangesCopy, AreDistinct, KeepsStates, LiesAmong};

use crate::held::{Held, fill_state, set_state};
use sk_base::Range;
use sk_ranges::State;
use sk_spaces::Memory;
use std::collections::BTreeMap;

/// Makes a range stale in the copy with this number.
fn stale_one(copies: &mut BTreeMap<u64, Held>, id: u64, range: Range)
    requires ready { IsReady 1 (held_in copies.old.entries id) }
    ensures staled { SetsAt (held_in copies.old.entries id) (held_in copies.new.entries id) range.lo range.hi State.Stale }
    ensures others { (q : ℕ) → q ≢ id → held_in copies.new.entries q ≡ held_in copies.old.entries q }
{
    if let Some(held) = copies.get_mut(&id) {
        set_state(held, range, State::Stale);
    }
}

/// Gives a range of a copy's block a state.
pub fn set_one(copies: &mut BTreeMap<u64, Held>, id: u64, range: Range, state: State)
    requires ready { IsReady 1 (held_in copies.old.entries id) }
    requires there { IsSome (held_in copies.old.entries id) }
    requires reaches { ReachesIn (held_in copies.old.entries id) range.lo range.hi }
    ensures set { SetsAt (held_in copies.old.entries id) (held_in copies.new.entries id) range.lo range.hi state }
    ensures others { (q : ℕ) → q ≢ id → held_in copies.new.entries q ≡ held_in copies.old.entries q }
{
    if let Some(held) = copies.get_mut(&id) {
        set_state(held, range, state);
    }
}

/// Makes a range stale in one copy, unless it is the one that writes.
fn stale_other(copies: &mut BTreeMap<u64, Held>, id: u64, by: u64, range: Range)
    requires ready { IsReady 1 (held_in copies.old.entries id) }
    ensures staled { id ≢ by →
        SetsAt (held_in copies.old.entries id) (held_in copies.new.entries id) range.lo range.hi State.Stale }
    ensures others { (q : ℕ) → q ≢ id → held_in copies.new.entries q ≡ held_in copies.old.entries q }
    ensures writer { held_in copies.new.entries by ≡ held_in copies.old.entries by }
{
    if id != by {
        stale_one(copies, id, range);
    }
}

/// Makes a range stale in the listed copies, but not in the one that writes.
fn stale_listed(copies: &mut BTreeMap<u64, Held>, ids: &[u64], by: u64, range: Range)
    requires ready { (k : ℕ) → k < length ids.now → IsReady 1 (held_in copies.old.entries (slice_index ids.now k)) }
    requires distinct { AreDistinct ids.now }
    ensures listed { (k : ℕ) → k < length ids.now → slice_index ids.now k ≢ by →
        SetsAt (held_in copies.old.entries (slice_index ids.now k)) (held_in copies.new.entries (slice_index ids.now k))
        range.lo range.hi State.Stale }
    ensures others { (q : ℕ) → ((k : ℕ) → k < length ids.now → slice_index ids.now k ≢ q) →
        held_in copies.new.entries q ≡ held_in copies.old.entries q }
    ensures writer { held_in copies.new.entries by ≡ held_in copies.old.entries by }
{
    'ids: for at in 0..ids.len() {
        stale_other(copies, ids[at], by, range);
    }
}

/// Copy `by` becomes the owner of a range of its block. `ids` lists the copies of its store.
pub fn own_alone(copies: &mut BTreeMap<u64, Held>, ids: &[u64], by: u64, range: Range)
    requires ready { (k : ℕ) → k < length ids.now → IsReady 1 (held_in copies.old.entries (slice_index ids.now k)) }
    requires distinct { AreDistinct ids.now }
    requires listed { (k : ℕ) → k < length ids.now →
        store_in (held_in copies.old.entries (slice_index ids.now k)) ≡ store_in (held_in copies.old.entries by) }
    requires complete { (q : ℕ) → store_in (held_in copies.old.entries q) ≡ store_in (held_in copies.old.entries by) →
        (k : ℕ) × (k < length ids.now) × (slice_index ids.now k ≡ q) }
    requires there { IsSome (held_in copies.old.entries by) }
    requires reaches { ReachesIn (held_in copies.old.entries by) range.lo range.hi }
    ensures { OwnsAlone (held_in copies.old.entries) (held_in copies.new.entries) by range.lo range.hi }
{
    stale_listed(copies, ids, by, range);
    set_one(copies, by, range, State::Owner);
}

/// A range becomes stale in each copy of a store. `ids` lists its copies.
pub fn stale_all(copies: &mut BTreeMap<u64, Held>, ids: &[u64], store: u64, range: Range)
    requires ready { (k : ℕ) → k < length ids.now → IsReady 1 (held_in copies.old.entries (slice_index ids.now k)) }
    requires distinct { AreDistinct ids.now }
    requires listed { (k : ℕ) → k < length ids.now →
        store_in (held_in copies.old.entries (slice_index ids.now k)) ≡ Some store }
    requires complete { (q : ℕ) → store_in (held_in copies.old.entries q) ≡ Some store →
        (k : ℕ) × (k < length ids.now) × (slice_index ids.now k ≡ q) }
    ensures { StalesAll (held_in copies.old.entries) (held_in copies.new.entries) store range.lo range.hi }
{
    'ids: for at in 0..ids.len() {
        stale_one(copies, ids[at], range);
    }
}

/// Takes a pin away from a copy.
pub fn unpin(copies: &mut BTreeMap<u64, Held>, id: u64)
    requires pinned { IfSome (held_in copies.old.entries id) (λ held. 0 < held.pins) }
    ensures here { IfSome (held_in copies.old.entries id) (λ held.
        held_in copies.new.entries id ≡ Some (record held { pins = held.pins - 1 })) }
    ensures others { (q : ℕ) → q ≢ id → held_in copies.new.entries q ≡ held_in copies.old.entries q }
    ensures states { KeepsStates (held_in copies.old.entries id) (held_in copies.new.entries id) }
{
    if let Some(held) = copies.get_mut(&id) {
        held.pins -= 1;
    }
}

/// Adds a pin to a copy; it answers want of memory where the pins cannot be counted.
pub fn pin(copies: &mut BTreeMap<u64, Held>, id: u64) -> Result<(), Memory>
    ensures here { OnOk result (IfSome (held_in copies.old.entries id) (λ held.
        held_in copies.new.entries id ≡ Some (record held { pins = held.pins + 1 }))) }
    ensures err { OnErr result ((q : ℕ) → held_in copies.new.entries q ≡ held_in copies.old.entries q) }
    ensures others { (q : ℕ) → q ≢ id → held_in copies.new.entries q ≡ held_in copies.old.entries q }
    ensures states { KeepsStates (held_in copies.old.entries id) (held_in copies.new.entries id) }
{
    if let Some(held) = copies.get_mut(&id) {
        held.pins = held.pins.checked_add(1).ok_or(Memory)?;
    }
    Ok(())
}

/// Makes room for so many changes of a copy's states, besides the room for messages.
pub fn reserve_one(copies: &mut BTreeMap<u64, Held>, id: u64, n: u32) -> Result<(), Memory>
    ensures ok { OnOk result (HasRoomIn n (held_in copies.new.entries id)) }
    ensures err { OnErr result ((q : ℕ) → held_in copies.new.entries q ≡ held_in copies.old.entries q) }
    ensures home { home_in (held_in copies.new.entries id) ≡ home_in (held_in copies.old.entries id) }
    ensures pins { pins_in (held_in copies.new.entries id) ≡ pins_in (held_in copies.old.entries id) }
    ensures others { (q : ℕ) → q ≢ id → held_in copies.new.entries q ≡ held_in copies.old.entries q }
    ensures states { KeepsStates (held_in copies.old.entries id) (held_in copies.new.entries id) }
{
    if let Some(held) = copies.get_mut(&id) {
        let Some(room) = n.checked_add(held.expected) else {
            return Err(Memory);
        };
        if held.states.reserve(room).is_err() {
            return Err(Memory);
        }
    }
    Ok(())
}

/// Makes room for one message more to a copy, besides so many other changes of its states.
pub fn expect_one(copies: &mut BTreeMap<u64, Held>, id: u64, n: u32) -> Result<(), Memory>
    requires there { IsSome (held_in copies.old.entries id) }
    ensures ok { OnOk result (ExpectsMore 1 (held_in copies.old.entries id) (held_in copies.new.entries id)) }
    ensures room { OnOk result (HasRoomIn n (held_in copies.new.entries id)) }
    ensures err { OnErr result ((q : ℕ) → held_in copies.new.entries q ≡ held_in copies.old.entries q) }
    ensures others { (q : ℕ) → q ≢ id → held_in copies.new.entries q ≡ held_in copies.old.entries q }
{
    if let Some(held) = copies.get_mut(&id) {
        let expected = held.expected.checked_add(1).ok_or(Memory)?;
        let room = n.checked_add(expected).ok_or(Memory)?;
        if held.states.reserve(room).is_err() {
            return Err(Memory);
        }
        held.expected = expected;
    }
    Ok(())
}

/// A message comes to a copy: what is stale of a range of its block is valid now, and its room is used up. It takes no
/// memory.
pub fn fill_one(copies: &mut BTreeMap<u64, Held>, id: u64, range: Range)
    requires there { IsSome (held_in copies.old.entries id) }
    requires ready { IsReady 1 (held_in copies.old.entries id) }
    requires reaches { ReachesIn (held_in copies.old.entries id) range.lo range.hi }
    requires expected { 0 < expected_in (held_in copies.old.entries id) }
    ensures filled { FillsAt (held_in copies.old.entries id) (held_in copies.new.entries id) range.lo range.hi }
    ensures others { (q : ℕ) → q ≢ id → held_in copies.new.entries q ≡ held_in copies.old.entries q }
{
    if let Some(held) = copies.get_mut(&id) {
        fill_state(held, range);
        held.expected -= 1;
    }
}

/// Makes room for so many changes in each of the listed copies, besides the room for messages.
pub fn reserve_listed(copies: &mut BTreeMap<u64, Held>, ids: &[u64], n: u32) -> Result<(), Memory>
    ensures ok { OnOk result ((k : ℕ) → k < length ids.now → HasRoomIn n (held_in copies.new.entries (slice_index ids.now k))) }
    ensures states { (q : ℕ) → KeepsStates (held_in copies.old.entries q) (held_in copies.new.entries q) }
    ensures pins { (q : ℕ) → pins_in (held_in copies.new.entries q) ≡ pins_in (held_in copies.old.entries q) }
{
    'ids: for at in 0..ids.len() {
        reserve_one(copies, ids[at], n)?;
    }
    Ok(())
}

/// A copy becomes the owner of indices that another one owned, which keeps them valid. Each has room for one change less
/// than `room` at least, besides the room for messages.
pub fn hand_over(
    copies: &mut BTreeMap<u64, Held>,
    from: u64,
    to: u64,
    range: Range,
    room: u32,
) -> Result<(), Memory>
    requires room { 0 < room }
    requires apart { from ≢ to }
    requires source { IsSome (held_in copies.old.entries from) }
    requires target { IsSome (held_in copies.old.entries to) }
    requires source_fit { IfSome (held_in copies.old.entries from) IsFit }
    requires target_fit { IfSome (held_in copies.old.entries to) IsFit }
    requires source_reaches { ReachesIn (held_in copies.old.entries from) range.lo range.hi }
    requires target_reaches { ReachesIn (held_in copies.old.entries to) range.lo range.hi }
    ensures ok { OnOk result (HandsOver (held_in copies.old.entries) (held_in copies.new.entries) from to range.lo range.hi) }
    ensures source_left { OnOk result (IfSome (held_in copies.new.entries from) (λ held. room + held.expected ≤ held.states.reserved + 1)) }
    ensures target_left { OnOk result (IfSome (held_in copies.new.entries to) (λ held. room + held.expected ≤ held.states.reserved + 1)) }
    ensures err { OnErr result ((q : ℕ) → KeepsStates (held_in copies.old.entries q) (held_in copies.new.entries q)) }
    ensures pins { OnErr result ((q : ℕ) → pins_in (held_in copies.new.entries q) ≡ pins_in (held_in copies.old.entries q)) }
{
    reserve_one(copies, from, room)?;
    reserve_one(copies, to, room)?;
    set_one(copies, from, range, State::Valid);
    set_one(copies, to, range, State::Owner);
    Ok(())
}

/// Adds a copy.
pub fn insert(copies: &mut BTreeMap<u64, Held>, id: u64, held: Held) -> Result<(), Memory>
    ensures ok { OnOk result (ChangesCopy copies.old.entries copies.new.entries id (Some held)) }
    ensures err { OnErr result (copies.new.entries ≡ copies.old.entries) }
{
    match copies.insert(id, held) {
        Ok(_) => Ok(()),
        Err(_) => Err(Memory),
    }
}

/// Takes a copy away.
pub fn remove(copies: &mut BTreeMap<u64, Held>, id: u64)
    ensures { ChangesCopy copies.old.entries copies.new.entries id None }
{
    copies.remove(&id);
}

/// Whether a copy lies in a space with exactly this block.
fn lies(copies: &BTreeMap<u64, Held>, id: u64, store: u64, space: u32, block: Range) -> bool
    ensures { IsTrue result ↔ (home_in (held_in copies.now.entries id)
        ≡ Some (record { store = store; space = space; lo = block.lo; hi = block.hi })) }
{
    match copies.get(&id) {
        Some(held) => {
            held.store == store && held.space == space && held.lo == block.lo && held.hi == block.hi
        }
        None => false,
    }
}

/// The listed copy that lies in a space with exactly this block, if there is one.
pub fn find_block(
    copies: &BTreeMap<u64, Held>,
    ids: &[u64],
    store: u64,
    space: u32,
    block: Range,
) -> Option<u64>
    ensures found { IfSome result (λ q. home_in (held_in copies.now.entries q)
        ≡ Some (record { store = store; space = space; lo = block.lo; hi = block.hi })) }
    ensures none { IfNone result ((k : ℕ) → k < length ids.now → home_in (held_in copies.now.entries (slice_index ids.now k))
        ≢ Some (record { store = store; space = space; lo = block.lo; hi = block.hi })) }
{
    'ids: for at in 0..ids.len() {
        if lies(copies, ids[at], store, space, block) {
            return Some(ids[at]);
        }
    }
    None
}

/// Whether a copy is one of a store, with all of its block in a range.
fn lies_among(copies: &BTreeMap<u64, Held>, id: u64, store: u64, range: Range) -> bool
    ensures { IsTrue result ↔ LiesAmong store range.lo range.hi (home_in (held_in copies.now.entries id)) }
{
    match copies.get(&id) {
        Some(held) => held.store == store && range.lo <= held.lo && held.hi <= range.hi,
        None => false,
    }
}

/// The first of the listed copies of a store that has all of its block in a range, if there is one.
pub fn find_among(
    copies: &BTreeMap<u64, Held>,
    ids: &[u64],
    store: u64,
    range: Range,
) -> Option<u64>
    ensures found { IfSome result (λ q. LiesAmong store range.lo range.hi (home_in (held_in copies.now.entries q))) }
    ensures none { IfNone result ((k : ℕ) → k < length ids.now →
        LiesAmong store range.lo range.hi (home_in (held_in copies.now.entries (slice_index ids.now k))) → ⊥) }
{
    'ids: for at in 0..ids.len() {
        if lies_among(copies, ids[at], store, range) {
            return Some(ids[at]);
        }
    }
    None
}
