//! One store: its sizes and the numbers of its copies.
ghost use Rattle.std.specs.Prelude.{◌≡◌, ◌≢◌, ◌+◌, ◌-◌, ◌^◌, ◌<◌, ℕ, false, min, length, slice_index, OnOk, OnErr, IfSome, IfNone};
ghost use Rattle.sk_copy_states.specs.Stores.{StoreView, with_copy};
ghost use Rattle.sk_copy_states.specs.Stores.{LosesCopy};
ghost use Rattle.sk_copy_states.specs.Stores.{before_write};
ghost use Rattle.sk_copy_states.specs.Stores.{anew};

use sk_base::{Shape, Ty};
use sk_spaces::Memory;
use std::marker::Model;

/// A store: the type of its cells, its sizes, and the numbers of its copies in order.
#[derive(Drop)]
pub struct Store {
    ty: Ty,
    shape: Shape,
    tile: Option<u32>,
    rebound: bool,
    room: u32,
    copies: Vec<u64>,
}

impl Model for Store {
    ghost use Rattle.sk_copy_states.specs.Stores.{StoreView};

    ghost Value = { StoreView };

    ghost view = { λ s. record {
      ty = s.ty;
      shape = s.shape;
      tile = s.tile;
      rebound = s.rebound;
      room = s.room;
      copies = s.copies.items;
    } };
}

impl Store {
    /// A store without copies.
    pub fn new(ty: Ty, shape: Shape, tile: Option<u32>, copies: Vec<u64>) -> Store
        ensures { result ≡ record {
          ty = ty;
          shape = shape;
          tile = tile;
          rebound = false;
          room = 0;
          copies = copies.items;
        } }
    {
        Store {
            ty,
            shape,
            tile,
            rebound: false,
            room: 0,
            copies,
        }
    }

    /// The sizes.
    pub fn shape(&self) -> &Shape
        ensures { result.now ≡ self.now.shape }
    {
        &self.shape
    }

    /// The numbers of its copies, which rise.
    pub fn copies(&self) -> &[u64]
        ensures { result.now ≡ self.now.copies }
    {
        &self.copies
    }

    /// The tile of a recorded version's store.
    pub fn tile(&self) -> Option<u32>
        ensures { result ≡ self.now.tile }
    {
        self.tile
    }

    /// Whether the store's cells were ever written anew.
    pub fn is_rebound(&self) -> bool
        ensures { result ≡ self.now.rebound }
    {
        self.rebound
    }

    /// For how many more changes each of its copies has room.
    pub fn room(&self) -> u32
        ensures { result ≡ self.now.room }
    {
        self.room
    }

    /// Lists one copy more.
    pub fn list(&mut self, id: u64) -> Result<(), Memory>
        ensures ok { OnOk result (self.new ≡ with_copy id self.old) }
        ensures err { OnErr result (self.new ≡ self.old) }
    {
        self.copies.push(id)?;
        Ok(())
    }

    /// Takes the last copy off the list.
    pub fn unlist(&mut self)
        ensures { (id : ℕ) (store : StoreView) → self.old ≡ with_copy id store → self.new ≡ store }
    {
        self.copies.pop();
    }

    /// Takes a listed copy off the list.
    pub fn forget(&mut self, id: u64)
        requires listed { (k : ℕ) × (k < length self.old.copies) × (slice_index self.old.copies k ≡ id) }
        ensures { LosesCopy id self.old self.new }
    {
        if let Some(at) = place_of(&self.copies, id) {
            self.copies.remove(at);
        }
    }

    /// A write is to come: there is room for it, and for cells anew that may go before it.
    pub fn expect_write(&mut self)
        requires room { self.old.room + 2 < 2 ^ 32 }
        ensures { self.new ≡ before_write self.old }
    {
        self.room += 2;
    }

    /// The cells are to be written anew: the host's block is the whole store from then on.
    pub fn rebind(&mut self)
        ensures { self.new ≡ anew self.old }
    {
        self.rebound = true;
        self.room = self.room.saturating_sub(1);
    }

    /// How many changes a write uses up: its own, and one for cells anew if there is room for that still.
    pub fn used_by_write(&self) -> u32
        ensures used { result ≡ min self.now.room 2 }
        ensures some { 0 < self.now.room → 0 < result }
    {
        self.room.min(2)
    }

    /// A write was released: the room for it and for an anew that may have gone before is used up.
    pub fn use_write(&mut self)
        ensures { self.new ≡ record self.old { room = self.old.room - 2 } }
    {
        self.room = self.room.saturating_sub(2);
    }
}

/// Where a number stands in a list.
fn place_of(ids: &[u64], id: u64) -> Option<usize>
    ensures some { IfSome result (λ k. (k < length ids.now) × (slice_index ids.now k ≡ id)) }
    ensures none { IfNone result ((k : ℕ) → k < length ids.now → slice_index ids.now k ≢ id) }
{
    'ids: for at in 0..ids.len() {
        if ids[at] == id {
            return Some(at);
        }
    }
    None
}
