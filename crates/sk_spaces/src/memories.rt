//! The memories of a run, without their journal.
ghost use Rattle.std.specs.Prelude.{◌≡◌, ◌≢◌, ℕ, ◌+◌, ◌-◌, ◌^◌, ◌<◌, ◌≤◌, ◌==◌, if◌then◌else◌, [], length, slice_index, Some, None, IfSome, IsSome, IfOk, OnOk, OnErr, IsTrue, ◌↔◌, option_map};
ghost use Rattle.sk_spaces.specs.Blocks.{Reaches, written, copied, cell_of};
ghost use Rattle.sk_spaces.specs.Memories.{block_of, used_of, fresh_block, ChangesOne, AddsBlock, LacksRoom, are_far, is_far};

use crate::blocks;
use crate::faults::SpaceFault;
use crate::held::Held;
use crate::memory::Memory;
use crate::step::Step;
use sk_base::{Cell, Range};
use std::alloc::Global;
use std::collections::BTreeMap;
use std::marker::Model;

/// The host's memory and the ranks' memories, as blocks of cells. What is taken in a rank's space is kept beside them.
#[derive(Drop)]
pub struct Memories {
    blocks: BTreeMap<u64, Held>,
    next: u64,
    used: Vec<u32>,
    ranks: u32,
    capacity: u32,
}

impl Model for Memories {
    ghost use Rattle.std.specs.Prelude.{◌≡◌, length};
    ghost use Rattle.sk_spaces.specs.Memories.{MemoriesView, AreSound};

    ghost Value = { MemoriesView };

    ghost view = { λ m. record {
      blocks = m.blocks.entries;
      next = m.next;
      ranks = m.ranks;
      capacity = m.capacity;
    } };

    ghost invariant = { λ m.
        AreSound (record { blocks = m.blocks.entries; next = m.next; ranks = m.ranks; capacity = m.capacity }) m.used.items
        × (length m.used.items ≡ m.ranks) };
}

impl Memories {
    /// Empty memories of so many ranks, with so many cells each.
    pub fn new(alloc: Global, capacity: u32, ranks: u32) -> Result<Memories, Memory>
        ensures { IfOk result (λ m. m ≡ record {
          blocks = [];
          next = 0;
          ranks = ranks;
          capacity = capacity;
        }) }
    {
        let used = vec![in alloc; 0; ranks as usize]?;
        Ok(Memories {
            blocks: BTreeMap::new(alloc),
            next: 0,
            used,
            ranks,
            capacity,
        })
    }

    /// The cells that each rank has.
    pub fn capacity(&self) -> u32
        ensures { result ≡ self.now.capacity }
    {
        self.capacity
    }

    /// The number that the next block gets.
    pub fn next(&self) -> u64
        ensures { result ≡ self.now.next }
    {
        self.next
    }

    /// The cells that are taken in a rank's space.
    pub fn used(&self, space: u32) -> u32
        requires some { 0 < space }
        requires ranks { space ≤ self.now.ranks }
        ensures used { result ≡ used_of self.now space }
        ensures within { result ≤ self.now.capacity }
    {
        self.used[space as usize - 1]
    }

    /// Whether so many cells more fit into a space; the host's has no end.
    pub fn room(&self, space: u32, len: u32) -> Result<(), SpaceFault>
        requires ranks { space ≤ self.now.ranks }
        ensures room { OnOk result (¬ LacksRoom self.now space len) }
        ensures full { OnErr result (LacksRoom self.now space len) }
        ensures fault { OnErr result (
            result ≡ Err (SpaceFault.NoRoom (used_of self.now space) len self.now.capacity)) }
    {
        if space == 0 {
            return Ok(());
        }
        let used = self.used(space);
        if len > self.capacity - used {
            return Err(SpaceFault::NoRoom {
                used,
                len,
                capacity: self.capacity,
            });
        }
        Ok(())
    }

    /// A new block, with cells 0. It fails for want of memory alone, and leaves all as it was.
    pub fn alloc(
        &mut self,
        alloc: Global,
        store: u64,
        space: u32,
        range: Range,
    ) -> Result<u64, Memory>
        requires ranks { space ≤ self.old.ranks }
        requires room { (len : ℕ) → range.lo + len ≡ range.hi → ¬ LacksRoom self.old space len }
        ensures added { IfOk result (λ id.
            AddsBlock self.old self.new id (fresh_block store space range.lo range.hi)) }
        ensures err { OnErr result (self.new ≡ self.old) }
    {
        let id = self.next;
        if id == u64::MAX {
            return Err(Memory);
        }
        let len = range.len();
        let cells = vec![in alloc; 0; len as usize]?;
        blocks::insert(&mut self.blocks, id, Held::new(store, space, range, cells))?;
        self.next = id + 1;
        take_room(&mut self.used, space, len);
        Ok(id)
    }

    /// Takes a block out.
    pub fn free(&mut self, id: u64)
        requires there { IsSome (block_of self.old id) }
        ensures { ChangesOne self.old self.new id None }
    {
        if let Some(held) = blocks::remove(&mut self.blocks, id) {
            give_room(&mut self.used, held.space(), held.len());
        }
    }

    /// Puts cells of a block in the place of those of another one of the same store.
    pub fn copy(&mut self, alloc: Global, from: u64, to: u64, range: Range)
        requires source { IsSome (block_of self.old from) }
        requires readable { IfSome (block_of self.old from) (Reaches range.lo range.hi) }
        requires writable { IfSome (block_of self.old to) (Reaches range.lo range.hi) }
        ensures { ChangesOne self.old self.new to
            (copied range.lo range.hi (block_of self.old from) (block_of self.old to)) }
    {
        blocks::copy(&mut self.blocks, alloc, from, to, range);
    }

    /// Puts cells into a block, from an index on.
    pub fn write(&mut self, id: u64, lo: u32, cells: &[Cell])
        requires inside { IfSome (block_of self.old id) (Reaches lo (lo + length cells.now)) }
        ensures { ChangesOne self.old self.new id
            (option_map (written lo cells.now) (block_of self.old id)) }
    {
        blocks::write(&mut self.blocks, id, lo, cells);
    }

    /// The cell of a block at an index.
    pub fn cell(&self, id: u64, index: u32) -> Cell
        requires there { IsSome (block_of self.now id) }
        requires inside { IfSome (block_of self.now id) (Reaches index (index + 1)) }
        ensures { IfSome (block_of self.now id) (λ block. result ≡ cell_of block index) }
    {
        match self.blocks.get(&id) {
            Some(held) => held.cell(index),
            None => 0,
        }
    }

    /// All cells of a block.
    pub fn cells(&self, id: u64) -> &[Cell]
        requires there { IsSome (block_of self.now id) }
        ensures { IfSome (block_of self.now id) (λ block. result.now ≡ block.cells) }
    {
        match self.blocks.get(&id) {
            Some(held) => held.cells(),
            None => &[],
        }
    }

    /// Whether two live blocks lie in different spaces.
    fn are_far(&self, one: u64, other: u64) -> bool
        ensures { result ≡ are_far (block_of self.now one) (block_of self.now other) }
    {
        match (self.blocks.get(&one), self.blocks.get(&other)) {
            (Some(one), Some(other)) => one.space() != other.space(),
            _ => false,
        }
    }

    /// Whether a step is a copy, a write-back or a message whose two copies lie in different spaces.
    pub fn is_far(&self, step: &Step) -> bool
        ensures { result ≡ is_far self.now step.now }
    {
        match step {
            Step::Copy { from, to, .. }
            | Step::Back { from, to, .. }
            | Step::Send { from, to, .. } => self.are_far(*from, *to),
            _ => false,
        }
    }
}

/// Counts cells that are taken; those of the host are not counted.
fn take_room(used: &mut Vec<u32>, space: u32, len: u32)
    requires ranks { space ≤ length used.old.items }
    requires fits { 0 < space → slice_index used.old.items (space - 1) + len < 2 ^ 32 }
    ensures len { length used.new.items ≡ length used.old.items }
    ensures taken { (k : ℕ) → k < length used.old.items →
        slice_index used.new.items k ≡ slice_index used.old.items k + (if space == k + 1 then len else 0) }
{
    if space > 0 {
        used[space as usize - 1] += len;
    }
}

/// Counts cells that are free again.
fn give_room(used: &mut Vec<u32>, space: u32, len: u32)
    requires ranks { space ≤ length used.old.items }
    requires fits { 0 < space → len ≤ slice_index used.old.items (space - 1) }
    ensures len { length used.new.items ≡ length used.old.items }
    ensures given { (k : ℕ) → k < length used.old.items →
        slice_index used.new.items k + (if space == k + 1 then len else 0) ≡ slice_index used.old.items k }
{
    if space > 0 {
        used[space as usize - 1] -= len;
    }
}
