//! Blocks by number.
ghost use Rattle.std.specs.Prelude.{◌≡◌, ◌≢◌, ℕ, ◌+◌, ◌-◌, ◌≤◌, length, None, Some, IfSome, IfNone, IsSome, OnOk, OnErr, option_map, option_copied};
ghost use Rattle.sk_spaces.specs.Blocks.{ChangesBlock, KeepsUsed, block_in, used_in, len_in, IsWhole, Reaches, written, cells_at, overwritten, with_cells, without_cells, copied};

use crate::held::{Held, overwrite};
use crate::memory::Memory;
use sk_base::{Cell, Range};
use std::alloc::Global;
use std::collections::BTreeMap;

/// Adds a block.
pub fn insert(blocks: &mut BTreeMap<u64, Held>, id: u64, held: Held) -> Result<(), Memory>
    requires absent { block_in blocks.old.entries id ≡ None }
    ensures added { OnOk result (ChangesBlock blocks.old.entries blocks.new.entries id (Some held)) }
    ensures used { OnOk result ((space : ℕ) →
        used_in blocks.new.entries space ≡ used_in blocks.old.entries space + len_in space held) }
    ensures err { OnErr result (blocks.new.entries ≡ blocks.old.entries) }
{
    match blocks.insert(id, held) {
        Ok(_) => Ok(()),
        Err(_) => Err(Memory),
    }
}

/// Takes a block out.
pub fn remove(blocks: &mut BTreeMap<u64, Held>, id: u64) -> Option<Held>
    ensures removed { ChangesBlock blocks.old.entries blocks.new.entries id None }
    ensures block { result ≡ block_in blocks.old.entries id }
    ensures used { IfSome result (λ held. (space : ℕ) →
        used_in blocks.new.entries space + len_in space held ≡ used_in blocks.old.entries space) }
    ensures none { IfNone result (blocks.new.entries ≡ blocks.old.entries) }
{
    blocks.remove(&id)
}

/// Puts cells into a block, from an index on.
pub fn write(blocks: &mut BTreeMap<u64, Held>, id: u64, lo: u32, cells: &[Cell])
    requires whole { IfSome (block_in blocks.old.entries id) IsWhole }
    requires inside { IfSome (block_in blocks.old.entries id) (Reaches lo (lo + length cells.now)) }
    ensures written { ChangesBlock blocks.old.entries blocks.new.entries id
        (option_map (written lo cells.now) (block_in blocks.old.entries id)) }
    ensures used { KeepsUsed blocks.old.entries blocks.new.entries }
{
    if let Some(held) = blocks.get_mut(&id) {
        held.write(lo, cells);
    }
}

/// Takes the cells of a block out.
fn take_cells(blocks: &mut BTreeMap<u64, Held>, alloc: Global, id: u64) -> Vec<Cell>
    requires there { IsSome (block_in blocks.old.entries id) }
    ensures taken { IfSome (block_in blocks.old.entries id) (λ block. result.items ≡ block.cells) }
    ensures left { ChangesBlock blocks.old.entries blocks.new.entries id
        (option_map without_cells (block_in blocks.old.entries id)) }
    ensures used { KeepsUsed blocks.old.entries blocks.new.entries }
{
    match blocks.get_mut(&id) {
        Some(held) => held.take_cells(alloc),
        None => Vec::new(alloc),
    }
}

/// Puts all cells of a block in.
fn give_cells(blocks: &mut BTreeMap<u64, Held>, id: u64, cells: Vec<Cell>)
    requires there { IsSome (block_in blocks.old.entries id) }
    ensures given { ChangesBlock blocks.old.entries blocks.new.entries id
        (option_map (with_cells cells.items) (block_in blocks.old.entries id)) }
    ensures used { KeepsUsed blocks.old.entries blocks.new.entries }
{
    if let Some(held) = blocks.get_mut(&id) {
        held.give_cells(cells);
    }
}

/// Puts cells of a block in the place of cells that were taken out of another one, from `at` on.
fn copy_into(blocks: &BTreeMap<u64, Held>, from: u64, range: Range, cells: &mut [Cell], at: usize)
    requires there { IsSome (block_in blocks.now.entries from) }
    requires whole { IfSome (block_in blocks.now.entries from) IsWhole }
    requires inside { IfSome (block_in blocks.now.entries from) (Reaches range.lo range.hi) }
    requires place { at + (range.hi - range.lo) ≤ length cells.old }
    ensures { IfSome (block_in blocks.now.entries from) (λ block.
        cells.new ≡ overwritten cells.old at (cells_at block range.lo range.hi)) }
{
    if let Some(held) = blocks.get(&from) {
        overwrite(cells, at, held.part(range));
    }
}

/// Puts cells of a block in the place of those of another one.
pub fn copy(blocks: &mut BTreeMap<u64, Held>, alloc: Global, from: u64, to: u64, range: Range)
    requires whole { (q : ℕ) → IfSome (block_in blocks.old.entries q) IsWhole }
    requires source { IsSome (block_in blocks.old.entries from) }
    requires readable { IfSome (block_in blocks.old.entries from) (Reaches range.lo range.hi) }
    requires writable { IfSome (block_in blocks.old.entries to) (Reaches range.lo range.hi) }
    ensures copied { ChangesBlock blocks.old.entries blocks.new.entries to
        (copied range.lo range.hi (block_in blocks.old.entries from) (block_in blocks.old.entries to)) }
    ensures used { KeepsUsed blocks.old.entries blocks.new.entries }
{
    if from == to {
        return;
    }
    let Some(target) = blocks.get(&to) else {
        return;
    };
    let at = (range.lo - target.lo()) as usize;
    let mut cells = take_cells(blocks, alloc, to);
    copy_into(blocks, from, range, &mut cells, at);
    give_cells(blocks, to, cells);
}
