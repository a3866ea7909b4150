//! Cells of a store on the host.
ghost use Rattle.std.specs.Prelude.{◌≡◌, ◌≢◌, ◌∷◌, [], ℕ, ◌+◌, ◌<◌, ◌≤◌, length, slice_index_or, pos, replicate, None, Some, IfSome, IsSome, IsSomeAnd, IfOk, IfErr, OnOk, OnErr};
ghost use Rattle.sk_base.specs.Shape.{cells_of};
ghost use Rattle.sk_spaces.specs.declared.step.Step.{Step};
ghost use Rattle.sk_copy_states.specs.Copies.{ReachesIn, home_in, pins_in};
ghost use Rattle.sk_copy_states.specs.Sources.{MayRead};
ghost use Rattle.sk_copy_states.specs.Stores.{IsBlockOf, changes_in, len_in};
ghost use Rattle.sk_coherence_laws.specs.Acquires.{Acquires};
ghost use Rattle.sk_coherence_laws.specs.Directory.{copy_at, store_at};
ghost use Rattle.sk_coherence_laws.specs.HostBlocks.{home_at};
ghost use Rattle.sk_coherence_laws.specs.Owes.{AcquiresWrite};
ghost use Rattle.sk_coherence_laws.specs.Owned.{IsOwned};
ghost use Rattle.sk_coherence_laws.specs.Serves.{Serves};
ghost use Rattle.sk_coherence_laws.specs.Steps.{Traces, IsAlloc, IsServing};
ghost use Rattle.sk_coherence.specs.Evicts.{IsOnHost};
ghost use Rattle.sk_coherence.specs.Named.{SaysWrite};
ghost use Rattle.sk_container.specs.Cells.{HasCell};
ghost use Rattle.sk_container.specs.Changes.{Puts, Writes};
ghost use Rattle.sk_container.specs.Lines.{IsPlacing, IsHosting, TracesOne, TracesThen};
ghost use Rattle.sk_container.specs.Parts.{IsPart, IsHostOf, IsHostCopy};

use sk_base::{Cell, Range};
use sk_coherence::Directory;
use sk_copies::{CopyId, StoreId};
use sk_parts::Seeded;
use sk_spaces::{Journal, Memory, Step};
use std::alloc::Global;

/// The host's copy of a block, pinned once more, which may be read where it is needed.
fn acquire_read<J: Journal>(
    alloc: Global,
    dir: &mut Directory<J>,
    store: StoreId,
    block: Range,
    need: Range,
) -> Result<CopyId, Memory>
    requires there { IsSome (store_at dir.old store.id) }
    requires block { IfSome (store_at dir.old store.id) (IsBlockOf block.lo block.hi) }
    requires above { block.lo ≤ need.lo }
    requires below { need.hi ≤ block.hi }
    requires owned { (i : ℕ) → need.lo ≤ i → i < need.hi → IsOwned dir.old store.id i }
    ensures ok { IfOk result (λ copy. Acquires dir.old dir.new copy.id) }
    ensures home { IfOk result (λ copy. home_in (copy_at dir.new copy.id)
        ≡ Some (home_at store.id 0 block.lo block.hi)) }
    ensures readable { IfOk result (λ copy. MayRead (copy_at dir.new copy.id) need.lo need.hi) }
    ensures err { OnErr result (Serves dir.old dir.new) }
    ensures traced { Traces (IsServing (home_at store.id 0 block.lo block.hi) need.lo need.hi) dir.old dir.new }
{
    // On the host nothing gives way, so nothing is chosen.
    match dir.acquire_read(alloc, store, 0, block, need, &mut Seeded::new(0)) {
        Ok(copy) => Ok(copy),
        Err(_) => Err(Memory),
    }
}

/// The host's copy of a block, pinned once more, with room for one write of it.
fn acquire_write<J: Journal>(
    alloc: Global,
    dir: &mut Directory<J>,
    store: StoreId,
    block: Range,
) -> Result<CopyId, Memory>
    requires there { IsSome (store_at dir.old store.id) }
    requires block { IfSome (store_at dir.old store.id) (IsBlockOf block.lo block.hi) }
    ensures ok { IfOk result (λ copy. AcquiresWrite dir.old dir.new store.id copy.id) }
    ensures home { IfOk result (λ copy. home_in (copy_at dir.new copy.id)
        ≡ Some (home_at store.id 0 block.lo block.hi)) }
    ensures err { OnErr result (Serves dir.old dir.new) }
    ensures traced { Traces (IsAlloc (home_at store.id 0 block.lo block.hi)) dir.old dir.new }
{
    match dir.acquire_write(alloc, store, 0, block, &mut Seeded::new(0)) {
        Ok(copy) => Ok(copy),
        Err(_) => Err(Memory),
    }
}

/// Writes cells of a copy that was acquired for it, as a line that says so, and takes its pin away.
fn put<J: Journal>(dir: &mut Directory<J>, copy: CopyId, range: Range, cells: &[Cell], line: Step)
    requires there { IsSome (copy_at dir.old copy.id) }
    requires pinned { 0 < pins_in (copy_at dir.old copy.id) }
    requires host { IsOnHost (copy_at dir.old copy.id) }
    requires reaches { ReachesIn (copy_at dir.old copy.id) range.lo range.hi }
    requires len { range.lo + length cells.now ≡ range.hi }
    requires room { IfSome (copy_at dir.old copy.id) (λ held. 0 < changes_in (store_at dir.old held.store)) }
    requires owed { 0 < dir.old.owed }
    requires says { SaysWrite dir.old copy.id range.lo range.hi cells.now line }
    ensures puts { Puts dir.old dir.new copy.id range.lo range.hi cells.now }
    ensures noted { TracesOne line dir.old dir.new }
{
    dir.named(line);
    dir.release_write(copy, range, cells);
    dir.unpin(copy);
}

/// The cell at an index of a block.
fn cell_at(cells: &[Cell], index: u32) -> Cell
    requires inside { index < length cells.now }
    ensures { result ≡ slice_index_or cells.now index (pos 0) }
{
    cells[index as usize]
}

/// The cell of an index of a store, which is noted as read.
pub(crate) fn read_at<J: Journal>(
    alloc: Global,
    dir: &mut Directory<J>,
    store: StoreId,
    index: u32,
) -> Result<Cell, Memory>
    requires inside { IsSomeAnd (store_at dir.old store.id) (λ s. index < cells_of s.shape) }
    requires owned { IsOwned dir.old store.id index }
    ensures cell { IfOk result (λ cell. HasCell dir.old store.id index cell) }
    ensures noted { OnOk result (TracesThen (IsHosting dir.old store.id index (index + 1)) (IsHostOf dir.old store.id index (index + 1))
        (λ copy. Step.Read copy index (index + 1)) dir.old dir.new) }
    ensures serves { Serves dir.old dir.new }
    ensures traced { OnErr result (Traces (IsHosting dir.old store.id index (index + 1)) dir.old dir.new) }
{
    dir.is_sound();
    let block = dir.host_block(store, index);
    let one = Range {
        lo: index,
        hi: index + 1,
    };
    let copy = acquire_read(alloc, dir, store, block, one)?;
    dir.is_sound();
    let cell = cell_at(dir.cells(copy), index - block.lo);
    dir.unpin(copy);
    let line = Step::Read {
        copy: copy.id,
        lo: index,
        hi: index + 1,
    };
    dir.note(alloc, line)?;
    Ok(cell)
}

/// Puts a cell at an index of a store.
pub(crate) fn write_at<J: Journal>(
    alloc: Global,
    dir: &mut Directory<J>,
    store: StoreId,
    index: u32,
    cell: Cell,
) -> Result<(), Memory>
    requires inside { IsSomeAnd (store_at dir.old store.id) (λ s. index < cells_of s.shape) }
    ensures written { OnOk result (Writes dir.old dir.new store.id index (index + 1) (cell ∷ [])) }
    ensures noted { OnOk result (TracesThen (IsPlacing dir.old store.id index (index + 1)) (IsHostOf dir.old store.id index (index + 1))
        (λ copy. Step.Poke copy index cell) dir.old dir.new) }
    ensures err { OnErr result (Serves dir.old dir.new) }
    ensures traced { OnErr result (Traces (IsPlacing dir.old store.id index (index + 1)) dir.old dir.new) }
{
    dir.is_sound();
    let block = dir.host_block(store, index);
    let one = Range {
        lo: index,
        hi: index + 1,
    };
    let copy = acquire_write(alloc, dir, store, block)?;
    let line = Step::Poke {
        copy: copy.id,
        index,
        cell,
    };
    put(dir, copy, one, &[cell], line);
    Ok(())
}

/// Puts the same cell at each index of a store.
pub(crate) fn fill_all<J: Journal>(
    alloc: Global,
    dir: &mut Directory<J>,
    store: StoreId,
    cells: &[Cell],
    cell: Cell,
) -> Result<(), Memory>
    requires some { 0 < length cells.now }
    requires all { IsSomeAnd (store_at dir.old store.id) (λ s. length cells.now ≡ cells_of s.shape) }
    requires same { cells.now ≡ replicate (length cells.now) cell }
    ensures written { OnOk result (Writes dir.old dir.new store.id 0 (length cells.now) cells.now) }
    ensures noted { OnOk result (TracesThen (IsAlloc (home_at store.id 0 0 (length cells.now))) (λ home. home ≡ home_at store.id 0 0 (length cells.now))
        (λ copy. Step.Fill copy 0 (length cells.now) cell) dir.old dir.new) }
    ensures err { OnErr result (Serves dir.old dir.new) }
    ensures traced { OnErr result (Traces (IsAlloc (home_at store.id 0 0 (length cells.now))) dir.old dir.new) }
{
    dir.is_sound();
    let whole = Range {
        lo: 0,
        hi: dir.shape(store).cells(),
    };
    let copy = acquire_write(alloc, dir, store, whole)?;
    let line = Step::Fill {
        copy: copy.id,
        lo: whole.lo,
        hi: whole.hi,
        cell,
    };
    put(dir, copy, whole, cells, line);
    Ok(())
}

/// An index of a store in whose block a range of it lies: its first one, or the store's last where the range is behind it.
fn index_of(cells: u32, range: Range) -> u32
    requires some { 0 < cells }
    requires inside { range.hi ≤ cells }
    ensures inside { result < cells }
    ensures first { range.lo < cells → result ≡ range.lo }
    ensures last { range.lo ≡ cells → result + 1 ≡ cells }
{
    range.lo.min(cells - 1)
}

/// The host's copy with a range of a store, pinned once more, which may be read there.
pub(crate) fn acquire_part<J: Journal>(
    alloc: Global,
    dir: &mut Directory<J>,
    store: StoreId,
    range: Range,
) -> Result<CopyId, Memory>
    requires part { IsPart dir.old store.id range.lo range.hi }
    requires owned { (i : ℕ) → range.lo ≤ i → i < range.hi → IsOwned dir.old store.id i }
    ensures ok { IfOk result (λ copy. Acquires dir.old dir.new copy.id) }
    ensures host { IfOk result (λ copy. IsHostCopy dir.old dir.new store.id copy.id range.lo range.hi) }
    ensures readable { IfOk result (λ copy. MayRead (copy_at dir.new copy.id) range.lo range.hi) }
    ensures err { OnErr result (Serves dir.old dir.new) }
    ensures traced { Traces (IsHosting dir.old store.id range.lo range.hi) dir.old dir.new }
{
    dir.is_sound();
    let index = index_of(dir.shape(store).cells(), range);
    let block = dir.host_block(store, index);
    acquire_read(alloc, dir, store, block, range)
}
