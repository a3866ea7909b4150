//! Whole vectors that are opened, written and read.
ghost use Rattle.std.specs.Prelude.{◌≡◌, ◌≢◌, ℕ, ◌<◌, ◌≤◌, [], ◌∷◌, length, None, IfOk, OnOk};
ghost use Rattle.sk_copy_states.specs.Copies.{pins_in};
ghost use Rattle.sk_coherence_laws.specs.Directory.{copy_at, mail_at};
ghost use Rattle.sk_coherence_rows.specs.Flying.{IsFlying};
ghost use Rattle.sk_coherence_rows.specs.Full.{HasCells, IsFull, Keeps};

use sk_base::{Cell, Range, Shape, Ty};
use sk_coherence::{AcquireFault, CopyId, Directory, Memory, StoreId, Transfer};
use sk_parts::Listed;
use sk_spaces::{Cells, Kept, KernelKind, Numbers, Step};
use std::alloc::Global;
use std::fmt::Write;

/// A vector, and how many cells it has.
#[derive(Clone, Copy)]
pub struct Vector {
    pub store: StoreId,
    pub len: u32,
}

/// A new vector of so many cells, without owners.
pub fn open(alloc: Global, dir: &mut Directory<Kept>, len: u32) -> Result<StoreId, Memory>
    ensures cells { IfOk result (λ store. HasCells dir.new store.id len) }
    ensures keeps { OnOk result (Keeps dir.old dir.new) }
    ensures pins { OnOk result ((q : ℕ) → pins_in (copy_at dir.old q) ≤ pins_in (copy_at dir.new q)) }
{
    let Some(shape) = Shape::new(alloc, &[i64::from(len)]) else {
        return Err(Memory);
    };
    if shape.cells() != len {
        return Err(Memory);
    }
    dir.is_sound();
    let store = dir.open(alloc, &shape, Ty::Int, None)?;
    Ok(store)
}

/// The line as which a write is noted: one of the host, or the kernel of a call.
#[derive(Clone, Copy)]
pub enum Line {
    Host,
    Kernel(u64),
}

/// A step that writes these cells from the first index on.
fn step_of(
    alloc: Global,
    line: Line,
    copy: CopyId,
    cells: &[Cell],
    hi: u32,
) -> Result<Step, Memory> {
    match line {
        Line::Host => Ok(Step::Write {
            copy: copy.id,
            lo: 0,
            cells: Cells::new(alloc, cells.to_vec(alloc)?)?,
        }),
        Line::Kernel(call) => Ok(Step::Kernel {
            call,
            kind: KernelKind::Element,
            part: 0,
            lo: 0,
            hi,
            out: copy.id,
            trapped: None,
            inputs: Numbers::new(alloc, Vec::new(alloc))?,
        }),
    }
}

/// Writes all cells of a vector in a space, and leaves the copy unpinned.
pub fn write(
    alloc: Global,
    dir: &mut Directory<Kept>,
    store: StoreId,
    space: u32,
    cells: &[Cell],
    line: Line,
    chooser: &mut Listed,
) -> Result<(), AcquireFault>
    requires cells { HasCells dir.old store.id (length cells.now) }
    requires some { 0 < length cells.now }
    requires ranks { space ≤ dir.old.spaces.memories.ranks }
    ensures full { OnOk result (IsFull dir.new store.id (length cells.now)) }
    ensures keeps { OnOk result (Keeps dir.old dir.new) }
    ensures pins { OnOk result ((q : ℕ) → pins_in (copy_at dir.old q) ≤ pins_in (copy_at dir.new q)) }
{
    let Ok(hi) = u32::try_from(cells.len()) else {
        return Err(AcquireFault::Memory);
    };
    let whole = Range { lo: 0, hi };
    let copy = dir.acquire_write(alloc, store, space, whole, chooser)?;
    let step = step_of(alloc, line, copy, cells, hi)?;
    dir.named(step);
    dir.release_write(copy, whole, cells);
    dir.unpin(copy);
    Ok(())
}

/// Acquires a block of a vector of so many cells in a space; the copy is pinned.
pub fn read(
    alloc: Global,
    dir: &mut Directory<Kept>,
    vector: Vector,
    space: u32,
    block: Range,
    chooser: &mut Listed,
) -> Result<CopyId, AcquireFault>
    requires full { IsFull dir.old vector.store.id vector.len }
    requires some { block.lo < block.hi }
    requires inside { block.hi ≤ vector.len }
    requires ranks { space ≤ dir.old.spaces.memories.ranks }
    ensures pinned { IfOk result (λ copy. pins_in (copy_at dir.old copy.id) < pins_in (copy_at dir.new copy.id)) }
    ensures keeps { OnOk result (Keeps dir.old dir.new) }
    ensures pins { OnOk result ((q : ℕ) → pins_in (copy_at dir.old q) ≤ pins_in (copy_at dir.new q)) }
{
    let copy = dir.acquire_read(alloc, vector.store, space, block, block, chooser)?;
    Ok(copy)
}

/// Acquires a block of a vector in a space before what is missing of it is there; tells the messages that are left to do.
pub fn read_later(
    alloc: Global,
    dir: &mut Directory<Kept>,
    vector: Vector,
    space: u32,
    block: Range,
    chooser: &mut Listed,
) -> Result<Vec<Transfer>, AcquireFault>
    requires full { IsFull dir.old vector.store.id vector.len }
    requires some { block.lo < block.hi }
    requires inside { block.hi ≤ vector.len }
    requires ranks { space ≤ dir.old.spaces.memories.ranks }
    ensures keeps { OnOk result (Keeps dir.old dir.new) }
{
    let (_, transfers) = dir.acquire_later(alloc, vector.store, space, block, block, chooser)?;
    Ok(transfers)
}

/// Writes one cell of a vector on the host.
pub fn poke(
    alloc: Global,
    dir: &mut Directory<Kept>,
    vector: Vector,
    index: u32,
    cell: Cell,
    chooser: &mut Listed,
) -> Result<(), AcquireFault>
    requires full { IsFull dir.old vector.store.id vector.len }
    requires inside { index < vector.len }
    ensures keeps { OnOk result (Keeps dir.old dir.new) }
{
    let whole = Range {
        lo: 0,
        hi: vector.len,
    };
    let copy = dir.acquire_write(alloc, vector.store, 0, whole, chooser)?;
    dir.named(Step::Poke {
        copy: copy.id,
        index,
        cell,
    });
    let one = Range {
        lo: index,
        hi: index + 1,
    };
    dir.release_write(copy, one, &[cell]);
    dir.unpin(copy);
    Ok(())
}

/// A message, and the copy to which it goes.
#[derive(Clone, Copy)]
pub struct Sent {
    pub message: u64,
    pub to: CopyId,
}

/// The one message that is left to do.
fn only(transfers: &[Transfer]) -> Result<Transfer, Memory>
    ensures { IfOk result (λ transfer. transfers.now ≡ transfer ∷ []) }
{
    match transfers {
        [transfer] => Ok(*transfer),
        _ => Err(Memory),
    }
}

/// Acquires a block of a vector on a rank, and sends the one message that is left to do for it.
pub fn send(
    alloc: Global,
    dir: &mut Directory<Kept>,
    vector: Vector,
    space: u32,
    block: Range,
    chooser: &mut Listed,
) -> Result<Sent, AcquireFault>
    requires full { IsFull dir.old vector.store.id vector.len }
    requires some { block.lo < block.hi }
    requires inside { block.hi ≤ vector.len }
    requires far { 0 < space }
    requires ranks { space ≤ dir.old.spaces.memories.ranks }
    ensures flying { IfOk result (λ sent. IsFlying dir.new sent.message sent.to.id) }
    ensures new { IfOk result (λ sent. mail_at dir.old sent.message ≡ None) }
    ensures pinned { IfOk result (λ sent. pins_in (copy_at dir.old sent.to.id) < pins_in (copy_at dir.new sent.to.id)) }
    ensures others { OnOk result ((k q : ℕ) → IsFlying dir.old k q → IsFlying dir.new k q) }
    ensures pins { OnOk result ((q : ℕ) → pins_in (copy_at dir.old q) ≤ pins_in (copy_at dir.new q)) }
    ensures keeps { OnOk result (Keeps dir.old dir.new) }
{
    let (copy, transfers) = dir.acquire_later(alloc, vector.store, space, block, block, chooser)?;
    let transfer = only(&transfers)?;
    dir.is_sound();
    dir.reserve_sends(alloc, &[copy], transfer.range.len())?;
    let message = dir.send(&transfer);
    Ok(Sent { message, to: copy })
}

/// A message comes to its copy.
pub fn receive(dir: &mut Directory<Kept>, sent: Sent)
    requires flying { IsFlying dir.old sent.message sent.to.id }
    ensures others { (k q : ℕ) → k ≢ sent.message → IsFlying dir.old k q → IsFlying dir.new k q }
    ensures pins { (q : ℕ) → pins_in (copy_at dir.new q) ≡ pins_in (copy_at dir.old q) }
    ensures keeps { Keeps dir.old dir.new }
{
    dir.deliver(sent.message);
}

/// A vector of these cells that the host wrote.
pub fn written(
    alloc: Global,
    dir: &mut Directory<Kept>,
    cells: &[Cell],
    len: u32,
    chooser: &mut Listed,
) -> Result<Vector, AcquireFault>
    requires len { length cells.now ≡ len }
    requires some { 0 < len }
    ensures full { IfOk result (λ vector. IsFull dir.new vector.store.id len) }
    ensures len { IfOk result (λ vector. vector.len ≡ len) }
    ensures ranks { OnOk result (dir.new.spaces.memories.ranks ≡ dir.old.spaces.memories.ranks) }
{
    let store = open(alloc, dir, len)?;
    write(alloc, dir, store, 0, cells, Line::Host, chooser)?;
    Ok(Vector { store, len })
}

/// The cells of a copy.
pub fn cells_of(alloc: Global, dir: &Directory<Kept>, copy: CopyId) -> Result<Vec<Cell>, Memory>
    requires { 0 < pins_in (copy_at dir.now copy.id) }
{
    let cells = dir.cells(copy).to_vec(alloc)?;
    Ok(cells)
}

/// Steps as text, each on a line.
pub fn shown(alloc: Global, steps: &[Step]) -> Result<String, Memory> {
    let mut out = String::new(alloc);
    for step in steps {
        if write!(out, "{step:?}\n").is_err() {
            return Err(Memory);
        }
    }
    Ok(out)
}
