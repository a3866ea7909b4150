//! Messages between copies, sent and delivered: halves of a vector with a halo, a message that is spoilt, and a Map.
ghost use Rattle.std.specs.Prelude.{◌≡◌, ℕ, ◌<◌, ◌≤◌, OnOk};
ghost use Rattle.sk_copy_states.specs.Copies.{pins_in};
ghost use Rattle.sk_coherence_laws.specs.Directory.{copy_at};
ghost use Rattle.sk_coherence_rows.specs.Full.{HasCells, IsFull, Keeps};

use crate::plays::{Vector, cells_of, open, poke, read, receive, send, shown, written};
use sk_base::{Cell, Range};
use sk_coherence::{AcquireFault, CopyId, Directory, Memory};
use sk_parts::Listed;
use sk_spaces::{Journal, Kept, KernelKind, Numbers, Spaces, Step, Totals};
use std::alloc::Global;
use std::test::Fail;

/// The cells of two copies.
type Cells = (Vec<Cell>, Vec<Cell>);

/// The halves of a vector on two ranks, with one cell more on each side, are sent; the second comes first.
fn halves(
    alloc: Global,
    dir: &mut Directory<Kept>,
    vector: Vector,
    chooser: &mut Listed,
) -> Result<Cells, AcquireFault>
    requires full { IsFull dir.old vector.store.id 8 }
    requires len { vector.len ≡ 8 }
    requires ranks { 2 ≤ dir.old.spaces.memories.ranks }
    ensures keeps { OnOk result (Keeps dir.old dir.new) }
{
    let first = send(alloc, dir, vector, 1, Range { lo: 0, hi: 5 }, chooser)?;
    let second = send(alloc, dir, vector, 2, Range { lo: 3, hi: 8 }, chooser)?;
    receive(dir, second);
    receive(dir, first);
    Ok((
        cells_of(alloc, dir, first.to)?,
        cells_of(alloc, dir, second.to)?,
    ))
}

/// The halves of a vector of eight cells, and then what is left to messages once one cell of both was written.
fn halos(
    alloc: Global,
    dir: &mut Directory<Kept>,
    chooser: &mut Listed,
) -> Result<(Cells, Cells), AcquireFault>
    requires { 2 ≤ dir.old.spaces.memories.ranks }
{
    let vector = written(alloc, dir, &[1, 2, 3, 4, 5, 6, 7, 8], 8, chooser)?;
    let before = halves(alloc, dir, vector, chooser)?;
    poke(alloc, dir, vector, 4, 7, chooser)?;
    let after = halves(alloc, dir, vector, chooser)?;
    Ok((before, after))
}

/// The steps of `halos`.
const HALOS: &str = "\
Store { store: 0, ty: Int, shape: Shape { sizes: [8] } }
Alloc { copy: 0, store: 0, space: 0, lo: 0, hi: 8 }
Write { copy: 0, lo: 0, cells: Shared { list: [1, 2, 3, 4, 5, 6, 7, 8] } }
Alloc { copy: 1, store: 0, space: 1, lo: 0, hi: 5 }
Send { message: 0, from: 0, to: 1, lo: 0, hi: 5 }
Alloc { copy: 2, store: 0, space: 2, lo: 3, hi: 8 }
Send { message: 1, from: 0, to: 2, lo: 3, hi: 8 }
Deliver { message: 1 }
Deliver { message: 0 }
Poke { copy: 0, index: 4, cell: 7 }
Send { message: 2, from: 0, to: 1, lo: 4, hi: 5 }
Send { message: 3, from: 0, to: 2, lo: 4, hi: 5 }
Deliver { message: 3 }
Deliver { message: 2 }
";

#[test]
fn halves_come_in_any_order_and_then_one_written_cell_alone(rt: HostRuntime) -> Result<(), Fail> {
    let spaces = Spaces::new(rt.alloc(), 8, 2, Kept::new(rt.alloc()))?;
    let mut dir = Directory::new(rt.alloc(), spaces);
    let mut chooser = Listed::new([].to_vec(rt.alloc())?);
    let (before, after) = halos(rt.alloc(), &mut dir, &mut chooser)?;
    assert_eq!(rt; before.0.as_slice(), [1, 2, 3, 4, 5].as_slice());
    assert_eq!(rt; before.1.as_slice(), [4, 5, 6, 7, 8].as_slice());
    assert_eq!(rt; after.0.as_slice(), [1, 2, 3, 4, 7].as_slice());
    assert_eq!(rt; after.1.as_slice(), [4, 7, 6, 7, 8].as_slice());
    let journal = dir.finish();
    let steps = shown(rt.alloc(), journal.steps())?;
    assert_eq!(rt; steps.as_str(), HALOS);
    assert_eq!(rt;
        journal.totals(),
        Totals {
            kernels: 0,
            work: 0,
            moved: 12
        }
    );
    Ok(())
}

/// A vector is sent to a rank, one of its cells is written before the message comes, and so it is sent again.
fn spoilt(
    alloc: Global,
    dir: &mut Directory<Kept>,
    chooser: &mut Listed,
) -> Result<Vec<Cell>, AcquireFault>
    requires { 1 ≤ dir.old.spaces.memories.ranks }
{
    let vector = written(alloc, dir, &[1, 2, 3, 4], 4, chooser)?;
    let whole = Range { lo: 0, hi: 4 };
    send(alloc, dir, vector, 1, whole, chooser)?;
    poke(alloc, dir, vector, 2, 9, chooser)?;
    let sent = send(alloc, dir, vector, 1, whole, chooser)?;
    receive(dir, sent);
    let cells = cells_of(alloc, dir, sent.to)?;
    Ok(cells)
}

/// The steps of `spoilt`: the first message never comes, and all that it took is stale still when the second one is sent.
const SPOILT: &str = "\
Store { store: 0, ty: Int, shape: Shape { sizes: [4] } }
Alloc { copy: 0, store: 0, space: 0, lo: 0, hi: 4 }
Write { copy: 0, lo: 0, cells: Shared { list: [1, 2, 3, 4] } }
Alloc { copy: 1, store: 0, space: 1, lo: 0, hi: 4 }
Send { message: 0, from: 0, to: 1, lo: 0, hi: 4 }
Poke { copy: 0, index: 2, cell: 9 }
Send { message: 1, from: 0, to: 1, lo: 0, hi: 4 }
Deliver { message: 1 }
";

#[test]
fn a_message_over_a_written_cell_never_comes(rt: HostRuntime) -> Result<(), Fail> {
    let spaces = Spaces::new(rt.alloc(), 4, 1, Kept::new(rt.alloc()))?;
    let mut dir = Directory::new(rt.alloc(), spaces);
    let mut chooser = Listed::new([].to_vec(rt.alloc())?);
    let cells = spoilt(rt.alloc(), &mut dir, &mut chooser)?;
    assert_eq!(rt; cells.as_slice(), [1, 2, 9, 4].as_slice());
    let steps = shown(rt.alloc(), dir.finish().steps())?;
    assert_eq!(rt; steps.as_str(), SPOILT);
    Ok(())
}

/// A part of a call: its number, the space in which it is computed, and its indices.
#[derive(Clone, Copy)]
struct Part {
    number: u32,
    space: u32,
    block: Range,
}

/// Each cell twice.
fn doubled(alloc: Global, cells: &[Cell]) -> Result<Vec<Cell>, Memory> {
    let mut out = Vec::new(alloc);
    for &cell in cells {
        out.push(cell.wrapping_mul(2))?;
    }
    Ok(out)
}

/// The line of a part that computes these indices of one copy from another one.
fn kernel(alloc: Global, part: Part, from: CopyId, out: CopyId) -> Result<Step, Memory> {
    Ok(Step::Kernel {
        call: 0,
        kind: KernelKind::Element,
        part: part.number,
        lo: part.block.lo,
        hi: part.block.hi,
        out: out.id,
        trapped: None,
        inputs: Numbers::new(alloc, [from.id].to_vec(alloc)?)?,
    })
}

/// Computes a part of a vector from a pinned copy with exactly its operands.
fn compute(
    alloc: Global,
    dir: &mut Directory<Kept>,
    from: CopyId,
    target: Vector,
    part: Part,
    chooser: &mut Listed,
) -> Result<(), AcquireFault>
    requires pinned { 0 < pins_in (copy_at dir.old from.id) }
    requires cells { HasCells dir.old target.store.id target.len }
    requires some { part.block.lo < part.block.hi }
    requires inside { part.block.hi ≤ target.len }
    requires ranks { part.space ≤ dir.old.spaces.memories.ranks }
    ensures keeps { OnOk result (Keeps dir.old dir.new) }
    ensures pins { OnOk result ((q : ℕ) → pins_in (copy_at dir.old q) ≤ pins_in (copy_at dir.new q)) }
{
    let cells = doubled(alloc, &cells_of(alloc, dir, from)?)?;
    if cells.len() != part.block.len() as usize {
        return Err(AcquireFault::Memory);
    }
    let out = dir.acquire_write(alloc, target.store, part.space, part.block, chooser)?;
    let step = kernel(alloc, part, from, out)?;
    dir.named(step);
    dir.release_write(out, part.block, &cells);
    dir.unpin(out);
    Ok(())
}

/// A Map in the host's space: each cell twice.
fn on_host(
    alloc: Global,
    dir: &mut Directory<Kept>,
    chooser: &mut Listed,
) -> Result<(), AcquireFault> {
    let operand = written(alloc, dir, &[5, 5, 5, 5], 4, chooser)?;
    let target = open(alloc, dir, 4)?;
    let target = Vector {
        store: target,
        len: 4,
    };
    let whole = Range { lo: 0, hi: 4 };
    let from = read(alloc, dir, operand, 0, whole, chooser)?;
    let part = Part {
        number: 0,
        space: 0,
        block: whole,
    };
    compute(alloc, dir, from, target, part, chooser)?;
    dir.unpin(from);
    Ok(())
}

/// The steps of `on_host`.
const ON_HOST: &str = "\
Store { store: 0, ty: Int, shape: Shape { sizes: [4] } }
Alloc { copy: 0, store: 0, space: 0, lo: 0, hi: 4 }
Write { copy: 0, lo: 0, cells: Shared { list: [5, 5, 5, 5] } }
Store { store: 1, ty: Int, shape: Shape { sizes: [4] } }
Alloc { copy: 1, store: 1, space: 0, lo: 0, hi: 4 }
Kernel { call: 0, kind: Element, part: 0, lo: 0, hi: 4, out: 1, trapped: None, inputs: Shared { list: [0] } }
";

#[test]
fn a_map_on_the_host_moves_nothing(rt: HostRuntime) -> Result<(), Fail> {
    let spaces = Spaces::new(rt.alloc(), 8, 2, Kept::new(rt.alloc()))?;
    let mut dir = Directory::new(rt.alloc(), spaces);
    let mut chooser = Listed::new([].to_vec(rt.alloc())?);
    on_host(rt.alloc(), &mut dir, &mut chooser)?;
    let journal = dir.finish();
    let steps = shown(rt.alloc(), journal.steps())?;
    assert_eq!(rt; steps.as_str(), ON_HOST);
    assert_eq!(rt;
        journal.totals(),
        Totals {
            kernels: 1,
            work: 4,
            moved: 0
        }
    );
    Ok(())
}

/// A Map on two ranks: both halves of the operand are sent before one of them comes, and each part is computed from what came.
fn on_ranks(
    alloc: Global,
    dir: &mut Directory<Kept>,
    chooser: &mut Listed,
) -> Result<(), AcquireFault>
    requires { 2 ≤ dir.old.spaces.memories.ranks }
{
    let operand = written(alloc, dir, &[5, 5, 5, 5], 4, chooser)?;
    let target = open(alloc, dir, 4)?;
    let target = Vector {
        store: target,
        len: 4,
    };
    let one = Part {
        number: 0,
        space: 1,
        block: Range { lo: 0, hi: 2 },
    };
    let other = Part {
        number: 1,
        space: 2,
        block: Range { lo: 2, hi: 4 },
    };
    let first = send(alloc, dir, operand, one.space, one.block, chooser)?;
    let second = send(alloc, dir, operand, other.space, other.block, chooser)?;
    receive(dir, second);
    receive(dir, first);
    compute(alloc, dir, first.to, target, one, chooser)?;
    compute(alloc, dir, second.to, target, other, chooser)?;
    dir.unpin(first.to);
    dir.unpin(second.to);
    Ok(())
}

/// The steps of `on_ranks`.
const ON_RANKS: &str = "\
Store { store: 0, ty: Int, shape: Shape { sizes: [4] } }
Alloc { copy: 0, store: 0, space: 0, lo: 0, hi: 4 }
Write { copy: 0, lo: 0, cells: Shared { list: [5, 5, 5, 5] } }
Store { store: 1, ty: Int, shape: Shape { sizes: [4] } }
Alloc { copy: 1, store: 0, space: 1, lo: 0, hi: 2 }
Send { message: 0, from: 0, to: 1, lo: 0, hi: 2 }
Alloc { copy: 2, store: 0, space: 2, lo: 2, hi: 4 }
Send { message: 1, from: 0, to: 2, lo: 2, hi: 4 }
Deliver { message: 1 }
Deliver { message: 0 }
Alloc { copy: 3, store: 1, space: 1, lo: 0, hi: 2 }
Kernel { call: 0, kind: Element, part: 0, lo: 0, hi: 2, out: 3, trapped: None, inputs: Shared { list: [1] } }
Alloc { copy: 4, store: 1, space: 2, lo: 2, hi: 4 }
Kernel { call: 0, kind: Element, part: 1, lo: 2, hi: 4, out: 4, trapped: None, inputs: Shared { list: [2] } }
";

#[test]
fn a_map_on_two_ranks_moves_its_operand_alone(rt: HostRuntime) -> Result<(), Fail> {
    let spaces = Spaces::new(rt.alloc(), 8, 2, Kept::new(rt.alloc()))?;
    let mut dir = Directory::new(rt.alloc(), spaces);
    let mut chooser = Listed::new([].to_vec(rt.alloc())?);
    on_ranks(rt.alloc(), &mut dir, &mut chooser)?;
    let journal = dir.finish();
    let steps = shown(rt.alloc(), journal.steps())?;
    assert_eq!(rt; steps.as_str(), ON_RANKS);
    assert_eq!(rt;
        journal.totals(),
        Totals {
            kernels: 2,
            work: 4,
            moved: 4
        }
    );
    Ok(())
}
