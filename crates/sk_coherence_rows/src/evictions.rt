//! A call that needs more room on a rank than there is beside the copies of the one before.
ghost use Rattle.std.specs.Prelude.{◌≡◌, ◌≤◌, IfOk, OnOk};
ghost use Rattle.sk_coherence_rows.specs.Full.{IsFull, Keeps};

use crate::plays::{Line, Vector, open, read, shown, write};
use sk_base::Range;
use sk_coherence::{AcquireFault, Directory, StoreId};
use sk_parts::Listed;
use sk_spaces::{Journal, Kept, Spaces, Totals};
use std::alloc::Global;
use std::test::Fail;

/// A vector of four cells that the host wrote.
fn input(
    alloc: Global,
    dir: &mut Directory<Kept>,
    cells: [i64; 4],
    chooser: &mut Listed,
) -> Result<StoreId, AcquireFault>
    ensures full { IfOk result (λ store. IsFull dir.new store.id 4) }
    ensures keeps { OnOk result (Keeps dir.old dir.new) }
{
    let store = open(alloc, dir, 4)?;
    write(alloc, dir, store, 0, &cells, Line::Host, chooser)?;
    Ok(store)
}

/// A vector of four cells.
fn of_four(store: StoreId) -> Vector
    ensures store { result.store ≡ store }
    ensures len { result.len ≡ 4 }
{
    Vector { store, len: 4 }
}

/// A call on the first rank that computes a new vector of four cells from two others.
fn call(
    alloc: Global,
    dir: &mut Directory<Kept>,
    number: u64,
    first: StoreId,
    second: StoreId,
    chooser: &mut Listed,
) -> Result<(), AcquireFault>
    requires first { IsFull dir.old first.id 4 }
    requires second { IsFull dir.old second.id 4 }
    requires ranks { 1 ≤ dir.old.spaces.memories.ranks }
    ensures keeps { OnOk result (Keeps dir.old dir.new) }
{
    let result = open(alloc, dir, 4)?;
    let one = read(
        alloc,
        dir,
        of_four(first),
        1,
        Range { lo: 0, hi: 4 },
        chooser,
    )?;
    let other = read(
        alloc,
        dir,
        of_four(second),
        1,
        Range { lo: 0, hi: 4 },
        chooser,
    )?;
    write(
        alloc,
        dir,
        result,
        1,
        &[2, 2, 4, 3],
        Line::Kernel(number),
        chooser,
    )?;
    dir.unpin(one);
    dir.unpin(other);
    Ok(())
}

/// Two calls on a rank, both of the first vector, and one of them of the second and one of the third.
fn two_calls(
    alloc: Global,
    dir: &mut Directory<Kept>,
    chooser: &mut Listed,
) -> Result<(), AcquireFault>
    requires { 1 ≤ dir.old.spaces.memories.ranks }
{
    let a = input(alloc, dir, [6, 5, 4, 3], chooser)?;
    let b = input(alloc, dir, [3, 2, 1, 1], chooser)?;
    let c = input(alloc, dir, [1, 5, 2, 3], chooser)?;
    call(alloc, dir, 0, a, b, chooser)?;
    call(alloc, dir, 1, a, c, chooser)
}

/// The steps of two calls where there is room for three blocks of four cells, and the second of the copies that may give way
/// goes first: the first call's result, which only the rank has.
const STEPS: &str = "\
Store { store: 0, ty: Int, shape: Shape { sizes: [4] } }
Alloc { copy: 0, store: 0, space: 0, lo: 0, hi: 4 }
Write { copy: 0, lo: 0, cells: Shared { list: [6, 5, 4, 3] } }
Store { store: 1, ty: Int, shape: Shape { sizes: [4] } }
Alloc { copy: 1, store: 1, space: 0, lo: 0, hi: 4 }
Write { copy: 1, lo: 0, cells: Shared { list: [3, 2, 1, 1] } }
Store { store: 2, ty: Int, shape: Shape { sizes: [4] } }
Alloc { copy: 2, store: 2, space: 0, lo: 0, hi: 4 }
Write { copy: 2, lo: 0, cells: Shared { list: [1, 5, 2, 3] } }
Store { store: 3, ty: Int, shape: Shape { sizes: [4] } }
Alloc { copy: 3, store: 0, space: 1, lo: 0, hi: 4 }
Copy { from: 0, to: 3, lo: 0, hi: 4 }
Alloc { copy: 4, store: 1, space: 1, lo: 0, hi: 4 }
Copy { from: 1, to: 4, lo: 0, hi: 4 }
Alloc { copy: 5, store: 3, space: 1, lo: 0, hi: 4 }
Kernel { call: 0, kind: Element, part: 0, lo: 0, hi: 4, out: 5, trapped: None, inputs: Shared { list: [] } }
Store { store: 4, ty: Int, shape: Shape { sizes: [4] } }
Alloc { copy: 6, store: 3, space: 0, lo: 0, hi: 4 }
Back { from: 5, to: 6, lo: 0, hi: 4 }
Free { copy: 5 }
Alloc { copy: 7, store: 2, space: 1, lo: 0, hi: 4 }
Copy { from: 2, to: 7, lo: 0, hi: 4 }
Free { copy: 4 }
Alloc { copy: 8, store: 4, space: 1, lo: 0, hi: 4 }
Kernel { call: 1, kind: Element, part: 0, lo: 0, hi: 4, out: 8, trapped: None, inputs: Shared { list: [] } }
";

#[test]
fn two_copies_give_way_and_one_is_written_back(rt: HostRuntime) -> Result<(), Fail> {
    let spaces = Spaces::new(rt.alloc(), 12, 1, Kept::new(rt.alloc()))?;
    let mut dir = Directory::new(rt.alloc(), spaces);
    let mut chooser = Listed::new([1].to_vec(rt.alloc())?);
    two_calls(rt.alloc(), &mut dir, &mut chooser)?;
    let journal = dir.finish();
    let steps = shown(rt.alloc(), journal.steps())?;
    assert_eq!(rt; steps.as_str(), STEPS);
    assert_eq!(rt;
        journal.totals(),
        Totals {
            kernels: 2,
            work: 8,
            moved: 16
        }
    );
    Ok(())
}

#[test]
fn with_one_cell_less_there_is_no_room(rt: HostRuntime) -> Result<(), Fail> {
    let spaces = Spaces::new(rt.alloc(), 11, 1, Kept::new(rt.alloc()))?;
    let mut dir = Directory::new(rt.alloc(), spaces);
    let mut chooser = Listed::new([].to_vec(rt.alloc())?);
    let refused = two_calls(rt.alloc(), &mut dir, &mut chooser);
    assert_eq!(rt;
        refused,
        Err(AcquireFault::NoRoom {
            need: 4,
            pinned: 8,
            capacity: 11
        })
    );
    Ok(())
}
