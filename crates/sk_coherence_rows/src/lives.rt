//! Copies and stores that are not needed any more.
ghost use Rattle.std.specs.Prelude.{◌≡◌, ◌≤◌, IfOk, OnOk};
ghost use Rattle.sk_coherence_rows.specs.Full.{HasCells, IsFull, Keeps};

use crate::plays::{Line, Vector, open, read, shown, write};
use sk_base::Range;
use sk_coherence::{AcquireFault, Directory};
use sk_parts::Listed;
use sk_spaces::{Journal, Kept, Spaces};
use std::alloc::Global;
use std::test::Fail;

/// Two halves of a vector are read on a rank, the second half is retired, and the vector is closed.
fn halves(
    alloc: Global,
    dir: &mut Directory<Kept>,
    chooser: &mut Listed,
) -> Result<(), AcquireFault>
    requires { 1 ≤ dir.old.spaces.memories.ranks }
{
    let store = open(alloc, dir, 8)?;
    write(
        alloc,
        dir,
        store,
        0,
        &[1, 2, 3, 4, 5, 6, 7, 8],
        Line::Host,
        chooser,
    )?;
    let vector = Vector { store, len: 8 };
    read(alloc, dir, vector, 1, Range { lo: 0, hi: 4 }, chooser)?;
    read(alloc, dir, vector, 1, Range { lo: 4, hi: 8 }, chooser)?;
    dir.retire(alloc, store, Range { lo: 4, hi: 8 })?;
    dir.close(alloc, store)?;
    Ok(())
}

/// The steps of `halves`: one copy lies in the second half, and the first half has an owner when the vector is closed.
const HALVES: &str = "\
Store { store: 0, ty: Int, shape: Shape { sizes: [8] } }
Alloc { copy: 0, store: 0, space: 0, lo: 0, hi: 8 }
Write { copy: 0, lo: 0, cells: Shared { list: [1, 2, 3, 4, 5, 6, 7, 8] } }
Alloc { copy: 1, store: 0, space: 1, lo: 0, hi: 4 }
Copy { from: 0, to: 1, lo: 0, hi: 4 }
Alloc { copy: 2, store: 0, space: 1, lo: 4, hi: 8 }
Copy { from: 0, to: 2, lo: 4, hi: 8 }
Stale { store: 0, lo: 4, hi: 8 }
Free { copy: 2 }
Stale { store: 0, lo: 0, hi: 8 }
Free { copy: 0 }
Free { copy: 1 }
";

#[test]
fn what_lies_in_a_retired_range_goes_and_a_closed_vector_goes_whole(
    rt: HostRuntime,
) -> Result<(), Fail> {
    let spaces = Spaces::new(rt.alloc(), 8, 1, Kept::new(rt.alloc()))?;
    let mut dir = Directory::new(rt.alloc(), spaces);
    let mut chooser = Listed::new([].to_vec(rt.alloc())?);
    halves(rt.alloc(), &mut dir, &mut chooser)?;
    let steps = shown(rt.alloc(), dir.finish().steps())?;
    assert_eq!(rt; steps.as_str(), HALVES);
    Ok(())
}

/// A vector that is retired whole has no owner when it is closed, and neither has one that was never written.
fn unowned(
    alloc: Global,
    dir: &mut Directory<Kept>,
    chooser: &mut Listed,
) -> Result<(), AcquireFault> {
    let store = open(alloc, dir, 2)?;
    write(alloc, dir, store, 0, &[1, 2], Line::Host, chooser)?;
    dir.retire(alloc, store, Range { lo: 0, hi: 2 })?;
    dir.close(alloc, store)?;
    let other = open(alloc, dir, 2)?;
    dir.close(alloc, other)?;
    Ok(())
}

/// The steps of `unowned`.
const UNOWNED: &str = "\
Store { store: 0, ty: Int, shape: Shape { sizes: [2] } }
Alloc { copy: 0, store: 0, space: 0, lo: 0, hi: 2 }
Write { copy: 0, lo: 0, cells: Shared { list: [1, 2] } }
Stale { store: 0, lo: 0, hi: 2 }
Free { copy: 0 }
Store { store: 1, ty: Int, shape: Shape { sizes: [2] } }
";

#[test]
fn what_has_no_owner_is_closed_without_a_line(rt: HostRuntime) -> Result<(), Fail> {
    let spaces = Spaces::new(rt.alloc(), 8, 1, Kept::new(rt.alloc()))?;
    let mut dir = Directory::new(rt.alloc(), spaces);
    let mut chooser = Listed::new([].to_vec(rt.alloc())?);
    unowned(rt.alloc(), &mut dir, &mut chooser)?;
    let steps = shown(rt.alloc(), dir.finish().steps())?;
    assert_eq!(rt; steps.as_str(), UNOWNED);
    Ok(())
}
