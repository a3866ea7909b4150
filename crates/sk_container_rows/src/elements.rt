//! Containers that are made, read and written.
ghost use Rattle.std.specs.Prelude.{◌≡◌, IfOk};
ghost use Rattle.sk_container.specs.Smart.{IsHeld};

use crate::run::{directory, shown};
use sk_base::{Cell, Ty};
use sk_coherence::Directory;
use sk_container::{ContainerFault, PlaceFault, Smart};
use sk_spaces::Kept;
use std::alloc::Global;
use std::test::Fail;

/// A vector of `int`.
fn vector(
    alloc: Global,
    dir: &mut Directory<Kept>,
    n: i64,
    fill: Cell,
) -> Result<Smart, ContainerFault>
    ensures { IfOk result (λ smart. IsHeld dir.new smart) }
{
    Smart::vector(alloc, dir, Ty::Int, n, fill)
}

/// A matrix of `long`.
fn matrix(
    alloc: Global,
    dir: &mut Directory<Kept>,
    rows: i64,
    cols: i64,
    fill: Cell,
) -> Result<Smart, ContainerFault>
    ensures { IfOk result (λ smart. IsHeld dir.new smart) }
{
    Smart::matrix(alloc, dir, Ty::Long, rows, cols, fill)
}

/// The element at a place.
fn read(
    alloc: Global,
    dir: &mut Directory<Kept>,
    smart: &Smart,
    place: &[i64],
) -> Result<Cell, PlaceFault>
    requires { IsHeld dir.old smart.now }
    ensures { IsHeld dir.new smart.now }
{
    smart.read(alloc, dir, place)
}

/// Puts a cell at a place.
fn write(
    alloc: Global,
    dir: &mut Directory<Kept>,
    smart: &Smart,
    place: &[i64],
    cell: Cell,
) -> Result<(), PlaceFault>
    requires { IsHeld dir.old smart.now }
    ensures { IsHeld dir.new smart.now }
{
    smart.write(alloc, dir, place, cell)
}

/// The last of three elements before and after it is written, and the first one.
fn written(
    alloc: Global,
    dir: &mut Directory<Kept>,
    smart: &Smart,
) -> Result<(Cell, Cell, Cell), PlaceFault>
    requires { IsHeld dir.old smart.now }
{
    let before = read(alloc, dir, smart, &[2])?;
    write(alloc, dir, smart, &[2], 9)?;
    let after = read(alloc, dir, smart, &[2])?;
    let first = read(alloc, dir, smart, &[0])?;
    Ok((before, after, first))
}

/// What `written` tells of a vector of `int` whose fill is one more than there is.
fn wrapped(
    alloc: Global,
    dir: &mut Directory<Kept>,
) -> Result<Result<(Cell, Cell, Cell), PlaceFault>, ContainerFault> {
    let smart = vector(alloc, dir, 3, 2147483648)?;
    Ok(written(alloc, dir, &smart))
}

/// The steps of `wrapped`.
const VECTOR: &str = "\
Memory { ranks: 2, capacity: 8, tile: 1024, lineage: 1024 }
Store { store: 0, ty: Int, shape: Shape { sizes: [3] } }
Alloc { copy: 0, store: 0, space: 0, lo: 0, hi: 3 }
Fill { copy: 0, lo: 0, hi: 3, cell: -2147483648 }
Read { copy: 0, lo: 2, hi: 3 }
Poke { copy: 0, index: 2, cell: 9 }
Read { copy: 0, lo: 2, hi: 3 }
Read { copy: 0, lo: 0, hi: 1 }
";

#[test]
fn a_vector_is_filled_read_and_written(rt: HostRuntime) -> Result<(), Fail> {
    let mut dir = directory(rt.alloc())?;
    let cells = wrapped(rt.alloc(), &mut dir)?;
    let steps = shown(rt.alloc(), dir.finish().steps())?;
    assert_eq!(rt; cells, Ok((-2147483648, 9, -2147483648)));
    assert_eq!(rt; steps.as_str(), VECTOR);
    Ok(())
}

/// The last element of the second row, which is written, and the one before it.
fn last(alloc: Global, dir: &mut Directory<Kept>, smart: &Smart) -> Result<(Cell, Cell), PlaceFault>
    requires { IsHeld dir.old smart.now }
{
    write(alloc, dir, smart, &[1, 2], 7)?;
    let last = read(alloc, dir, smart, &[1, 2])?;
    let before = read(alloc, dir, smart, &[1, 1])?;
    Ok((last, before))
}

/// What `last` tells of a matrix of two rows and three columns.
fn in_rows(
    alloc: Global,
    dir: &mut Directory<Kept>,
) -> Result<Result<(Cell, Cell), PlaceFault>, ContainerFault> {
    let smart = matrix(alloc, dir, 2, 3, 2147483648)?;
    Ok(last(alloc, dir, &smart))
}

/// The steps of `in_rows`.
const MATRIX: &str = "\
Memory { ranks: 2, capacity: 8, tile: 1024, lineage: 1024 }
Store { store: 0, ty: Long, shape: Shape { sizes: [2, 3] } }
Alloc { copy: 0, store: 0, space: 0, lo: 0, hi: 6 }
Fill { copy: 0, lo: 0, hi: 6, cell: 2147483648 }
Poke { copy: 0, index: 5, cell: 7 }
Read { copy: 0, lo: 5, hi: 6 }
Read { copy: 0, lo: 4, hi: 5 }
";

#[test]
fn a_matrix_is_in_row_major_order(rt: HostRuntime) -> Result<(), Fail> {
    let mut dir = directory(rt.alloc())?;
    let cells = in_rows(rt.alloc(), &mut dir)?;
    let steps = shown(rt.alloc(), dir.finish().steps())?;
    assert_eq!(rt; cells, Ok((7, 2147483648)));
    assert_eq!(rt; steps.as_str(), MATRIX);
    Ok(())
}

/// What is answered of three places outside.
type Outside = (
    Result<Cell, PlaceFault>,
    Result<Cell, PlaceFault>,
    Result<(), PlaceFault>,
);

/// A row too many, an index too few, and an index below none.
fn asked(alloc: Global, dir: &mut Directory<Kept>, smart: &Smart) -> Outside
    requires { IsHeld dir.old smart.now }
{
    let row = read(alloc, dir, smart, &[2, 0]);
    let short = read(alloc, dir, smart, &[5]);
    let below = write(alloc, dir, smart, &[0, -1], 1);
    (row, short, below)
}

/// What is answered of places outside a matrix of two rows and three columns.
fn outside(alloc: Global, dir: &mut Directory<Kept>) -> Result<Outside, ContainerFault> {
    let smart = matrix(alloc, dir, 2, 3, 0)?;
    Ok(asked(alloc, dir, &smart))
}

/// The steps of `outside`.
const OUTSIDE: &str = "\
Memory { ranks: 2, capacity: 8, tile: 1024, lineage: 1024 }
Store { store: 0, ty: Long, shape: Shape { sizes: [2, 3] } }
Alloc { copy: 0, store: 0, space: 0, lo: 0, hi: 6 }
Fill { copy: 0, lo: 0, hi: 6, cell: 0 }
";

#[test]
fn a_place_outside_is_told_and_changes_nothing(rt: HostRuntime) -> Result<(), Fail> {
    let mut dir = directory(rt.alloc())?;
    let (row, short, below) = outside(rt.alloc(), &mut dir)?;
    let steps = shown(rt.alloc(), dir.finish().steps())?;
    assert_eq!(rt; row, Err(PlaceFault::Index));
    assert_eq!(rt; short, Err(PlaceFault::Index));
    assert_eq!(rt; below, Err(PlaceFault::Index));
    assert_eq!(rt; steps.as_str(), OUTSIDE);
    Ok(())
}

/// Why a vector of fewer than no elements is not made.
fn refused(alloc: Global, dir: &mut Directory<Kept>) -> Option<ContainerFault> {
    match vector(alloc, dir, -1, 0) {
        Ok(_) => None,
        Err(fault) => Some(fault),
    }
}

/// What is answered of the first element of a vector without elements.
fn first_of_none(
    alloc: Global,
    dir: &mut Directory<Kept>,
) -> Result<Result<Cell, PlaceFault>, ContainerFault> {
    let smart = vector(alloc, dir, 0, 0)?;
    Ok(read(alloc, dir, &smart, &[0]))
}

/// The steps of `refused` and `first_of_none`.
const EMPTY: &str = "\
Memory { ranks: 2, capacity: 8, tile: 1024, lineage: 1024 }
Store { store: 0, ty: Int, shape: Shape { sizes: [0] } }
";

#[test]
fn a_container_without_cells_has_no_copy(rt: HostRuntime) -> Result<(), Fail> {
    let mut dir = directory(rt.alloc())?;
    let refused = refused(rt.alloc(), &mut dir);
    let first = first_of_none(rt.alloc(), &mut dir)?;
    let steps = shown(rt.alloc(), dir.finish().steps())?;
    assert_eq!(rt; refused, Some(ContainerFault::Shape));
    assert_eq!(rt; first, Err(PlaceFault::Index));
    assert_eq!(rt; steps.as_str(), EMPTY);
    Ok(())
}
