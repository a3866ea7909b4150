//! New containers.
ghost use Rattle.std.specs.Prelude.{◌≡◌, ◌≢◌, ◌∷◌, [], ℕ, ◌+◌, ◌<◌, ◌≤◌, replicate, None, Some, IsSome, IfOk, IfErr, OnErr};
ghost use Rattle.sk_base.specs.Arithmetic.{wrapped};
ghost use Rattle.sk_base.specs.Shape.{cells_of};
ghost use Rattle.sk_coherence_laws.specs.Steps.{Traces};
ghost use Rattle.sk_container.specs.Made.{IsNew, IsNotMade, Makes, Undoes, NotesMade, IsTrying};

use crate::faults::ContainerFault;
use crate::host::fill_all;
use crate::smart::Smart;
use sk_base::{Cell, Shape, Ty, wrap};
use sk_coherence::Directory;
use sk_copies::StoreId;
use sk_spaces::{Journal, Memory};
use std::alloc::Global;

impl Smart {
    /// A vector of n elements, each of them the fill, wrapped.
    pub fn vector<J: Journal>(
        alloc: Global,
        dir: &mut Directory<J>,
        ty: Ty,
        n: i64,
        fill: Cell,
    ) -> Result<Smart, ContainerFault>
        ensures ok { IfOk result (IsNew dir.old dir.new (n ∷ []) ty (wrapped ty fill)) }
        ensures err { IfErr result (IsNotMade dir.old dir.new (n ∷ []) ty) }
    {
        make(alloc, dir, ty, &[n], fill)
    }

    /// A matrix of so many rows and columns.
    pub fn matrix<J: Journal>(
        alloc: Global,
        dir: &mut Directory<J>,
        ty: Ty,
        rows: i64,
        cols: i64,
        fill: Cell,
    ) -> Result<Smart, ContainerFault>
        ensures ok { IfOk result (IsNew dir.old dir.new (rows ∷ cols ∷ []) ty (wrapped ty fill)) }
        ensures err { IfErr result (IsNotMade dir.old dir.new (rows ∷ cols ∷ []) ty) }
    {
        make(alloc, dir, ty, &[rows, cols], fill)
    }

    /// A tensor of three sizes, the outermost first.
    pub fn tensor3<J: Journal>(
        alloc: Global,
        dir: &mut Directory<J>,
        ty: Ty,
        sizes: [i64; 3],
        fill: Cell,
    ) -> Result<Smart, ContainerFault>
        ensures ok { IfOk result (IsNew dir.old dir.new sizes ty (wrapped ty fill)) }
        ensures err { IfErr result (IsNotMade dir.old dir.new sizes ty) }
    {
        make(alloc, dir, ty, &sizes, fill)
    }

    /// A tensor of four sizes, the outermost first.
    pub fn tensor4<J: Journal>(
        alloc: Global,
        dir: &mut Directory<J>,
        ty: Ty,
        sizes: [i64; 4],
        fill: Cell,
    ) -> Result<Smart, ContainerFault>
        ensures ok { IfOk result (IsNew dir.old dir.new sizes ty (wrapped ty fill)) }
        ensures err { IfErr result (IsNotMade dir.old dir.new sizes ty) }
    {
        make(alloc, dir, ty, &sizes, fill)
    }
}

/// A container with these sizes.
fn make<J: Journal>(
    alloc: Global,
    dir: &mut Directory<J>,
    ty: Ty,
    sizes: &[i64],
    fill: Cell,
) -> Result<Smart, ContainerFault>
    ensures ok { IfOk result (IsNew dir.old dir.new sizes.now ty (wrapped ty fill)) }
    ensures err { IfErr result (IsNotMade dir.old dir.new sizes.now ty) }
{
    dir.is_sound();
    let Some(shape) = Shape::new(alloc, sizes) else {
        return Err(ContainerFault::Shape);
    };
    let cell = wrap(ty, i128::from(fill));
    let store = open_filled(alloc, dir, ty, &shape, cell)?;
    Ok(Smart::over(store, shape))
}

/// A store with this shape, and this cell at each index.
fn open_filled<J: Journal>(
    alloc: Global,
    dir: &mut Directory<J>,
    ty: Ty,
    shape: &Shape,
    cell: Cell,
) -> Result<StoreId, Memory>
    ensures made { IfOk result (λ store. Makes dir.old dir.new (record { store = store.id; shape = shape.now }) ty cell) }
    ensures noted { IfOk result (λ store. NotesMade dir.old dir.new (record { store = store.id; shape = shape.now }) ty cell) }
    ensures err { OnErr result (Undoes dir.old dir.new) }
    ensures traced { OnErr result (Traces (IsTrying dir.old.next ty shape.now) dir.old dir.new) }
{
    dir.is_sound();
    let cells = vec![in alloc; cell; shape.cells() as usize]?;
    open_with(alloc, dir, ty, shape, &cells, cell)
}

/// A store with this shape and these cells, which are all the same.
fn open_with<J: Journal>(
    alloc: Global,
    dir: &mut Directory<J>,
    ty: Ty,
    shape: &Shape,
    cells: &[Cell],
    cell: Cell,
) -> Result<StoreId, Memory>
    requires same { cells.now ≡ replicate (cells_of shape.now) cell }
    ensures made { IfOk result (λ store. Makes dir.old dir.new (record { store = store.id; shape = shape.now }) ty cell) }
    ensures noted { IfOk result (λ store. NotesMade dir.old dir.new (record { store = store.id; shape = shape.now }) ty cell) }
    ensures err { OnErr result (Undoes dir.old dir.new) }
    ensures traced { OnErr result (Traces (IsTrying dir.old.next ty shape.now) dir.old dir.new) }
{
    dir.is_sound();
    let store = dir.open(alloc, shape, ty, None)?;
    if cells.is_empty() {
        return Ok(store);
    }
    match fill_all(alloc, dir, store, cells, cell) {
        Ok(()) => Ok(store),
        Err(fault) => {
            // Where there is no memory for that either, the store is left, and nobody owns an index of it.
            let _ = dir.close(alloc, store);
            Err(fault)
        }
    }
}
