//! Functions of an index and an int, run at places one behind another.
ghost use Rattle.std.specs.Prelude.{◌≡◌, ◌<◌, [], ◌∷◌, length, pos, vec_len, All, Some, IfOk};
ghost use Rattle.sk_base.specs.Arithmetic.{InRange};
ghost use Rattle.sk_base.specs.Shape.{shape_of};
ghost use Rattle.sk_base.specs.declared.number.Ty.TheVariants.{Int};
ghost use Rattle.sk_index_rows.specs.IndexedObject.{IsIndexed, IsReady};

use crate::indexed::{Indexed, sound_object};
use sk_base::{Cell, Shape};
use sk_isa::Object;
use sk_kernel::{At, RunTrap, VectorCall};
use sk_vm::Frame;
use std::alloc::{AllocError, Global};
use std::process::Abort;

/// Runs a function at so many places one behind another, at all of them on one number. It is wanted how the run ends, and the
/// values at some of the places.
pub fn expect_at_places(
    rt: &impl Abort,
    alloc: Global,
    called: Indexed,
    count: u32,
    number: i32,
    wanted: Result<(), RunTrap>,
    values: &[(u32, Cell)],
) -> Result<(), AllocError> {
    let function = called.number();
    let object = sound_object(alloc)?;
    let mut frame = frame(alloc, &object, function)?;
    let cells = cells(alloc, count, number)?;
    let mut out = vec![in alloc; 0; count as usize]?;
    let Some(shape) = Shape::new(alloc, &[Cell::from(count)]) else {
        assert!(rt; false, "{count} places");
        return Ok(());
    };
    let found = run_each(&object, &mut frame, function, &shape, &cells, &mut out);
    assert_eq!(rt; found, wanted, "{called:?} at {count} places");
    for (place, value) in values {
        assert_eq!(rt;
            out.get(*place as usize).copied(),
            Some(*value),
            "{called:?} at {place} of {count} places"
        );
    }
    Ok(())
}

/// So many cells with one number.
fn cells(alloc: Global, count: u32, number: i32) -> Result<Vec<Cell>, AllocError>
    ensures ints { IfOk result (λ cells. All (InRange Int) cells.items) }
    ensures count { IfOk result (λ cells. vec_len cells ≡ count) }
{
    let mut cells = Vec::new(alloc);
    for _ in 0..count {
        cells.push(Cell::from(number))?;
    }
    Ok(cells)
}

/// A frame for a function, which reads the int by elements.
fn frame(alloc: Global, object: &Object, function: u32) -> Result<Frame, AllocError>
    requires indexed { IsIndexed object.now }
    requires there { function < 2 }
    ensures { IfOk result (IsReady object.now function) }
{
    let mut frame = Frame::new(alloc, object, function)?;
    frame.elements(1, false);
    Ok(frame)
}

/// The function's values for a vector, or the least of its places that traps.
fn run_each(
    object: &Object,
    frame: &mut Frame,
    function: u32,
    shape: &Shape,
    cells: &[Cell],
    out: &mut [Cell],
) -> Result<(), RunTrap>
    requires indexed { IsIndexed object.now }
    requires ready { IsReady object.now function frame.old }
    requires there { function < 2 }
    requires shape { shape_of (pos (length cells.now) ∷ []) ≡ Some shape.now }
    requires range { All (InRange Int) cells.now }
    requires count { length out.old ≡ length cells.now }
{
    let source = VectorCall {
        cells,
        shape,
        uniforms: &[],
    };
    frame.run_each(object, &source, At { place: 0, pair: 0 }, out)
}
