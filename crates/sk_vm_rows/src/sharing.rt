//! Functions and instances of the compiled program, run over one frame in turns.
ghost use Rattle.std.specs.Prelude.{◌≡◌, ◌<◌, [], ◌∷◌, IfOk};
ghost use Rattle.sk_vm.specs.Rooms.{AreRooms};
ghost use Rattle.sk_vm_rows.specs.Calls.{IsCompiled, JoinsInts, MapsInts};

use crate::calls::{Called, block_value, compiled, dividing, value};
use sk_base::{Cell, Shape, Trap};
use sk_isa::Object;
use sk_kernel::{At, Kernel, VectorCall};
use sk_vm::{Frame, Rooms, Sharing};
use std::alloc::{AllocError, Global};
use std::process::Abort;

/// What a row asks of one of the two instances, or of a function.
#[derive(Clone, Copy, PartialEq, Eq, Debug)]
pub enum Asked {
    /// The value of the Map's function.
    Mapped(i32),
    /// The value of the MapReduce's function.
    Reduced(i32),
    /// The value of the MapReduce's operator.
    Joined(i32, i32),
    /// The value of a function.
    Value(Called, i32),
    /// The value of the function that divides, which is straight.
    Divided(i32, i32),
}

/// Asks one after another over one frame, where the value or the trap stands beside it that is wanted.
pub fn expect_in_turns(
    rt: &impl Abort,
    alloc: Global,
    rows: &[(Asked, Result<Cell, Trap>)],
) -> Result<(), AllocError> {
    let object = compiled(alloc)?;
    let rooms = Rooms::of(alloc, &object)?;
    let mut frame = Frame::of(alloc, &rooms)?;
    let shape = Shape::new(alloc, &[1]).unwrap();
    for (asked, wanted) in rows {
        let found = answered(alloc, &object, &rooms, &mut frame, &shape, *asked)?;
        assert_eq!(rt; found, *wanted, "{asked:?}");
    }
    Ok(())
}

/// What is asked, by a kernel that is made over the frame, or by the frame that is turned to the function.
fn answered(
    alloc: Global,
    object: &Object,
    rooms: &Rooms,
    frame: &mut Frame,
    shape: &Shape,
    asked: Asked,
) -> Result<Result<Cell, Trap>, AllocError>
    requires compiled { IsCompiled object.now }
    requires rooms { AreRooms object.now rooms.now }
    requires shape { shape.now ≡ 1 ∷ [] }
{
    match asked {
        Asked::Mapped(a) => applied(alloc, object, rooms, 0, frame, shape, a),
        Asked::Reduced(a) => applied(alloc, object, rooms, 1, frame, shape, a),
        Asked::Joined(a, b) => joined(alloc, object, rooms, frame, a, b),
        Asked::Value(called, a) => turned(alloc, object, rooms, frame, shape, called, a),
        Asked::Divided(a, b) => divided(alloc, object, rooms, frame, shape, a, b),
    }
}

/// The value of an instance's function.
fn applied(
    alloc: Global,
    object: &Object,
    rooms: &Rooms,
    instance: u32,
    frame: &mut Frame,
    shape: &Shape,
    element: i32,
) -> Result<Result<Cell, Trap>, AllocError>
    requires compiled { IsCompiled object.now }
    requires rooms { AreRooms object.now rooms.now }
    requires there { instance < 2 }
    requires shape { shape.now ≡ 1 ∷ [] }
{
    let mut kernel = Sharing::new(alloc, object, rooms, instance, frame)?;
    Ok(applied_by(&mut kernel, shape, element))
}

/// The value of a kernel's function.
fn applied_by<K: Kernel>(kernel: &mut K, shape: &Shape, element: i32) -> Result<Cell, Trap>
    requires maps { MapsInts (K.means kernel.old) }
    requires shape { shape.now ≡ 1 ∷ [] }
{
    let source = VectorCall {
        cells: &[Cell::from(element)],
        shape,
        uniforms: &[],
    };
    kernel.apply(&source, At { place: 0, pair: 0 })
}

/// The value of the MapReduce's operator.
fn joined(
    alloc: Global,
    object: &Object,
    rooms: &Rooms,
    frame: &mut Frame,
    a: i32,
    b: i32,
) -> Result<Result<Cell, Trap>, AllocError>
    requires compiled { IsCompiled object.now }
    requires rooms { AreRooms object.now rooms.now }
{
    let mut kernel = Sharing::new(alloc, object, rooms, 1, frame)?;
    Ok(joined_by(&mut kernel, a, b))
}

/// The value of a kernel's operator.
fn joined_by<K: Kernel>(kernel: &mut K, a: i32, b: i32) -> Result<Cell, Trap>
    requires { JoinsInts (K.means kernel.old) }
{
    kernel.combine(Cell::from(a), Cell::from(b))
}

/// The value of a function to which the frame is turned.
fn turned(
    alloc: Global,
    object: &Object,
    rooms: &Rooms,
    frame: &mut Frame,
    shape: &Shape,
    called: Called,
    element: i32,
) -> Result<Result<Cell, Trap>, AllocError>
    requires compiled { IsCompiled object.now }
    requires rooms { AreRooms object.now rooms.now }
    requires shape { shape.now ≡ 1 ∷ [] }
{
    let function = called.number();
    frame.turn(alloc, object, rooms, function)?;
    frame.elements(1, false);
    Ok(value(object, frame, function, shape, element, &[]))
}

/// The value of the function that divides, to which the frame is turned.
fn divided(
    alloc: Global,
    object: &Object,
    rooms: &Rooms,
    frame: &mut Frame,
    shape: &Shape,
    a: i32,
    b: i32,
) -> Result<Result<Cell, Trap>, AllocError>
    requires compiled { IsCompiled object.now }
    requires rooms { AreRooms object.now rooms.now }
    requires shape { shape.now ≡ 1 ∷ [] }
{
    let function = dividing();
    frame.turn(alloc, object, rooms, function)?;
    frame.elements(1, false);
    let divisor = [Cell::from(b)];
    Ok(block_value(object, frame, function, shape, a, &divisor))
}
