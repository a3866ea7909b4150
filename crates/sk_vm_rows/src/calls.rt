//! Functions of the compiled program, run by the machine.
ghost use Rattle.std.specs.Prelude.{◌≡◌, ◌<◌, [], ◌∷◌, suc, length, pos, vec_len, All, Some, IfOk};
ghost use Rattle.sk_base.specs.Arithmetic.{InRange};
ghost use Rattle.sk_base.specs.Shape.{shape_of};
ghost use Rattle.sk_base.specs.declared.number.Ty.TheVariants.{Int};
ghost use Rattle.sk_vm_rows.specs.Calls.{IsCompiled, IsReady, TakesInts};

use crate::program::program;
use sk_base::{Cell, Shape, Trap};
use sk_isa::Object;
use sk_kernel::{At, RunTrap, VectorCall};
use sk_vm::Frame;
use std::alloc::{AllocError, Global};
use std::process::Abort;

/// A function of the program that takes one int.
#[derive(Clone, Copy, PartialEq, Eq, Debug)]
pub enum Called {
    Counting,
    Calling,
    Guarding,
    Choosing,
    Widening,
    Truncating,
    Inverting,
}

impl Called {
    /// Its number in the compiled program.
    pub fn number(self) -> u32
        ensures { TakesInts 1 result }
    {
        match self {
            Called::Counting => 0,
            Called::Calling => 2,
            Called::Guarding => 3,
            Called::Choosing => 4,
            Called::Widening => 5,
            Called::Truncating => 6,
            Called::Inverting => 7,
        }
    }
}

/// The number of the function that divides.
pub fn dividing() -> u32
    ensures { TakesInts 2 result }
{
    1
}

/// Runs a function of one int for each argument, in one frame, where the value or the trap stands beside it that is wanted.
pub fn expect(
    rt: &impl Abort,
    alloc: Global,
    called: Called,
    rows: &[(i32, Result<Cell, Trap>)],
) -> Result<(), AllocError> {
    let function = called.number();
    let object = compiled(alloc)?;
    let mut frame = frame(alloc, &object, function)?;
    let shape = Shape::new(alloc, &[1]).unwrap();
    for (a, wanted) in rows {
        let found = value(&object, &mut frame, function, &shape, *a, &[]);
        assert_eq!(rt; found, *wanted, "{called:?} on {a}");
    }
    Ok(())
}

/// The same of the function that divides, for each dividend and divisor.
pub fn expect_quotients(
    rt: &impl Abort,
    alloc: Global,
    rows: &[(i32, i32, Result<Cell, Trap>)],
) -> Result<(), AllocError> {
    let function = dividing();
    let object = compiled(alloc)?;
    let mut frame = frame(alloc, &object, function)?;
    let shape = Shape::new(alloc, &[1]).unwrap();
    for (a, b, wanted) in rows {
        let found = value(&object, &mut frame, function, &shape, *a, &[Cell::from(*b)]);
        assert_eq!(rt; found, *wanted, "{a} and {b}");
    }
    Ok(())
}

/// Runs a function of one int at so many places one behind another: at all of them on one number, but at one place on another
/// one. The value of each is wanted, or a trap in the run.
pub fn expect_each(
    rt: &impl Abort,
    alloc: Global,
    called: Called,
    count: u32,
    place: u32,
    numbers: (i32, i32),
    wanted: Result<(Cell, Cell), RunTrap>,
) -> Result<(), AllocError> {
    let function = called.number();
    let object = compiled(alloc)?;
    let mut frame = frame(alloc, &object, function)?;
    let cells = cells(alloc, count, place, numbers)?;
    let mut out = vec![in alloc; 0; count as usize]?;
    let Some(shape) = Shape::new(alloc, &[Cell::from(count)]) else {
        assert!(rt; false, "{count} places");
        return Ok(());
    };
    let found = run_each(&object, &mut frame, function, &shape, &cells, &mut out);
    match wanted {
        Ok(values) => {
            assert_eq!(rt; found, Ok(()), "{called:?} at {count} places");
            for k in 0..count {
                let value = if k == place { values.1 } else { values.0 };
                assert_eq!(rt;
                    out.get(k as usize).copied(),
                    Some(value),
                    "{called:?} at {k} of {count} places"
                );
            }
        }
        Err(trapped) => assert_eq!(rt; found, Err(trapped), "{called:?} at {count} places"),
    }
    Ok(())
}

/// So many cells with one number, but for one place.
fn cells(
    alloc: Global,
    count: u32,
    place: u32,
    numbers: (i32, i32),
) -> Result<Vec<Cell>, AllocError>
    ensures ints { IfOk result (λ cells. All (InRange Int) cells.items) }
    ensures count { IfOk result (λ cells. vec_len cells ≡ count) }
{
    let mut cells = Vec::new(alloc);
    for k in 0..count {
        cells.push(Cell::from(if k == place { numbers.1 } else { numbers.0 }))?;
    }
    Ok(cells)
}

/// The function's values for a vector, or the least of its places that traps.
fn run_each(
    object: &Object,
    frame: &mut Frame,
    function: u32,
    shape: &Shape,
    cells: &[Cell],
    out: &mut [Cell],
) -> Result<(), RunTrap>
    requires compiled { IsCompiled object.now }
    requires ready { IsReady object.now function frame.old }
    requires ints { TakesInts 1 function }
    requires shape { shape_of (pos (length cells.now) ∷ []) ≡ Some shape.now }
    requires range { All (InRange Int) cells.now }
    requires count { length out.old ≡ length cells.now }
{
    let source = VectorCall {
        cells,
        shape,
        uniforms: &[],
    };
    frame.run_each(object, &source, At { place: 0, pair: 0 }, out)
}

/// The compiled program.
pub fn compiled(alloc: Global) -> Result<Object, AllocError>
    ensures { IfOk result IsCompiled }
{
    let program = program(alloc)?;
    sk_emitter::compiled(alloc, &program)
}

/// A frame for a function, which reads the first parameter by elements, and the others as uniform arguments.
fn frame(alloc: Global, object: &Object, function: u32) -> Result<Frame, AllocError>
    requires compiled { IsCompiled object.now }
    requires there { function < 8 }
    ensures { IfOk result (IsReady object.now function) }
{
    let mut frame = Frame::new(alloc, object, function)?;
    frame.elements(1, false);
    Ok(frame)
}

/// The function's value for a vector of one element and uniform arguments, or its trap.
pub fn value(
    object: &Object,
    frame: &mut Frame,
    function: u32,
    shape: &Shape,
    element: i32,
    uniforms: &[Cell],
) -> Result<Cell, Trap>
    requires compiled { IsCompiled object.now }
    requires ready { IsReady object.now function frame.old }
    requires shape { shape.now ≡ 1 ∷ [] }
    requires ints { TakesInts (suc (length uniforms.now)) function }
    requires range { All (InRange Int) uniforms.now }
    ensures ready { IsReady object.now function frame.new }
{
    let source = VectorCall {
        cells: &[Cell::from(element)],
        shape,
        uniforms,
    };
    frame.run(object, &source, At { place: 0, pair: 0 })
}

/// The same by a block of one place.
pub fn block_value(
    object: &Object,
    frame: &mut Frame,
    function: u32,
    shape: &Shape,
    element: i32,
    uniforms: &[Cell],
) -> Result<Cell, Trap>
    requires compiled { IsCompiled object.now }
    requires ready { IsReady object.now function frame.old }
    requires shape { shape.now ≡ 1 ∷ [] }
    requires ints { TakesInts (suc (length uniforms.now)) function }
    requires range { All (InRange Int) uniforms.now }
{
    let source = VectorCall {
        cells: &[Cell::from(element)],
        shape,
        uniforms,
    };
    let mut values = [0; 1];
    match frame.run_each(object, &source, At { place: 0, pair: 0 }, &mut values) {
        Ok(()) => Ok(values[0]),
        Err(trapped) => Err(trapped.trap),
    }
}
