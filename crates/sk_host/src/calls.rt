//! Calls of functions from expressions of main.
ghost use Rattle.std.specs.Prelude.{◌≡◌, ℕ, ℤ, ◌<◌, ◌≤◌, ◌+◌, ◌^◌, List, length, map, reverse, take, IfOk};
ghost use Rattle.sk_host.specs.Points.{LeadsTo, point_at};
ghost use Rattle.sk_isa.specs.Objects.{invoked, signature_at};
ghost use Rattle.sk_isa.specs.Soundness.{SuitParams};
ghost use Rattle.sk_isa.specs.declared.code.Instr.TheVariants.{Call};
ghost use Rattle.sk_meaning.specs.Evaluation.{Value};
ghost use Rattle.sk_vm.specs.Points.{values_in};
ghost use Rattle.sk_vm.specs.Rooms.{AreRooms};
ghost use Rattle.sk_world.specs.World.{World};

use crate::loaded::Loaded;
use crate::machine::{Lead, Stand, put};
use crate::passed::Passed;
use sk_base::{Cell, Trap};
use sk_isa::Object;
use sk_kernel::At;
use sk_vm::Frame;
use std::alloc::{AllocError, Global};

/// Calls a function with the topmost values, and puts its value in their place.
pub fn call(
    alloc: Global,
    program: &Loaded<'_>,
    function: u32,
    stand: Stand,
    stack: &mut [Cell],
    frame: &mut Frame,
) -> Result<Lead, AllocError>
    requires address { stand.at + 1 < 2 ^ 64 }
    requires inside { stand.top ≤ length stack.old }
    requires takes { length (signature_at program.now.object.now function).params ≤ stand.top }
    requires room { stand.top < length stack.old + length (signature_at program.now.object.now function).params }
    requires suited { SuitParams (signature_at program.now.object.now function).params (map Value (reverse (take (length (signature_at program.now.object.now function).params) (values_in stack.old stand.top)))) }
    requires rooms { AreRooms program.now.object.now program.now.rooms.now }
    requires there { function < length program.now.object.now.functions }
    ensures { IfOk result (λ lead. (slots : List ℤ) (world : World)
        → LeadsTo program.now.object.now world (Call function) (point_at stand stack.old slots world) lead stack.new slots) }
{
    let takes = param_count(program.object, function);
    let base = stand.top - takes;
    let arguments = &stack[base..stand.top];
    match run(alloc, program, function, arguments, frame)? {
        Ok(value) => {
            put(stack, base, value);
            Ok(Lead::Goes(stand.past(base + 1)))
        }
        Err(trap) => Ok(Lead::Traps(trap, 0)),
    }
}

/// How many parameters a function has.
#[inline]
fn param_count(object: &Object, function: u32) -> usize
    requires { function < length object.now.signatures }
    ensures { result ≡ length (signature_at object.now function).params }
{
    object.signatures.as_slice()[function as usize].params.len()
}

/// The value of a function for arguments, or its first trap.
fn run(
    alloc: Global,
    program: &Loaded<'_>,
    function: u32,
    arguments: &[Cell],
    frame: &mut Frame,
) -> Result<Result<Cell, Trap>, AllocError>
    requires rooms { AreRooms program.now.object.now program.now.rooms.now }
    requires there { function < length program.now.object.now.functions }
    requires suited { SuitParams (signature_at program.now.object.now function).params (map Value arguments.now) }
    ensures { IfOk result (λ value. value ≡ invoked program.now.object.now function (map Value arguments.now)) }
{
    frame.turn(alloc, program.object, program.rooms, function)?;
    Ok(frame.run(
        program.object,
        &Passed::Function(arguments),
        At { place: 0, pair: 0 },
    ))
}
