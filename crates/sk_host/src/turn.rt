//! What each instruction of main does.
ghost use Rattle.std.specs.Prelude.{◌≡◌, ℤ, ◌<◌, ◌≤◌, ◌+◌, ◌^◌, List, [], length, Option, Some};
ghost use Rattle.sk_host.specs.Needs.{MayAct, MayTurn};
ghost use Rattle.sk_host.specs.Points.{point_at};
ghost use Rattle.sk_host.specs.Stores.{Kept, Mirrors};
ghost use Rattle.sk_host.specs.Turns.{Turns, text_of};
ghost use Rattle.sk_isa.specs.declared.code.Instr.{Instr as Instruction};
ghost use Rattle.sk_isa.specs.declared.code.Instr.TheVariants.{Count, Halt, Print};
ghost use Rattle.sk_isa.specs.declared.object.Object.{Object as Program};
ghost use Rattle.sk_outside.specs.Holding.{SinkHolding};
ghost use Rattle.sk_vm.specs.Rooms.{AreRooms};
ghost use Rattle.sk_world.specs.World.{World};

use crate::act::act;
use crate::held::Held;
use crate::loaded::Loaded;
use crate::machine::{Lead, State, last};
use crate::outcome::Outcome;
use crate::printing::{print, print_number};
use crate::workspace::Workspace;
use sk_base::Cell;
use sk_isa::Instr;
use sk_outside::Sink;
use std::alloc::Global;

/// Executes an instruction of main.
#[inline]
pub fn turn<O: Sink>(
    alloc: Global,
    program: &Loaded<'_>,
    instr: &Instr,
    state: State,
    stack: &mut [Cell],
    slots: &mut [Cell],
    store: &mut [Option<Held>],
    workspace: &mut Workspace,
    out: &mut O,
) -> Result<State, Outcome>
    requires address { state.stand.at + 1 < 2 ^ 64 }
    requires inside { state.stand.top ≤ length stack.old }
    requires needs { MayTurn program.now.object.now instr.now state.stand.top stack.old slots.old store.old }
    requires rooms { AreRooms program.now.object.now program.now.rooms.now }
    ensures { (world : World) → Mirrors store.old world → world.settings ≡ [] → world.statements_left ≡ state.left → world.line ≡ state.line
        → Turns program.now.object.now instr.now (point_at state.stand stack.old slots.old world) result stack.new slots.new store.new (O.holds out.old) (O.holds out.new) }
{
    match instr {
        Instr::Count(line) => count(*line, state),
        Instr::Print => print_top(alloc, state, stack, out),
        Instr::Text(text) => print_text(alloc, text.as_bytes(), state, out),
        Instr::Endl => print_text(alloc, b"\n", state, out),
        Instr::Halt => Err(Outcome::End),
        _ => step(alloc, program, instr, state, stack, slots, store, workspace),
    }
}

/// Counts a statement, where one is left.
#[inline]
fn count(line: u32, state: State) -> Result<State, Outcome>
    requires address { state.stand.at + 1 < 2 ^ 64 }
    ensures { (object : Program) (stack slots : List ℤ) (store : List (Option Kept)) (world : World) (sink : SinkHolding)
        → Mirrors store world → world.statements_left ≡ state.left
        → Turns object (Count line) (point_at state.stand stack slots world) result stack slots store sink sink }
{
    if state.left == 0 {
        return Err(Outcome::Bound);
    }
    Ok(State {
        stand: state.stand.past(state.stand.top),
        left: state.left - 1,
        line,
    })
}

/// Prints the topmost value.
fn print_top<O: Sink>(
    alloc: Global,
    state: State,
    stack: &[Cell],
    out: &mut O,
) -> Result<State, Outcome>
    requires address { state.stand.at + 1 < 2 ^ 64 }
    requires inside { state.stand.top ≤ length stack.now }
    requires some { 0 < state.stand.top }
    ensures { (object : Program) (slots : List ℤ) (store : List (Option Kept)) (world : World)
        → Mirrors store world → world.statements_left ≡ state.left → world.line ≡ state.line
        → Turns object Print (point_at state.stand stack.now slots world) result stack.now slots store (O.holds out.old) (O.holds out.new) }
{
    let top = state.stand.top;
    print_number(alloc, last(stack, top), out)?;
    Ok(State {
        stand: state.stand.past(top - 1),
        ..state
    })
}

/// Prints a text.
fn print_text<O: Sink>(
    alloc: Global,
    text: &[u8],
    state: State,
    out: &mut O,
) -> Result<State, Outcome>
    requires address { state.stand.at + 1 < 2 ^ 64 }
    ensures { (object : Program) (instr : Instruction) (stack slots : List ℤ) (store : List (Option Kept)) (world : World)
        → text_of instr ≡ Some text.now → Mirrors store world → world.statements_left ≡ state.left → world.line ≡ state.line
        → Turns object instr (point_at state.stand stack slots world) result stack slots store (O.holds out.old) (O.holds out.new) }
{
    print(alloc, text, out)?;
    Ok(State {
        stand: state.stand.past(state.stand.top),
        ..state
    })
}

/// Executes an instruction that neither prints nor counts.
#[inline]
fn step(
    alloc: Global,
    program: &Loaded<'_>,
    instr: &Instr,
    state: State,
    stack: &mut [Cell],
    slots: &mut [Cell],
    store: &mut [Option<Held>],
    workspace: &mut Workspace,
) -> Result<State, Outcome>
    requires address { state.stand.at + 1 < 2 ^ 64 }
    requires inside { state.stand.top ≤ length stack.old }
    requires needs { MayAct program.now.object.now instr.now state.stand.top stack.old slots.old store.old }
    requires rooms { AreRooms program.now.object.now program.now.rooms.now }
    ensures { (world : World) (sink : SinkHolding) → Mirrors store.old world → world.settings ≡ [] → world.statements_left ≡ state.left → world.line ≡ state.line
        → Turns program.now.object.now instr.now (point_at state.stand stack.old slots.old world) result stack.new slots.new store.new sink sink }
{
    match act(
        alloc,
        program,
        instr,
        state.stand,
        stack,
        slots,
        store,
        workspace,
    ) {
        Ok(Lead::Goes(stand)) => Ok(State { stand, ..state }),
        Ok(Lead::Traps(trap, element)) => Err(Outcome::Trapped {
            trap,
            line: state.line,
            element,
        }),
        Err(_) => Err(Outcome::Memory),
    }
}
