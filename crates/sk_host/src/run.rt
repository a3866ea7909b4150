//! Runs of whole programs.
ghost use Rattle.std.specs.Prelude.{◌≡◌, ◌<◌, ◌+◌, ◌^◌, [], false, length, slice_get, Some};
ghost use Rattle.sk_host.specs.Outcomes.{IsOutcome};
ghost use Rattle.sk_host.specs.Underway.{IsUnderway};
ghost use Rattle.sk_main_code.specs.MainSteps.{coded_of};
ghost use Rattle.sk_main_code.specs.Sound.{IsSound};
ghost use Rattle.sk_main_code.specs.Vectors.{IsVectorObject};
ghost use Rattle.sk_vm.specs.Rooms.{AreRooms};

use crate::held::Held;
use crate::loaded::Loaded;
use crate::machine::{Stand, State};
use crate::outcome::Outcome;
use crate::room::Room;
use crate::turn::turn;
use crate::workspace::Workspace;
use sk_base::Cell;
use sk_isa::{Instr, Object};
use sk_outside::Sink;
use std::alloc::Global;

/// Runs the main of a compiled program of vectors, which may execute so many statements.
///
/// What it prints goes to the sink, one statement after another.
///
/// - Units: the bound counts statements of main. A trap is told with the line of its statement and with its element, which is
///   the least index in row-major order at which a call traps. It is 0 outside of calls, and where a container of a call has
///   other sizes than the result.
/// - Errors: where a put fails or memory is wanting, the run is cut off.
/// - Cost: the stack, the slots, the places for containers, and one frame for all functions and instances are taken once, at the
///   start. Of the instructions only those that make a container or call a Map take memory, for its cells; a Map takes none where
///   an earlier one, or a container that ended, left as many. At most one such buffer is kept beside the live containers. A put
///   may take memory where the sink does. Items are printed one by one, each by a put of its own.
pub fn execute<O: Sink>(alloc: Global, object: &Object, bound: u64, out: &mut O) -> Outcome
    requires sound { IsSound object.now }
    requires vectors { IsVectorObject object.now }
    ensures { IsOutcome (coded_of object.now [] bound false) (O.holds out.old) (O.holds out.new) result }
{
    let Ok(room) = Room::new(alloc, object) else {
        return Outcome::Memory;
    };
    let Room {
        mut stack,
        mut slots,
        mut store,
        rooms,
        mut workspace,
    } = room;
    let program = Loaded {
        object,
        rooms: &rooms,
    };
    let state = State {
        stand: Stand { at: 0, top: 0 },
        left: bound,
        line: 0,
    };
    run(
        alloc,
        &program,
        bound,
        state,
        &mut stack,
        &mut slots,
        &mut store,
        &mut workspace,
        out,
    )
}

/// Executes instructions from where a run stands until it is over.
fn run<O: Sink>(
    alloc: Global,
    program: &Loaded<'_>,
    bound: u64,
    start: State,
    stack: &mut [Cell],
    slots: &mut [Cell],
    store: &mut [Option<Held>],
    workspace: &mut Workspace,
    out: &mut O,
) -> Outcome
    requires rooms { AreRooms program.now.object.now program.now.rooms.now }
    requires underway { IsUnderway program.now.object.now bound start (record { stack = stack.old; slots = slots.old; store = store.old }) (O.holds out.old) (O.holds out.old) }
    ensures { IsOutcome (coded_of program.now.object.now [] bound false) (O.holds out.old) (O.holds out.new) result }
{
    let instrs = program.object.main.instrs.as_slice();
    let mut state = start;
    loop {
        let instr = instr_at(instrs, state.stand.at);
        match turn(
            alloc, program, instr, state, stack, slots, store, workspace, out,
        ) {
            Ok(next) => state = next,
            Err(outcome) => return outcome,
        }
    }
}

/// The instruction at an address.
#[inline]
fn instr_at(instrs: &[Instr], at: usize) -> &Instr
    requires { at < length instrs.now }
    ensures found { slice_get instrs.now at ≡ Some result.now }
    ensures address { at + 1 < 2 ^ 64 }
{
    &instrs[at]
}
