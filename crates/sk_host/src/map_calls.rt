//! Call statements of Maps.
ghost use Rattle.std.specs.Prelude.{◌≡◌, ℕ, ℤ, ◌<◌, ◌≤◌, ◌+◌, ◌-◌, ◌^◌, List, [], ◌∷◌, length, take, drop, slice_get, slice_set, Some, IsSome, IfOk};
ghost use Rattle.sk_host.specs.MapCalls.{HasFilled, IsComputed, IsMapCall};
ghost use Rattle.sk_host.specs.Maps.{params_of};
ghost use Rattle.sk_host.specs.Points.{Does, point_at};
ghost use Rattle.sk_host.specs.Stores.{Kept, Mirrors, kept_at};
ghost use Rattle.sk_isa.specs.SoundObjects.{HasSoundFunctions};
ghost use Rattle.sk_isa.specs.declared.code.Instr.TheVariants.{Do};
ghost use Rattle.sk_isa.specs.Objects.{function_at};
ghost use Rattle.sk_isa.specs.declared.object.Plan.{Plan};
ghost use Rattle.sk_vm.specs.Rooms.{AreRooms};
ghost use Rattle.sk_world.specs.World.{World};

use crate::containers::held;
use crate::held::Held;
use crate::loaded::Loaded;
use crate::machine::{Lead, Stand};
use crate::maps::{are_alike, computed};
use crate::passed::MapCall;
use crate::workspace::Workspace;
use sk_base::{Cell, Trap};
use sk_isa::{Object, Plan};
use sk_kernel::RunTrap;
use sk_tree::ParamKind;
use std::alloc::{AllocError, Global};

/// Calls a Map for containers, the result first, and the topmost values as its uniform arguments.
pub fn map(
    alloc: Global,
    program: &Loaded<'_>,
    instance: u32,
    containers: &[u32],
    uniforms: u32,
    stand: Stand,
    stack: &[Cell],
    store: &mut [Option<Held>],
    workspace: &mut Workspace,
) -> Result<Lead, AllocError>
    requires address { stand.at + 1 < 2 ^ 64 }
    requires inside { stand.top ≤ length stack.now }
    requires values { uniforms ≤ stand.top }
    requires rooms { AreRooms program.now.object.now program.now.rooms.now }
    requires there { instance < length program.now.object.now.instances }
    requires calls { IsMapCall program.now.object.now instance containers.now uniforms store.old }
    ensures { IfOk result (λ lead. (slots : List ℤ) (world : World) → Mirrors store.old world → world.settings ≡ []
        → Does program.now.object.now (Do instance containers.now uniforms) (point_at stand stack.now slots world) lead stack.now slots store.new) }
{
    let base = stand.top - uniforms as usize;
    let given = &stack[base..stand.top];
    match compute(
        alloc, program, instance, containers, given, store, workspace,
    )? {
        Ok(cells) => {
            workspace.spare.keep(refill(store, containers[0], cells));
            Ok(Lead::Goes(stand.past(base)))
        }
        Err(trapped) => Ok(Lead::Traps(trapped.trap, trapped.offset)),
    }
}

/// What a Map computes for its result, the first of its containers: the new cells, or the trap.
fn compute(
    alloc: Global,
    program: &Loaded<'_>,
    instance: u32,
    containers: &[u32],
    uniforms: &[Cell],
    store: &[Option<Held>],
    workspace: &mut Workspace,
) -> Result<Result<Vec<Cell>, RunTrap>, AllocError>
    requires rooms { AreRooms program.now.object.now program.now.rooms.now }
    requires there { instance < length program.now.object.now.instances }
    requires calls { IsMapCall program.now.object.now instance containers.now (length uniforms.now) store.now }
    ensures values { IfOk result (IsComputed program.now.object.now instance containers.now uniforms.now store.now) }
    ensures filled { IfOk result (HasFilled containers.now store.now) }
{
    match containers {
        [result, operands @ ..] => {
            let over = held(store, *result).shape();
            if are_alike(store, over, operands) {
                let call = MapCall {
                    store,
                    operands,
                    kinds: uniform_kinds(program.object, instance),
                    uniforms,
                    over,
                };
                computed(
                    alloc,
                    program,
                    instance,
                    &call,
                    &mut workspace.frame,
                    &mut workspace.spare,
                )
            } else {
                Ok(Err(RunTrap {
                    trap: Trap::Shape,
                    offset: 0,
                }))
            }
        }
        [] => unreachable!(),
    }
}

/// The parameters of an instance's function behind its elements.
fn uniform_kinds(object: &Object, instance: u32) -> &[ParamKind]
    requires sound { HasSoundFunctions object.now }
    requires there { instance < length object.now.instances }
    requires upto { (plan : Plan) → slice_get object.now.instances instance ≡ Some plan → plan.elements ≤ length (params_of object.now plan) }
    ensures { (plan : Plan) → slice_get object.now.instances instance ≡ Some plan → result.now ≡ drop plan.elements (params_of object.now plan) }
{
    let plan = plan_at(object, instance);
    let params = params(object, plan);
    let (_, kinds) = params.split_at(plan.elements as usize);
    kinds
}

/// An instance by its number.
fn plan_at(object: &Object, instance: u32) -> &Plan
    requires { instance < length object.now.instances }
    ensures { slice_get object.now.instances instance ≡ Some result.now }
{
    &object.instances.as_slice()[instance as usize]
}

/// The parameters of an instance's first function.
fn params<'a>(object: &'a Object, plan: &Plan) -> &'a [ParamKind]
    requires some { 0 < length plan.now.functions }
    requires there { function_at plan.now 0 < length object.now.signatures }
    ensures { result.now ≡ params_of object.now plan.now }
{
    let function = plan.functions.as_slice()[0];
    object.signatures.as_slice()[function as usize]
        .params
        .as_slice()
}

/// Gives a container new cells, and takes those out that it had.
fn refill(store: &mut [Option<Held>], container: u32, cells: Vec<Cell>) -> Vec<Cell>
    requires there { IsSome (kept_at store.old container) }
    requires count { (before : Kept) → kept_at store.old container ≡ Some before → length cells.items ≡ length before.cells }
    ensures { (before : Kept) → kept_at store.old container ≡ Some before
        → store.new ≡ slice_set store.old container (Some (record before { cells = cells.items })) }
{
    match &mut store[container as usize] {
        Some(held) => held.fill(cells),
        None => unreachable!(),
    }
}
