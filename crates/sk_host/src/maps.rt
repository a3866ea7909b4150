//! Calls of Maps.
ghost use Rattle.std.specs.Prelude.{◌≡◌, ℕ, ℤ, ◌<◌, ◌≤◌, ◌^◌, false, length, map, slice_get, Some, IfOk};
ghost use Rattle.sk_base.specs.Shape.{cells_of};
ghost use Rattle.sk_formula.specs.Calls.{are_all};
ghost use Rattle.sk_host.specs.Maps.{IsFilled, IsMap, MayMap, value_for};
ghost use Rattle.sk_host.specs.Passed.{map_source, sizes_held};
ghost use Rattle.sk_host.specs.Stores.{kept_at};
ghost use Rattle.sk_isa.specs.declared.object.Plan.{Plan};
ghost use Rattle.sk_kernel.specs.Instances.{instance_meaning};
ghost use Rattle.sk_kernel.specs.Kernels.{AgreeRun, SuitsRun, given_by};
ghost use Rattle.sk_tree.specs.InstanceSettings.{default_settings};
ghost use Rattle.sk_vm.specs.Rooms.{AreRooms};

use crate::held::Held;
use crate::loaded::Loaded;
use crate::passed::{MapCall, Passed, shape_or};
use crate::spare::Spare;
use sk_base::{Cell, Shape};
use sk_kernel::{At, Kernel, RunTrap};
use sk_vm::{Frame, Sharing};
use std::alloc::{AllocError, Global};

/// Whether all operands have the same shape as the result.
pub fn are_alike(store: &[Option<Held>], over: &Shape, operands: &[u32]) -> bool
    ensures { result ≡ are_all over.now (map (λ number. sizes_held over.now (kept_at store.now number)) operands.now) }
{
    match operands {
        [] => true,
        [first, rest @ ..] => {
            shape_or(store, over, *first) == over && are_alike(store, over, rest)
        }
    }
}

/// The kernel's values at each place of the result, or the least place that traps, with its trap.
pub fn values<K: Kernel>(
    alloc: Global,
    kernel: &mut K,
    call: &MapCall<'_>,
    spare: &mut Spare,
) -> Result<Result<Vec<Cell>, RunTrap>, AllocError>
    requires few { cells_of call.now.over.now ≤ 2 ^ 24 }
    requires single { (K.means kernel.old).pairs ≡ false }
    requires suits { SuitsRun (K.means kernel.old) (map_source call.now) 0 0 (cells_of call.now.over.now) }
    ensures values { (cells : ℕ → ℕ → ℤ)
        → AgreeRun (K.means kernel.old) (map_source call.now) 0 0 (cells_of call.now.over.now) cells
        → IfOk result (IsMap (value_for (K.means kernel.old) (given_by (map_source call.now) cells)) (cells_of call.now.over.now)) }
    ensures count { IfOk result (IsFilled (cells_of call.now.over.now)) }
    ensures same { K.means kernel.new ≡ K.means kernel.old }
{
    let count = call.over.cells() as usize;
    let mut cells = spare.take(alloc, count)?;
    match kernel.apply_each(&Passed::Map(call), At { place: 0, pair: 0 }, &mut cells) {
        Ok(()) => Ok(Ok(cells)),
        Err(trapped) => {
            spare.keep(cells);
            Ok(Err(trapped))
        }
    }
}

/// The values of an instance at each place of the result.
pub fn computed(
    alloc: Global,
    program: &Loaded<'_>,
    instance: u32,
    call: &MapCall<'_>,
    frame: &mut Frame,
    spare: &mut Spare,
) -> Result<Result<Vec<Cell>, RunTrap>, AllocError>
    requires few { cells_of call.now.over.now ≤ 2 ^ 24 }
    requires rooms { AreRooms program.now.object.now program.now.rooms.now }
    requires there { instance < length program.now.object.now.instances }
    requires may { (plan : Plan) → slice_get program.now.object.now.instances instance ≡ Some plan
        → MayMap program.now.object.now plan call.now.store.now call.now.operands.now call.now.kinds.now call.now.uniforms.now call.now.over.now }
    ensures values { (plan : Plan) (cells : ℕ → ℕ → ℤ) → slice_get program.now.object.now.instances instance ≡ Some plan
        → AgreeRun (instance_meaning program.now.object.now plan default_settings) (map_source call.now) 0 0 (cells_of call.now.over.now) cells
        → IfOk result (IsMap (value_for (instance_meaning program.now.object.now plan default_settings) (given_by (map_source call.now) cells)) (cells_of call.now.over.now)) }
    ensures count { IfOk result (IsFilled (cells_of call.now.over.now)) }
{
    let mut kernel = Sharing::new(alloc, program.object, program.rooms, instance, frame)?;
    values(alloc, &mut kernel, call, spare)
}
