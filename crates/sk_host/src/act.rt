//! What instructions of main do that neither print nor count.
ghost use Rattle.std.specs.Prelude.{◌≡◌, ◌<◌, ◌≤◌, ◌+◌, ◌^◌, [], length, IfOk};
ghost use Rattle.sk_host.specs.Needs.{MayAct};
ghost use Rattle.sk_host.specs.Points.{Does, point_at};
ghost use Rattle.sk_host.specs.Stores.{Mirrors};
ghost use Rattle.sk_vm.specs.Rooms.{AreRooms};
ghost use Rattle.sk_world.specs.World.{World};

use crate::calls::call;
use crate::containers::{end, item, make, measure, poke};
use crate::held::Held;
use crate::loaded::Loaded;
use crate::machine::{Lead, Stand};
use crate::map_calls::map;
use crate::values::share;
use crate::workspace::Workspace;
use sk_base::Cell;
use sk_isa::Instr;
use std::alloc::{AllocError, Global};

/// Executes an instruction that neither prints nor counts.
#[inline]
pub fn act(
    alloc: Global,
    program: &Loaded<'_>,
    instr: &Instr,
    stand: Stand,
    stack: &mut [Cell],
    slots: &mut [Cell],
    store: &mut [Option<Held>],
    workspace: &mut Workspace,
) -> Result<Lead, AllocError>
    requires address { stand.at + 1 < 2 ^ 64 }
    requires inside { stand.top ≤ length stack.old }
    requires needs { MayAct program.now.object.now instr.now stand.top stack.old slots.old store.old }
    requires rooms { AreRooms program.now.object.now program.now.rooms.now }
    ensures { IfOk result (λ lead. (world : World) → Mirrors store.old world → world.settings ≡ []
        → Does program.now.object.now instr.now (point_at stand stack.old slots.old world) lead stack.new slots.new store.new) }
{
    match instr {
        Instr::Size(container, method) => {
            Ok(measure(*container, method.as_bytes(), stand, stack, store))
        }
        Instr::Item(container, places) => Ok(item(*container, *places, stand, stack, store)),
        Instr::Poke(container, places) => Ok(poke(*container, *places, stand, stack, store)),
        Instr::Make(container, _, ty, sizes) => {
            make(alloc, *container, *ty, *sizes, stand, stack, store)
        }
        Instr::Drop(container) => Ok(end(*container, stand, store, &mut workspace.spare)),
        Instr::Call(function) => call(
            alloc,
            program,
            *function,
            stand,
            stack,
            &mut workspace.frame,
        ),
        Instr::Do(instance, containers, uniforms) => map(
            alloc,
            program,
            *instance,
            containers.as_slice(),
            *uniforms,
            stand,
            stack,
            store,
            workspace,
        ),
        _ => Ok(share(instr, stand, stack, slots)),
    }
}
