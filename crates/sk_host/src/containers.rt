//! Instructions of main that make, read, write and end containers.
ghost use Rattle.std.specs.Prelude.{◌≡◌, ℕ, ℤ, ◌<◌, ◌≤◌, ◌+◌, ◌^◌, suc, List, length, IsSome, Some, IfOk, slice_get, slice_set};
ghost use Rattle.sk_host.specs.Points.{Does, point_at};
ghost use Rattle.sk_host.specs.Stores.{IsPoked, Kept, Mirrors, kept_at};
ghost use Rattle.sk_isa.specs.declared.code.Instr.TheVariants.{Drop as DropContainer, Item, Make, Poke, Size};
ghost use Rattle.sk_isa.specs.declared.object.Object.{Object};
ghost use Rattle.sk_world.specs.World.{World};

use crate::held::Held;
use crate::machine::{Lead, Stand, put};
use crate::sizes::size;
use crate::spare::Spare;
use sk_base::{Cell, Trap, Ty};
use std::alloc::{AllocError, Global};

/// A container that is there.
#[inline]
pub fn held(store: &[Option<Held>], container: u32) -> &Held
    requires { IsSome (kept_at store.now container) }
    ensures { kept_at store.now container ≡ Some result.now }
{
    match &store[container as usize] {
        Some(held) => held,
        None => unreachable!(),
    }
}

/// Pops a place of so many coordinates, and pushes the element there; it traps where there is none.
pub fn item(
    container: u32,
    places: u32,
    stand: Stand,
    stack: &mut [Cell],
    store: &[Option<Held>],
) -> Lead
    requires address { stand.at + 1 < 2 ^ 64 }
    requires inside { stand.top ≤ length stack.old }
    requires places { places ≤ stand.top }
    requires room { stand.top < length stack.old + places }
    requires there { IsSome (kept_at store.now container) }
    ensures { (object : Object) (slots : List ℤ) (world : World) → Mirrors store.now world
        → Does object (Item container places) (point_at stand stack.old slots world) result stack.new slots store.now }
{
    let base = stand.top - places as usize;
    match held(store, container).element(&stack[base..stand.top]) {
        Some(value) => {
            put(stack, base, value);
            Lead::Goes(stand.past(base + 1))
        }
        None => Lead::Traps(Trap::Index, 0),
    }
}

/// Pushes a size of a container, by the name of its method.
pub fn measure(
    container: u32,
    method: &[u8],
    stand: Stand,
    stack: &mut [Cell],
    store: &[Option<Held>],
) -> Lead
    requires address { stand.at + 1 < 2 ^ 64 }
    requires room { stand.top < length stack.old }
    requires there { IsSome (kept_at store.now container) }
    ensures { (object : Object) (slots : List ℤ) (world : World) → Mirrors store.now world
        → Does object (Size container method.now) (point_at stand stack.old slots world) result stack.new slots store.now }
{
    let value = size(held(store, container).shape(), method);
    put(stack, stand.top, Cell::from(value));
    Lead::Goes(stand.past(stand.top + 1))
}

/// Pops a value and then a place, and writes the element there; it traps where there is none.
pub fn poke(
    container: u32,
    places: u32,
    stand: Stand,
    stack: &[Cell],
    store: &mut [Option<Held>],
) -> Lead
    requires address { stand.at + 1 < 2 ^ 64 }
    requires inside { stand.top ≤ length stack.now }
    requires values { suc places ≤ stand.top }
    requires there { IsSome (kept_at store.old container) }
    ensures { (object : Object) (slots : List ℤ) (world : World) → Mirrors store.old world
        → Does object (Poke container places) (point_at stand stack.now slots world) result stack.now slots store.new }
{
    let value = stand.top - 1;
    let base = value - places as usize;
    if write(store, container, &stack[base..value], stack[value]) {
        Lead::Goes(stand.past(base))
    } else {
        Lead::Traps(Trap::Index, 0)
    }
}

/// Writes the element of a container at a place, and tells whether there is one.
fn write(store: &mut [Option<Held>], container: u32, place: &[Cell], value: Cell) -> bool
    requires { IsSome (kept_at store.old container) }
    ensures { (before : Kept) → kept_at store.old container ≡ Some before
        → (now : Kept) × IsPoked before place.now value result now × (store.new ≡ slice_set store.old container (Some now)) }
{
    match &mut store[container as usize] {
        Some(held) => held.poke(place, value),
        None => unreachable!(),
    }
}

/// Pops a fill value and then the sizes, and makes a container; it traps where the sizes are no shape.
pub fn make(
    alloc: Global,
    container: u32,
    ty: Ty,
    sizes: u32,
    stand: Stand,
    stack: &[Cell],
    store: &mut [Option<Held>],
) -> Result<Lead, AllocError>
    requires address { stand.at + 1 < 2 ^ 64 }
    requires inside { stand.top ≤ length stack.now }
    requires values { suc sizes ≤ stand.top }
    requires there { container < length store.old }
    ensures { IfOk result (λ lead. (object : Object) (kind : ℕ) (slots : List ℤ) (world : World) → IsSome (slice_get object.containers container) → Mirrors store.old world
        → Does object (Make container kind ty sizes) (point_at stand stack.now slots world) lead stack.now slots store.new) }
{
    let fill = stand.top - 1;
    let base = fill - sizes as usize;
    match Held::new(alloc, ty, &stack[base..fill], stack[fill])? {
        Some(held) => {
            store[container as usize] = Some(held);
            Ok(Lead::Goes(stand.past(base)))
        }
        None => Ok(Lead::Traps(Trap::Shape, 0)),
    }
}

/// Ends a container. Its cells may serve a later result.
pub fn end(container: u32, stand: Stand, store: &mut [Option<Held>], spare: &mut Spare) -> Lead
    requires address { stand.at + 1 < 2 ^ 64 }
    requires there { container < length store.old }
    ensures { (object : Object) (stack slots : List ℤ) (world : World) → Mirrors store.old world
        → Does object (DropContainer container) (point_at stand stack slots world) result stack slots store.new }
{
    if let Some(held) = store[container as usize].take() {
        spare.keep(held.into_cells());
    }
    Lead::Goes(stand.past(stand.top))
}
