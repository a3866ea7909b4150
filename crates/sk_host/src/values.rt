//! Instructions that main and functions share.
ghost use Rattle.std.specs.Prelude.{◌≡◌, ℕ, ℤ, if◌then◌else◌, ◌<◌, ◌≤◌, ◌+◌, ◌-◌, ◌^◌, suc, pos, neg_ℤ, false, List, ◌∷◌, length, slice_set, slice_index_or};
ghost use Rattle.sk_base.specs.Arithmetic.{InRange, is_shift, wrapped};
ghost use Rattle.sk_host.specs.Needs.{Needs};
ghost use Rattle.sk_host.specs.Points.{Combines, LeadsTo, point_at};
ghost use Rattle.sk_isa.specs.declared.object.Object.{Object};
ghost use Rattle.sk_meaning.specs.Expressions.{holds};
ghost use Rattle.sk_vm.specs.Points.{values_in};
ghost use Rattle.sk_world.specs.World.{World};

use crate::machine::{Lead, Stand, last, put};
use sk_base::{Cell, Op, Ty, binary, convert};
use sk_isa::Instr;

/// Executes an instruction that main and functions share.
#[inline]
pub fn share(instr: &Instr, stand: Stand, stack: &mut [Cell], slots: &mut [Cell]) -> Lead
    requires address { stand.at + 1 < 2 ^ 64 }
    requires inside { stand.top ≤ length stack.old }
    requires needs { Needs instr.now stand.top stack.old slots.old }
    ensures { (object : Object) (world : World)
        → LeadsTo object world instr.now (point_at stand stack.old slots.old world) result stack.new slots.new }
{
    match instr {
        Instr::Push(number) => pushed(*number, stand, stack),
        Instr::Pop => Lead::Goes(stand.past(stand.top - 1)),
        Instr::Load(slot) => pushed(slots[*slot as usize], stand, stack),
        Instr::Store(slot) => stored(*slot, stand, stack, slots),
        Instr::Neg(ty) => {
            let value = last(stack, stand.top);
            replaced(negated(*ty, value), stand, stack)
        }
        Instr::Inv(_) => {
            let value = last(stack, stand.top);
            replaced(-1 - value, stand, stack)
        }
        Instr::Not => {
            let value = last(stack, stand.top);
            replaced(i64::from(value == 0), stand, stack)
        }
        Instr::Wrap => {
            let value = last(stack, stand.top);
            replaced(convert(Ty::Int, value), stand, stack)
        }
        Instr::Binary(op, ty) => combined(*op, *ty, stand, stack),
        Instr::Jump(to) => Lead::Goes(Stand {
            at: *to as usize,
            ..stand
        }),
        Instr::Zero(to) => tested(*to, stand, stack),
        _ => unreachable!(),
    }
}

/// The negated value, wrapped to its type.
#[inline]
fn negated(ty: Ty, value: Cell) -> Cell
    ensures { result ≡ wrapped ty (neg_ℤ value) }
{
    convert(ty, value.wrapping_neg())
}

/// One more value on the stack.
#[inline]
fn pushed(value: Cell, stand: Stand, stack: &mut [Cell]) -> Lead
    requires address { stand.at + 1 < 2 ^ 64 }
    requires room { stand.top < length stack.old }
    ensures goes { result ≡ Lead.Goes (record { at = suc stand.at; top = suc stand.top }) }
    ensures values { values_in stack.new (suc stand.top) ≡ value ∷ values_in stack.old stand.top }
{
    put(stack, stand.top, value);
    Lead::Goes(stand.past(stand.top + 1))
}

/// The topmost value goes into a slot.
#[inline]
fn stored(slot: u32, stand: Stand, stack: &[Cell], slots: &mut [Cell]) -> Lead
    requires address { stand.at + 1 < 2 ^ 64 }
    requires some { 0 < stand.top }
    requires inside { stand.top ≤ length stack.now }
    requires there { slot < length slots.old }
    ensures goes { result ≡ Lead.Goes (record { at = suc stand.at; top = stand.top - 1 }) }
    ensures slots { slots.new ≡ slice_set slots.old slot (slice_index_or stack.now (stand.top - 1) (pos 0)) }
{
    slots[slot as usize] = last(stack, stand.top);
    Lead::Goes(stand.past(stand.top - 1))
}

/// Another value in place of the topmost one.
#[inline]
fn replaced(value: Cell, stand: Stand, stack: &mut [Cell]) -> Lead
    requires address { stand.at + 1 < 2 ^ 64 }
    requires some { 0 < stand.top }
    requires inside { stand.top ≤ length stack.old }
    ensures goes { result ≡ Lead.Goes (record { at = suc stand.at; top = stand.top }) }
    ensures values { values_in stack.new stand.top ≡ value ∷ values_in stack.old (stand.top - 1) }
{
    put(stack, stand.top - 1, value);
    Lead::Goes(stand.past(stand.top))
}

/// An operator's value in place of its two operands, or its trap.
#[inline]
fn combined(op: Op, ty: Ty, stand: Stand, stack: &mut [Cell]) -> Lead
    requires address { stand.at + 1 < 2 ^ 64 }
    requires two { 1 < stand.top }
    requires inside { stand.top ≤ length stack.old }
    requires left { InRange ty (slice_index_or stack.old (stand.top - 2) (pos 0)) }
    requires right { is_shift op ≡ false → InRange ty (slice_index_or stack.old (stand.top - 1) (pos 0)) }
    ensures { Combines op ty stand stack.old stack.new result }
{
    match binary(op, ty, stack[stand.top - 2], stack[stand.top - 1]) {
        Ok(value) => {
            put(stack, stand.top - 2, value);
            Lead::Goes(stand.past(stand.top - 1))
        }
        Err(trap) => Lead::Traps(trap, 0),
    }
}

/// The topmost value goes, and where it is 0 the run goes on elsewhere.
#[inline]
fn tested(to: u32, stand: Stand, stack: &[Cell]) -> Lead
    requires address { stand.at + 1 < 2 ^ 64 }
    requires some { 0 < stand.top }
    requires inside { stand.top ≤ length stack.now }
    ensures { result ≡ Lead.Goes (record { at = if holds (slice_index_or stack.now (stand.top - 1) (pos 0)) then suc stand.at else to; top = stand.top - 1 }) }
{
    let value = last(stack, stand.top);
    let at = if value == 0 {
        to as usize
    } else {
        stand.at + 1
    };
    Lead::Goes(Stand {
        at,
        top: stand.top - 1,
    })
}
