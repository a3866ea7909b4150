ghost use Rattle.std.specs.Prelude.{◌≡◌, ℕ, ℤ, if◌then◌else◌, ◌<◌, ◌≤◌, ◌+◌, ◌-◌, ◌^◌, suc, pos, neg_ℤ, false, List, ◌∷◌, length, slice_set, slice_index_or};
ghost use Rattle.sk_base.specs.Arithmetic.{InRange, is_shift, wrapped};
ghost use Rattle.sk_meaning.specs.Evaluation.{Argument, element_at};
ghost use Rattle.sk_meaning.specs.Expressions.{holds};
ghost use Rattle.sk_vm.specs.Needs.{Needs};
ghost use Rattle.sk_vm.specs.Places.{IsWhole};
ghost use Rattle.sk_vm.specs.Points.{values_in, point_at, LeadsTo, KeepsForCall, Combines, ReadsItem};

use crate::stack::{Stand, last, put};
use crate::surroundings::Surroundings;
use sk_base::{Cell, Op, Trap, Ty, binary, convert};
use sk_isa::Instr;

/// Where an instruction leads.
#[derive(Clone, Copy)]
pub enum Lead {
    /// The run goes on.
    Goes(Stand),
    /// A function is to be called.
    Calls(u32),
    /// The function ends with a value and the turns that are left.
    Ends(Cell, u32),
    Traps(Trap),
}

/// Executes an instruction of a function, but for a call. `given` has what stands for the parameters that are no scalars.
#[inline]
pub fn step<S: Surroundings>(
    instr: &Instr,
    given: &S,
    stand: Stand,
    stack: &mut [Cell],
    slots: &mut [Cell],
) -> Lead
    requires address { stand.at + 1 < 2 ^ 64 }
    requires inside { stand.top ≤ length stack.old }
    requires needs { Needs instr.now (S.other given.now) (S.readable given.now) stand.top stack.old slots.old }
    ensures leads { LeadsTo instr.now (S.other given.now) (point_at stand stack.old slots.old) result stack.new slots.new }
    ensures kept { KeepsForCall result stack.old stack.new slots.old slots.new }
{
    match instr {
        Instr::Push(number) => pushed(*number, stand, stack),
        Instr::Pop => Lead::Goes(stand.past(stand.top - 1)),
        Instr::Load(slot) => pushed(slots[*slot as usize], stand, stack),
        Instr::Store(slot) => stored(*slot, stand, stack, slots),
        Instr::Field(slot, name) => pushed(given.field(*slot, name.as_bytes()), stand, stack),
        Instr::Item(slot, places) => item(*slot, *places, given, stand, stack),
        Instr::Neg(ty) => {
            let value = last(stack, stand.top);
            replaced(negated(*ty, value), stand, stack)
        }
        Instr::Inv(_) => {
            let value = last(stack, stand.top);
            replaced(-1 - value, stand, stack)
        }
        Instr::Not => {
            let value = last(stack, stand.top);
            replaced(i64::from(value == 0), stand, stack)
        }
        Instr::Wrap => {
            let value = last(stack, stand.top);
            replaced(convert(Ty::Int, value), stand, stack)
        }
        Instr::Binary(op, ty) => combined(*op, *ty, stand, stack),
        Instr::Jump(to) => Lead::Goes(Stand {
            at: *to as usize,
            ..stand
        }),
        Instr::Zero(to) => tested(*to, stand, stack),
        Instr::Turn => turned(stand),
        Instr::Call(function) => Lead::Calls(*function),
        Instr::Ret => Lead::Ends(last(stack, stand.top), stand.turns),
        _ => unreachable!(),
    }
}

/// The negated value, wrapped to its type.
#[inline]
fn negated(ty: Ty, value: Cell) -> Cell
    ensures { result ≡ wrapped ty (neg_ℤ value) }
{
    convert(ty, value.wrapping_neg())
}

/// One more value on the stack.
#[inline]
fn pushed(value: Cell, stand: Stand, stack: &mut [Cell]) -> Lead
    requires address { stand.at + 1 < 2 ^ 64 }
    requires room { stand.top < length stack.old }
    ensures goes { result ≡ Lead.Goes (record { at = suc stand.at; top = suc stand.top; turns = stand.turns }) }
    ensures values { values_in stack.new (suc stand.top) ≡ value ∷ values_in stack.old stand.top }
{
    put(stack, stand.top, value);
    Lead::Goes(stand.past(stand.top + 1))
}

/// The topmost value goes into a slot.
#[inline]
fn stored(slot: u32, stand: Stand, stack: &[Cell], slots: &mut [Cell]) -> Lead
    requires address { stand.at + 1 < 2 ^ 64 }
    requires some { 0 < stand.top }
    requires inside { stand.top ≤ length stack.now }
    requires there { slot < length slots.old }
    ensures goes { result ≡ Lead.Goes (record { at = suc stand.at; top = stand.top - 1; turns = stand.turns }) }
    ensures slots { slots.new ≡ slice_set slots.old slot (slice_index_or stack.now (stand.top - 1) (pos 0)) }
{
    slots[slot as usize] = last(stack, stand.top);
    Lead::Goes(stand.past(stand.top - 1))
}

/// Another value in place of the topmost one.
#[inline]
fn replaced(value: Cell, stand: Stand, stack: &mut [Cell]) -> Lead
    requires address { stand.at + 1 < 2 ^ 64 }
    requires some { 0 < stand.top }
    requires inside { stand.top ≤ length stack.old }
    ensures goes { result ≡ Lead.Goes (record { at = suc stand.at; top = stand.top; turns = stand.turns }) }
    ensures values { values_in stack.new stand.top ≡ value ∷ values_in stack.old (stand.top - 1) }
{
    put(stack, stand.top - 1, value);
    Lead::Goes(stand.past(stand.top))
}

/// An operator's value in place of its two operands, or its trap.
#[inline]
fn combined(op: Op, ty: Ty, stand: Stand, stack: &mut [Cell]) -> Lead
    requires address { stand.at + 1 < 2 ^ 64 }
    requires two { 1 < stand.top }
    requires inside { stand.top ≤ length stack.old }
    requires left { InRange ty (slice_index_or stack.old (stand.top - 2) (pos 0)) }
    requires right { is_shift op ≡ false → InRange ty (slice_index_or stack.old (stand.top - 1) (pos 0)) }
    ensures { Combines op ty stand stack.old stack.new result }
{
    match binary(op, ty, stack[stand.top - 2], stack[stand.top - 1]) {
        Ok(value) => {
            put(stack, stand.top - 2, value);
            Lead::Goes(stand.past(stand.top - 1))
        }
        Err(trap) => Lead::Traps(trap),
    }
}

/// The topmost value goes, and where it is 0 the run goes on elsewhere.
#[inline]
fn tested(to: u32, stand: Stand, stack: &[Cell]) -> Lead
    requires address { stand.at + 1 < 2 ^ 64 }
    requires some { 0 < stand.top }
    requires inside { stand.top ≤ length stack.now }
    ensures { result ≡ Lead.Goes (record { at = if holds (slice_index_or stack.now (stand.top - 1) (pos 0)) then suc stand.at else to; top = stand.top - 1; turns = stand.turns }) }
{
    let value = last(stack, stand.top);
    let at = if value == 0 {
        to as usize
    } else {
        stand.at + 1
    };
    Lead::Goes(Stand {
        at,
        top: stand.top - 1,
        turns: stand.turns,
    })
}

/// One turn less, or the trap where none is left.
#[inline]
fn turned(stand: Stand) -> Lead
    requires address { stand.at + 1 < 2 ^ 64 }
    ensures { (other : ℕ → Argument) (stack slots : List ℤ) → LeadsTo Instr.Turn other (point_at stand stack slots) result stack slots }
{
    if stand.turns == 0 {
        return Lead::Traps(Trap::Turns);
    }
    Lead::Goes(Stand {
        at: stand.at + 1,
        top: stand.top,
        turns: stand.turns - 1,
    })
}

/// The element of a container in place of its coordinates, or its trap.
#[inline]
fn item<S: Surroundings>(
    slot: u32,
    places: u32,
    given: &S,
    stand: Stand,
    stack: &mut [Cell],
) -> Lead
    requires address { stand.at + 1 < 2 ^ 64 }
    requires enough { places ≤ stand.top }
    requires inside { stand.top ≤ length stack.old }
    requires room { stand.top < length stack.old + places }
    requires whole { IsWhole (S.other given.now slot) }
    requires readable { S.readable given.now slot }
    ensures { ReadsItem slot places (S.other given.now) stand stack.old stack.new result }
{
    let base = stand.top - places as usize;
    match given.item(slot, &stack[base..stand.top]) {
        Ok(value) => {
            put(stack, base, value);
            Lead::Goes(stand.past(base + 1))
        }
        Err(trap) => Lead::Traps(trap),
    }
}
