ghost use Rattle.std.specs.Prelude.{◌≡◌, ℕ, ℤ, ◌<◌, ◌≤◌, ◌+◌, ◌-◌, ◌^◌, suc, pos, List, ◌∷◌, ◌++◌, length, take, drop, map, reverse, replicate};
ghost use Rattle.sk_isa.specs.Coded.{function_of};
ghost use Rattle.sk_isa.specs.Configurations.{returning};
ghost use Rattle.sk_isa.specs.Objects.{signature_at};
ghost use Rattle.sk_isa.specs.Soundness.{SuitParams};
ghost use Rattle.sk_meaning.specs.Evaluation.{Value};
ghost use Rattle.sk_vm.specs.Calls.{HasSpace, MayCall};
ghost use Rattle.sk_vm.specs.Places.{OfContainers};
ghost use Rattle.sk_vm.specs.Rooms.{Begins, begun_with};
ghost use Rattle.sk_vm.specs.Points.{values_in, point_at, led_to};

use crate::entry::Entry;
use crate::parts::instr_at;
use crate::stack::Stand;
use crate::step::{Lead, step};
use crate::surroundings::Surroundings;
use sk_base::{Cell, Trap};

/// Runs a function whose arguments stand in its slots, and gives its value beside the turns that are then left.
///
/// The values of the calls below stand in `stack` and in `rest`, and `given` has what stands for its other parameters.
#[cycle(run)]
pub fn run_code<S: Surroundings>(
    entry: &Entry<'_>,
    given: &S,
    stack: &mut [Cell],
    slots: &mut [Cell],
    rest: &mut [Cell],
    turns: u32,
) -> Result<(Cell, u32), Trap>
    requires begins { Begins entry.now.object entry.now.function (S.other given.now) slots.old }
    requires readable { OfContainers (signature_at entry.now.object entry.now.function).params (S.readable given.now) }
    requires space { HasSpace entry.now stack.old (length slots.old + length rest.old) }
    ensures { result ≡ function_of entry.now.object entry.now.function (begun_with entry.now.object entry.now.function (S.other given.now) slots.old) turns }
{
    let instrs = entry.instrs();
    let mut stand = Stand {
        at: 0,
        top: 0,
        turns,
    };
    loop {
        match step(instr_at(instrs, stand.at), given, stand, stack, slots) {
            Lead::Goes(next) => stand = next,
            Lead::Ends(value, left) => return Ok((value, left)),
            Lead::Traps(trap) => return Err(trap),
            Lead::Calls(callee) => match called(&entry.of(callee), given, stand, stack, rest) {
                Ok(next) => stand = next,
                Err(trap) => return Err(trap),
            },
        }
    }
}

/// Calls a function with the topmost values, and puts its value where they stood. It takes scalars alone, so what the caller is
/// given beside is nothing to it.
#[cycle(run)]
fn called<S: Surroundings>(
    callee: &Entry<'_>,
    given: &S,
    stand: Stand,
    stack: &mut [Cell],
    rest: &mut [Cell],
) -> Result<Stand, Trap>
    requires address { stand.at + 1 < 2 ^ 64 }
    requires ready { MayCall callee.now stand stack.old rest.old }
    ensures { let takes = length (signature_at callee.now.object callee.now.function).params in
        let values = values_in stack.old stand.top in
        (slots : List ℤ) → led_to result stack.new slots
        ≡ returning (point_at stand stack.old slots) (drop takes values) (function_of callee.now.object callee.now.function (map Value (reverse (take takes values))) stand.turns) }
{
    let takes = callee.param_count();
    let base = stand.top - takes;
    let (slots, below) = rest.split_at_mut(callee.slot_count());
    let (_, free) = stack.split_at_mut(base);
    enter(&free[..takes], slots);
    match run_code(callee, given, free, slots, below, stand.turns) {
        Ok((value, turns)) => {
            free[0] = value;
            Ok(Stand {
                at: stand.at + 1,
                top: base + 1,
                turns,
            })
        }
        Err(trap) => Err(trap),
    }
}

/// Gives slots their values at the start of a function: arguments, and then 0.
pub fn enter(arguments: &[Cell], slots: &mut [Cell])
    requires { length arguments.now ≤ length slots.old }
    ensures { slots.new ≡ arguments.now ++ replicate (length slots.old - length arguments.now) (pos 0) }
{
    let (given, others) = slots.split_at_mut(arguments.len());
    given.copy_from_slice(arguments);
    clear(others);
}

/// Sets all slots to 0.
pub fn clear(slots: &mut [Cell])
    ensures { slots.new ≡ replicate (length slots.old) (pos 0) }
{
    for k in 0..slots.len() {
        slots[k] = 0;
    }
}
