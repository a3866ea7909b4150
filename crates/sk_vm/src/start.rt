ghost use Rattle.std.specs.Prelude.{◌≡◌, ℕ, ℤ, ◌<◌, ◌≤◌, ◌+◌, ◌-◌, suc, pos, Some, IsSome, IfOk, List, [], ◌∷◌, ◌++◌, length, map, replicate};
ghost use Rattle.sk_base.specs.Arithmetic.{InRange};
ghost use Rattle.sk_kernel.specs.Instances.{function_meaning};
ghost use Rattle.sk_isa.specs.Objects.{invoked, signature_at};
ghost use Rattle.sk_kernel.specs.Kernels.{Suits, Agree, given_by};
ghost use Rattle.sk_isa.specs.Soundness.{SuitParams};
ghost use Rattle.sk_meaning.specs.Evaluation.{Value, number_in};
ghost use Rattle.sk_arguments.specs.Arguments.{arguments_after, arguments_of, element_index};
ghost use Rattle.sk_vm.specs.Frames.{reading_by};
ghost use Rattle.sk_tree.specs.Parameters.{leading_scalars};
ghost use Rattle.sk_vm.specs.Calls.{HasSpace};
ghost use Rattle.sk_vm.specs.Surroundings.{CanRead, held_by, taken_by};
ghost use Rattle.sk_vm.specs.Places.{ReadsPairs, indices_in};
ghost use Rattle.sk_vm.specs.Rooms.{slots_at};

use crate::entry::Entry;
use crate::place::{MOST_COORDINATES, count_place};
use crate::run::{clear, enter, run_code};
use crate::surroundings::Given;
use sk_base::{Cell, Trap};
use sk_kernel::{At, Data, VectorCall};
use sk_tree::ParamKind;

/// How a function reads its parameters: the first is an index or none is, so many scalars stand before the first container, so
/// many scalars are elements, and the second operand of two is read at the pair.
#[derive(Clone, Copy)]
pub struct Reading {
    pub indices: usize,
    pub leading: usize,
    pub elements: u32,
    pub pairs: bool,
}

/// How many turns one invocation may take.
pub const TURN_LIMIT: u32 = 65536;

/// Reads the arguments of a function and runs it.
pub fn start<D: Data>(
    entry: &Entry<'_>,
    reading: Reading,
    source: &D,
    at: At,
    stack: &mut [Cell],
    slots: &mut [Cell],
) -> Result<Cell, Trap>
    requires space { HasSpace entry.now stack.old (length slots.old) }
    requires indices { reading.indices ≡ indices_in (signature_at entry.now.object entry.now.function).params }
    requires leading { reading.leading ≡ leading_scalars (signature_at entry.now.object entry.now.function).params }
    requires pairs { ReadsPairs reading.pairs reading.elements (signature_at entry.now.object entry.now.function).params }
    requires suits { Suits (function_meaning entry.now.object entry.now.function (reading_by reading.elements reading.pairs)) (D.means source.now) at.place at.pair }
    ensures value { (cells : ℕ → ℕ → ℤ)
        → Agree (function_meaning entry.now.object entry.now.function (reading_by reading.elements reading.pairs)) (D.means source.now) at.place at.pair cells
        → result ≡ (function_meaning entry.now.object entry.now.function (reading_by reading.elements reading.pairs)).value (given_by (D.means source.now) cells) at.place at.pair }
    ensures range { IfOk result (InRange (signature_at entry.now.object entry.now.function).ret) }
{
    let mut coordinates = [0; MOST_COORDINATES];
    let count = count_place(source, reading, at, &mut coordinates);
    let (own, rest) = slots.split_at_mut(entry.slot_count());
    begin(entry, reading, source, at, own);
    let given = Given {
        source: Some(source),
        place: &coordinates[..count],
        indices: reading.indices as u32,
        skipped: (reading.indices
            + reading.leading.saturating_sub(reading.elements as usize)) as u32,
    };
    match run_code(entry, &given, stack, own, rest, TURN_LIMIT) {
        Ok((value, _)) => Ok(value),
        Err(trap) => Err(trap),
    }
}

/// Runs a function on two numbers.
pub fn start_with(
    entry: &Entry<'_>,
    a: Cell,
    b: Cell,
    stack: &mut [Cell],
    slots: &mut [Cell],
) -> Result<Cell, Trap>
    requires space { HasSpace entry.now stack.old (length slots.old) }
    requires suits { SuitParams (signature_at entry.now.object entry.now.function).params (Value a ∷ Value b ∷ []) }
    ensures value { result ≡ invoked entry.now.object entry.now.function (Value a ∷ Value b ∷ []) }
    ensures range { IfOk result (InRange (signature_at entry.now.object entry.now.function).ret) }
{
    let (own, rest) = slots.split_at_mut(entry.slot_count());
    enter(&[a, b], own);
    let given: Given<VectorCall> = Given {
        source: None,
        place: &[],
        indices: 0,
        skipped: 0,
    };
    match run_code(entry, &given, stack, own, rest, TURN_LIMIT) {
        Ok((value, _)) => Ok(value),
        Err(trap) => Err(trap),
    }
}

/// Gives the slots of a function their values at its start: the numbers of its arguments, and then 0.
fn begin<D: Data>(entry: &Entry<'_>, reading: Reading, source: &D, at: At, slots: &mut [Cell])
    requires count { length slots.old ≡ slots_at entry.now.object.functions entry.now.function }
    requires pairs { ReadsPairs reading.pairs reading.elements (signature_at entry.now.object entry.now.function).params }
    requires suits { Suits (function_meaning entry.now.object entry.now.function (reading_by reading.elements reading.pairs)) (D.means source.now) at.place at.pair }
    ensures { slots.new ≡ map number_in (arguments_of (reading_by reading.elements reading.pairs) (signature_at entry.now.object entry.now.function).params (held_by (D.means source.now)) (record { place = at.place; pair = at.pair }))
        ++ replicate (length slots.old - length (signature_at entry.now.object entry.now.function).params) (pos 0) }
{
    let params = entry.params();
    let (numbers, others) = slots.split_at_mut(params.len());
    let taken = Taken {
        elements: reading.elements,
        operands: 0,
        uniforms: 0,
    };
    read(source, reading, at, taken, params, numbers);
    clear(others);
}

/// Gives slots the numbers of a function's arguments, some having been read before: those of the scalars, and 0 for every
/// other parameter.
fn read<D: Data>(
    source: &D,
    reading: Reading,
    at: At,
    taken: Taken,
    params: &[ParamKind],
    slots: &mut [Cell],
)
    requires count { length slots.old ≡ length params.now }
    requires operands { taken.operands + length params.now ≤ 64 }
    requires uniforms { taken.uniforms + length params.now ≤ 64 }
    requires there { CanRead (D.means source.now) (reading_by reading.elements reading.pairs) (record { place = at.place; pair = at.pair }) (taken_by taken) params.now }
    ensures { slots.new ≡ map number_in (arguments_after (reading_by reading.elements reading.pairs) (held_by (D.means source.now)) (record { place = at.place; pair = at.pair }) (taken_by taken) params.now) }
{
    match params {
        [] => {}
        [kind, kinds @ ..] => {
            let (first, others) = slots.split_at_mut(1);
            match kind {
                ParamKind::Scalar(_) if taken.elements > 0 => {
                    first[0] = element(source, reading, at, taken.operands);
                    read(source, reading, at, taken.behind_element(), kinds, others);
                }
                ParamKind::Scalar(_) => {
                    first[0] = source.uniform(taken.uniforms);
                    read(source, reading, at, taken.behind_uniform(), kinds, others);
                }
                ParamKind::Index(_) => {
                    first[0] = 0;
                    read(source, reading, at, taken, kinds, others);
                }
                ParamKind::Proxy(_, _) | ParamKind::Region(_, _) => {
                    first[0] = 0;
                    read(source, reading, at, taken.behind_container(), kinds, others);
                }
            }
        }
    }
}

/// The element of an operand at the place; that of the second of two is read at the pair.
#[inline]
fn element<D: Data>(source: &D, reading: Reading, at: At, operand: u32) -> Cell
    requires { IsSome ((D.means source.now).held operand (element_index (reading_by reading.elements reading.pairs) (record { place = at.place; pair = at.pair }) operand)) }
    ensures { (D.means source.now).held operand (element_index (reading_by reading.elements reading.pairs) (record { place = at.place; pair = at.pair }) operand) ≡ Some result }
{
    let place = if reading.pairs && operand == 1 {
        at.pair
    } else {
        at.place
    };
    source.cell(operand, place)
}

/// How many elements are left, and how many operands and uniform arguments were read.
#[derive(Clone, Copy)]
struct Taken {
    elements: u32,
    operands: u32,
    uniforms: u32,
}

impl Taken {
    fn behind_element(self) -> Taken
        requires some { 0 < self.elements }
        requires few { self.operands < 64 }
        ensures { result ≡ record { elements = self.elements - 1; operands = suc self.operands; uniforms = self.uniforms } }
    {
        Taken {
            elements: self.elements - 1,
            operands: self.operands + 1,
            uniforms: self.uniforms,
        }
    }

    fn behind_uniform(self) -> Taken
        requires { self.uniforms < 64 }
        ensures { result ≡ record self { uniforms = suc self.uniforms } }
    {
        Taken {
            uniforms: self.uniforms + 1,
            ..self
        }
    }

    fn behind_container(self) -> Taken
        requires { self.operands < 64 }
        ensures { result ≡ record self { operands = suc self.operands } }
    {
        Taken {
            operands: self.operands + 1,
            ..self
        }
    }
}
