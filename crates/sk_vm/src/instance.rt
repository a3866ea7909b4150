ghost use Rattle.std.proofs.Props.{props};
ghost use Rattle.std.specs.Prelude.{◌≡◌, ◌<◌, length, map, All, IfOk};
ghost use Rattle.sk_isa.specs.Objects.{is_marked};
ghost use Rattle.sk_kernel.specs.Instances.{instance_meaning};
ghost use Rattle.sk_tree.specs.InstanceSettings.{default_settings};
ghost use Rattle.sk_tree.specs.Skeletons.{is_over_pairs, operator_place};
ghost use Rattle.sk_vm.specs.Instantiated.{IsLawful};
ghost use Rattle.sk_vm.specs.Rooms.{largest, room_of};

use crate::frame::Frame;
use crate::parts::plan_at;
use crate::rooms::{Room, height_of, room_of};
use sk_base::{Cell, Trap};
use sk_isa::{Code, Object, Plan};
use sk_kernel::{At, Data, RunTrap};
use sk_tree::Skeleton;
use std::alloc::{AllocError, Global};
use std::marker::Model;

/// An instance of a compiled program, to be run in a frame that has room for its functions.
#[derive(Debug, Drop)]
pub struct Instance<'a> {
    object: &'a Object,
    plan: &'a Plan,
    ghost lawful: { IsLawful (instance_meaning object.now plan.now default_settings) } by { Prim.hlevel props },
}

impl<'a> Model for Instance<'a> {
    ghost use Rattle.sk_vm.specs.Instantiated.{Instantiated, IsInstance};

    ghost Value = { Instantiated };

    ghost view = { λ i. record { object = i.object.now; plan = i.plan.now; lawful = i.lawful } };

    ghost invariant = { λ i. IsInstance i.object.now i.plan.now };
}

impl<'a> Instance<'a> {
    ghost use Rattle.std.specs.Prelude.{◌≡◌, ℕ, ℤ, ◌<◌, ◌≤◌, ◌+◌, ◌^◌, length, All, IfOk, IsSome};
    ghost use Rattle.sk_base.specs.Arithmetic.{InRange};
    ghost use Rattle.sk_isa.specs.Objects.{function_at};
    ghost use Rattle.sk_isa.specs.SoundObjects.{HasSoundFunctions};
    ghost use Rattle.sk_kernel.specs.Kernels.{Suits, SuitsRun, Agree, AgreeRun, AreJoined, AreValues, IsJoined, given_by, run_value};
    ghost use Rattle.sk_vm.specs.Instantiated.{IsAtFirst, IsAtOperator, IsOf, Serves, meaning_of};
    ghost use Rattle.sk_vm.specs.Places.{TakesPlaces};

    /// An instance by its number.
    pub fn of(object: &'a Object, number: u32) -> Instance<'a>
        requires sound { HasSoundFunctions object.now }
        requires parameters { TakesPlaces object.now }
        requires there { number < length object.now.instances }
        ensures { IsOf object.now number result }
    {
        Instance {
            object,
            plan: plan_at(object, number),
        }
    }

    /// Its first function.
    pub fn first(&self) -> u32
        ensures { result ≡ function_at self.now.plan 0 }
    {
        self.plan.functions.as_slice()[0]
    }

    /// How many rows its first function needs.
    pub fn height(&self) -> usize
        ensures { result ≤ 64 }
    {
        height_of(&self.object.functions.as_slice()[self.plan.functions.as_slice()[0] as usize])
    }

    /// A frame for this instance alone, with so many rows.
    pub fn frame(&self, alloc: Global, height: usize) -> Result<Frame, AllocError>
        requires { height ≤ 64 }
        ensures { IfOk result (Serves self.now) }
    {
        let codes = self.object.functions.as_slice();
        let room = room_of_each(alloc, codes, self.plan.functions.as_slice())?;
        Frame::with_room(alloc, room, height)
    }

    /// Turns the frame to the first function, which is evaluated a block of places at a time where it is straight, and there
    /// are rows for it.
    fn turn_to_first(&self, frame: &mut Frame, straight: bool)
        requires { Serves self.now frame.old }
        ensures first { IsAtFirst self.now frame.new }
        ensures serves { Serves self.now frame.new }
    {
        frame.turn_to(self.object, self.plan.functions.as_slice()[0], straight);
        frame.elements(self.plan.elements, goes_over_pairs(self.plan.skeleton));
    }

    /// The first function's value, or its first trap.
    pub fn apply<D: Data>(&self, frame: &mut Frame, source: &D, at: At) -> Result<Cell, Trap>
        requires serves { Serves self.now frame.old }
        requires suits { Suits (meaning_of self.now) (D.means source.now) at.place at.pair }
        ensures value { (cells : ℕ → ℕ → ℤ) → Agree (meaning_of self.now) (D.means source.now) at.place at.pair cells
            → result ≡ (meaning_of self.now).value (given_by (D.means source.now) cells) at.place at.pair }
        ensures range { IfOk result (InRange (meaning_of self.now).ty) }
        ensures serves { Serves self.now frame.new }
    {
        self.turn_to_first(frame, false);
        frame.run(self.object, source, at)
    }

    /// Its values at places one behind another, or the least of them that traps.
    pub fn apply_each<D: Data>(
        &self,
        frame: &mut Frame,
        straight: bool,
        source: &D,
        at: At,
        out: &mut [Cell],
    ) -> Result<(), RunTrap>
        requires serves { Serves self.now frame.old }
        requires suits { SuitsRun (meaning_of self.now) (D.means source.now) at.place at.pair (length out.old) }
        requires places { at.place + length out.old < 2 ^ 32 }
        requires pairs { at.pair + length out.old < 2 ^ 32 }
        ensures values { (cells : ℕ → ℕ → ℤ) → AgreeRun (meaning_of self.now) (D.means source.now) at.place at.pair (length out.old) cells
            → AreValues (run_value (meaning_of self.now) (given_by (D.means source.now) cells) at.place at.pair) out.new result }
        ensures range { IfOk result (λ done. All (InRange (meaning_of self.now).ty) out.new) }
        ensures count { length out.new ≡ length out.old }
        ensures serves { Serves self.now frame.new }
    {
        self.turn_to_first(frame, straight);
        frame.run_each(self.object, source, at, out)
    }

    /// Turns the frame to the operator.
    fn turn_to_operator(&self, frame: &mut Frame)
        requires serves { Serves self.now frame.old }
        requires joins { IsSome (operator_place self.now.plan.skeleton) }
        ensures operator { IsAtOperator self.now frame.new }
        ensures serves { Serves self.now frame.new }
    {
        match operator_at(self.plan.skeleton) {
            Some(place) => {
                frame.turn_to(self.object, self.plan.functions.as_slice()[place], false);
            }
            None => unreachable!(),
        }
    }

    /// The operator's value, or its first trap.
    pub fn combine(&self, frame: &mut Frame, a: Cell, b: Cell) -> Result<Cell, Trap>
        requires serves { Serves self.now frame.old }
        requires joined { AreJoined (meaning_of self.now) a b }
        ensures value { result ≡ (meaning_of self.now).join a b }
        ensures range { IfOk result (IsJoined (meaning_of self.now)) }
        ensures serves { Serves self.now frame.new }
    {
        self.turn_to_operator(frame);
        frame.run_with(self.object, a, b)
    }

    /// Whether none of its functions ever traps.
    pub fn safe(&self) -> bool
        ensures { result ≡ (meaning_of self.now).safe }
    {
        let object = self.object;
        self.plan
            .functions
            .as_slice()
            .iter()
            .all(|function| is_marked(object, *function))
    }
}

/// Room for each of some functions, one at a time.
fn room_of_each(alloc: Global, codes: &[Code], functions: &[u32]) -> Result<Room, AllocError>
    requires { All (λ function. function < length codes.now) functions.now }
    ensures { IfOk result (λ room. room ≡ largest (map (room_of codes.now) functions.now)) }
{
    let mut room = Room::none();
    for function in functions {
        room = room.larger(room_of(alloc, codes, *function)?);
    }
    Ok(room)
}

/// Whether a function is marked as one that never traps.
fn is_marked(object: &Object, function: u32) -> bool
    ensures { result ≡ is_marked object.now function }
{
    match object.safe.get(function as usize) {
        Some(marked) => *marked,
        None => false,
    }
}

/// Whether a skeleton goes over pairs.
fn goes_over_pairs(skeleton: Skeleton) -> bool
    ensures { result ≡ is_over_pairs skeleton }
{
    matches!(skeleton, Skeleton::MapPairs | Skeleton::MapPairsReduce)
}

/// Which of an instance's functions is its operator, if any.
fn operator_at(skeleton: Skeleton) -> Option<usize>
    ensures { result ≡ operator_place skeleton }
{
    match skeleton {
        Skeleton::Reduce | Skeleton::Scan => Some(0),
        Skeleton::MapReduce | Skeleton::MapPairsReduce => Some(1),
        Skeleton::Map | Skeleton::MapOverlap | Skeleton::MapPairs | Skeleton::Call => None,
    }
}
