ghost use Rattle.std.specs.Prelude.{◌≡◌, ℕ, ℤ, All, ◌<◌, ◌≤◌, ◌+◌, ◌^◌, suc, true, pos, Ok, List, [], ◌∷◌, length, slice_index_or, false, None, IfErr, IfOk, IsOk, OnErr, OnOk};
ghost use Rattle.sk_base.specs.Arithmetic.{InRange};
ghost use Rattle.sk_kernel.specs.Instances.{function_meaning};
ghost use Rattle.sk_isa.specs.Objects.{invoked, signature_at};
ghost use Rattle.sk_kernel.specs.Kernels.{Suits, SuitsRun, Agree, AgreeRun, AreValues, given_by, run_value};
ghost use Rattle.sk_isa.specs.SoundObjects.{HasSoundFunctions};
ghost use Rattle.sk_isa.specs.Soundness.{SuitParams};
ghost use Rattle.sk_meaning.specs.Evaluation.{Value};
ghost use Rattle.sk_tree.specs.Parameters.{index_dimension, leading_scalars};
ghost use Rattle.sk_vm.specs.Frames.{CountsPlaces, HasRoom, Holds, IsUnread, MayRead, reading_by};
ghost use Rattle.sk_vm.specs.Lent.{ArePart, ArePartOfType};
ghost use Rattle.sk_vm.specs.Places.{TakesPlaces, takes_columns};
ghost use Rattle.sk_vm.specs.Rooms.{AreRooms};

use crate::entry::Entry;
use crate::lent::Lent;
use crate::parts::{index_of, leading_of, place_behind};
use crate::place::count_of;
use crate::rooms::{Room, Rooms, height_of, room_of};
use crate::start::{Reading, start, start_with};
use sk_base::{Cell, Trap};
use sk_columns::{Level, evaluate};
use sk_isa::Object;
use sk_kernel::{At, Data, RunTrap};
use std::alloc::{AllocError, Global};
use std::marker::Model;

/// Room to run a function of a compiled program, for as many runs as are wanted.
#[derive(Debug, Drop)]
pub struct Frame {
    function: u32,
    index: Option<u8>,
    leading: usize,
    elements: u32,
    pairs: bool,
    /// Whether runs at many places are evaluated a block at a time.
    straight: bool,
    stack: Vec<Cell>,
    slots: Vec<Cell>,
    levels: Vec<Level>,
    rows: Vec<Cell>,
}

impl Model for Frame {
    ghost use Rattle.std.specs.Prelude.{vec_len};
    ghost use Rattle.sk_vm.specs.Frames.{Framed, reading_by};

    ghost Value = { Framed };

    ghost view = { λ f. record {
      function = f.function;
      index = f.index;
      leading = f.leading;
      reading = reading_by f.elements f.pairs;
      stack = vec_len f.stack;
      slots = vec_len f.slots;
    } };
}

impl Frame {
    /// A frame for a function, with room for all calls below it. All its scalars are uniform arguments.
    ///
    /// It takes as much room as the function and its calls may have in use at a time, and where it is evaluated for blocks of
    /// places, a row of a block's length for each level but the first, of values on the stack and of locals.
    pub fn new(alloc: Global, object: &Object, function: u32) -> Result<Frame, AllocError>
        requires sound { HasSoundFunctions object.now }
        requires parameters { TakesPlaces object.now }
        requires there { function < length object.now.functions }
        ensures made { IfOk result (IsUnread function) }
        ensures room { IfOk result (HasRoom object.now) }
    {
        let room = room_of(alloc, object.functions.as_slice(), function)?;
        let height = height_of(&object.functions.as_slice()[function as usize]);
        let mut frame = Frame::with_room(alloc, room, height)?;
        frame.turn_to(object, function, height > 0);
        Ok(frame)
    }

    /// A frame with room for each function of a program, to be turned to one.
    pub fn of(alloc: Global, rooms: &Rooms) -> Result<Frame, AllocError>
        ensures { IfOk result (Holds rooms.now) }
    {
        Frame::with_room(alloc, rooms.room(), rooms.height())
    }

    /// Turns the frame to a function, all whose scalars are then uniform arguments. It takes a time that does not depend on
    /// the program, and memory only where there is less room than some function of the program needs.
    pub fn turn(
        &mut self,
        alloc: Global,
        object: &Object,
        rooms: &Rooms,
        function: u32,
    ) -> Result<(), AllocError>
        requires rooms { AreRooms object.now rooms.now }
        requires there { function < length object.now.functions }
        ensures turned { OnOk result (IsUnread function self.new) }
        ensures room { OnOk result (HasRoom object.now self.new) }
        ensures holds { OnOk result (Holds rooms.now self.new) }
        ensures ready { Holds rooms.now self.old → IsOk result }
        ensures same { OnErr result (self.new ≡ self.old) }
    {
        self.make_ready(alloc, rooms)?;
        let straight = self.is_straight(rooms, function);
        self.turn_to(object, function, straight);
        Ok(())
    }

    /// Makes room for each function of a program, where there is less.
    pub(crate) fn make_ready(&mut self, alloc: Global, rooms: &Rooms) -> Result<(), AllocError>
        ensures holds { OnOk result (Holds rooms.now self.new) }
        ensures ready { Holds rooms.now self.old → IsOk result }
        ensures same { OnErr result (self.new ≡ self.old) }
    {
        let room = rooms.room();
        if self.stack.len() < room.stack || self.slots.len() < room.slots {
            *self = Frame::of(alloc, rooms)?;
        }
        Ok(())
    }

    /// Whether a function is straight, and there are rows for it.
    pub(crate) fn is_straight(&self, rooms: &Rooms, function: u32) -> bool {
        rooms.is_straight(function) && rooms.height() <= self.levels.len()
    }

    /// A frame with so much room, and so many rows.
    pub(crate) fn with_room(alloc: Global, room: Room, height: usize) -> Result<Frame, AllocError>
        requires { height ≤ 64 }
        ensures { IfOk result (Holds room) }
    {
        Ok(Frame {
            function: 0,
            index: None,
            leading: 0,
            elements: 0,
            pairs: false,
            straight: false,
            stack: vec![in alloc; 0; room.stack]?,
            slots: vec![in alloc; 0; room.slots]?,
            levels: vec![in alloc; Level::Here; height]?,
            rows: vec![in alloc; 0; height.saturating_sub(1) * BLOCK]?,
        })
    }

    /// Turns the frame to a function for which there is room, and for whose blocks there are rows where it is straight.
    pub(crate) fn turn_to(&mut self, object: &Object, function: u32, straight: bool)
        requires { function < length object.now.signatures }
        ensures { self.new ≡ record self.old { function = function; index = index_dimension (signature_at object.now function).params; leading = leading_scalars (signature_at object.now function).params; reading = reading_by 0 false } }
    {
        self.function = function;
        self.index = index_of(object, function);
        self.leading = leading_of(object, function);
        self.elements = 0;
        self.pairs = false;
        self.straight = straight;
    }

    /// Sets how parameters are read: the first `n` scalars from operands, each at the place, and the others as uniform
    /// arguments. Every container has an operand of its own, in the order of all parameters. With `pairs` operand 1 is read at
    /// the pair, and an index is the place and the pair.
    pub fn elements(&mut self, n: u32, pairs: bool)
        requires { MayRead self.old.index n pairs }
        ensures { self.new ≡ record self.old { reading = reading_by n pairs } }
    {
        self.elements = n;
        self.pairs = pairs;
    }

    /// The function's value for the data at a place, or its first trap. It takes no memory.
    pub fn run<D: Data>(&mut self, object: &Object, source: &D, at: At) -> Result<Cell, Trap>
        requires room { HasRoom object.now self.old }
        requires suits { Suits (function_meaning object.now self.old.function self.old.reading) (D.means source.now) at.place at.pair }
        ensures value { (cells : ℕ → ℕ → ℤ)
            → Agree (function_meaning object.now self.old.function self.old.reading) (D.means source.now) at.place at.pair cells
            → result ≡ (function_meaning object.now self.old.function self.old.reading).value (given_by (D.means source.now) cells) at.place at.pair }
        ensures range { IfOk result (InRange (function_meaning object.now self.old.function self.old.reading).ty) }
        ensures same { self.new ≡ self.old }
    {
        let reading = Reading {
            indices: count_of(self.index),
            leading: self.leading,
            elements: self.elements,
            pairs: self.pairs,
        };
        let entry = Entry {
            object,
            function: self.function,
        };
        start(
            &entry,
            reading,
            source,
            at,
            &mut self.stack,
            &mut self.slots,
        )
    }

    /// The function's values at as many places one behind another as `out` has cells, into `out`; or the least of these
    /// places that traps, with its trap. It takes no memory.
    pub fn run_each<D: Data>(
        &mut self,
        object: &Object,
        source: &D,
        at: At,
        out: &mut [Cell],
    ) -> Result<(), RunTrap>
        requires room { HasRoom object.now self.old }
        requires suits { SuitsRun (function_meaning object.now self.old.function self.old.reading) (D.means source.now) at.place at.pair (length out.old) }
        requires places { at.place + length out.old < 2 ^ 32 }
        requires pairs { at.pair + length out.old < 2 ^ 32 }
        ensures values { (cells : ℕ → ℕ → ℤ)
            → AgreeRun (function_meaning object.now self.old.function self.old.reading) (D.means source.now) at.place at.pair (length out.old) cells
            → AreValues (run_value (function_meaning object.now self.old.function self.old.reading) (given_by (D.means source.now) cells) at.place at.pair) out.new result }
        ensures range { IfOk result (λ done. All (InRange (function_meaning object.now self.old.function self.old.reading).ty) out.new) }
        ensures count { length out.new ≡ length out.old }
        ensures same { self.new ≡ self.old }
    {
        if self.straight && self.counts_places() && self.takes_columns(object) {
            self.run_blocks(object, source, at, out)
        } else {
            self.run_places(object, source, at, out)
        }
    }

    /// Whether the function has no index parameter, or one of one dimension, which is not a pair.
    fn counts_places(&self) -> bool
        ensures { result ≡ true → CountsPlaces self.now.index self.now.reading.pairs }
    {
        match self.index {
            Some(dimension) => dimension == 1 && !self.pairs,
            None => true,
        }
    }

    /// Whether all parameters behind an index are scalars.
    fn takes_columns(&self, object: &Object) -> bool
        requires { HasRoom object.now self.now }
        ensures { result ≡ true → takes_columns (signature_at object.now self.now.function).params ≡ true }
    {
        let entry = Entry {
            object,
            function: self.function,
        };
        count_of(self.index) + self.leading == entry.param_count()
    }

    /// The same, a block of places at a time, where an index is the place alone, and all other parameters are scalars.
    fn run_blocks<D: Data>(
        &mut self,
        object: &Object,
        source: &D,
        at: At,
        out: &mut [Cell],
    ) -> Result<(), RunTrap>
        requires room { HasRoom object.now self.old }
        requires counts { CountsPlaces self.old.index self.old.reading.pairs }
        requires columns { takes_columns (signature_at object.now self.old.function).params ≡ true }
        requires suits { SuitsRun (function_meaning object.now self.old.function self.old.reading) (D.means source.now) at.place at.pair (length out.old) }
        requires places { at.place + length out.old < 2 ^ 32 }
        requires pairs { at.pair + length out.old < 2 ^ 32 }
        ensures values { (cells : ℕ → ℕ → ℤ)
            → AgreeRun (function_meaning object.now self.old.function self.old.reading) (D.means source.now) at.place at.pair (length out.old) cells
            → AreValues (run_value (function_meaning object.now self.old.function self.old.reading) (given_by (D.means source.now) cells) at.place at.pair) out.new result }
        ensures range { IfOk result (λ done. All (InRange (function_meaning object.now self.old.function self.old.reading).ty) out.new) }
        ensures count { length out.new ≡ length out.old }
        ensures same { self.new ≡ self.old }
    {
        let mut done = 0;
        while done < out.len() {
            let count = BLOCK.min(out.len() - done);
            self.run_part(object, source, at, done, count, out)?;
            done += count;
        }
        Ok(())
    }

    /// The same for so many places from one on.
    fn run_part<D: Data>(
        &mut self,
        object: &Object,
        source: &D,
        at: At,
        done: usize,
        count: usize,
        out: &mut [Cell],
    ) -> Result<(), RunTrap>
        requires within { done + count ≤ length out.old }
        requires room { HasRoom object.now self.old }
        requires counts { CountsPlaces self.old.index self.old.reading.pairs }
        requires columns { takes_columns (signature_at object.now self.old.function).params ≡ true }
        requires suits { SuitsRun (function_meaning object.now self.old.function self.old.reading) (D.means source.now) at.place at.pair (length out.old) }
        requires places { at.place + length out.old < 2 ^ 32 }
        requires pairs { at.pair + length out.old < 2 ^ 32 }
        ensures values { (cells : ℕ → ℕ → ℤ)
            → AgreeRun (function_meaning object.now self.old.function self.old.reading) (D.means source.now) at.place at.pair (length out.old) cells
            → ArePart done count (run_value (function_meaning object.now self.old.function self.old.reading) (given_by (D.means source.now) cells) at.place at.pair) out.new result }
        ensures range { IfOk result (λ ended. ArePartOfType (function_meaning object.now self.old.function self.old.reading).ty done count out.new) }
        ensures before { (behind : ℕ) → behind < done → slice_index_or out.new behind (pos 0) ≡ slice_index_or out.old behind (pos 0) }
        ensures count { length out.new ≡ length out.old }
        ensures same { self.new ≡ self.old }
    {
        let (_, rest) = out.split_at_mut(done);
        let (block, _) = rest.split_at_mut(count);
        let offset = done as u32;
        match self.run_block(object, source, place_behind(at, self.pairs, offset), block) {
            Ok(()) => Ok(()),
            Err(trapped) => Err(RunTrap {
                trap: trapped.trap,
                offset: offset + trapped.offset,
            }),
        }
    }

    /// The same for a block of places, all at once, or place by place where that fails.
    fn run_block<D: Data>(
        &mut self,
        object: &Object,
        source: &D,
        at: At,
        out: &mut [Cell],
    ) -> Result<(), RunTrap>
        requires room { HasRoom object.now self.old }
        requires counts { CountsPlaces self.old.index self.old.reading.pairs }
        requires columns { takes_columns (signature_at object.now self.old.function).params ≡ true }
        requires suits { SuitsRun (function_meaning object.now self.old.function self.old.reading) (D.means source.now) at.place at.pair (length out.old) }
        requires places { at.place + length out.old < 2 ^ 32 }
        requires pairs { at.pair + length out.old < 2 ^ 32 }
        ensures values { (cells : ℕ → ℕ → ℤ)
            → AgreeRun (function_meaning object.now self.old.function self.old.reading) (D.means source.now) at.place at.pair (length out.old) cells
            → AreValues (run_value (function_meaning object.now self.old.function self.old.reading) (given_by (D.means source.now) cells) at.place at.pair) out.new result }
        ensures range { IfOk result (λ done. All (InRange (function_meaning object.now self.old.function self.old.reading).ty) out.new) }
        ensures inside { IfErr result (λ trapped. trapped.offset < length out.old) }
        ensures count { length out.new ≡ length out.old }
        ensures same { self.new ≡ self.old }
    {
        if self.evaluate_block(object, source, at, out) {
            return Ok(());
        }
        self.run_places(object, source, at, out)
    }

    /// Evaluates the function at all places of a block at once, where that can be done and no place traps.
    fn evaluate_block<D: Data>(
        &mut self,
        object: &Object,
        source: &D,
        at: At,
        out: &mut [Cell],
    ) -> bool
        requires room { HasRoom object.now self.old }
        requires counts { CountsPlaces self.old.index self.old.reading.pairs }
        requires columns { takes_columns (signature_at object.now self.old.function).params ≡ true }
        requires suits { SuitsRun (function_meaning object.now self.old.function self.old.reading) (D.means source.now) at.place at.pair (length out.old) }
        requires places { at.place + length out.old < 2 ^ 32 }
        requires pairs { at.pair + length out.old < 2 ^ 32 }
        ensures values { result ≡ true → (cells : ℕ → ℕ → ℤ)
            → AgreeRun (function_meaning object.now self.old.function self.old.reading) (D.means source.now) at.place at.pair (length out.old) cells
            → AreValues (run_value (function_meaning object.now self.old.function self.old.reading) (given_by (D.means source.now) cells) at.place at.pair) out.new (Ok tt) }
        ensures range { result ≡ true → All (InRange (function_meaning object.now self.old.function self.old.reading).ty) out.new }
        ensures count { length out.new ≡ length out.old }
        ensures same { self.new ≡ self.old }
    {
        let entry = Entry {
            object,
            function: self.function,
        };
        let indices = count_of(self.index);
        let lent = Lent {
            source,
            indices: indices as u32,
            elements: self.elements,
            pairs: self.pairs,
            place: at.place,
            pair: at.pair,
            places: out.len() as u32,
            scalars: (entry.param_count() - indices) as u32,
            slots: entry.slot_count() - indices,
        };
        evaluate(entry.instrs(), &lent, out, &mut self.levels, &mut self.rows)
    }

    /// The same, one place after another.
    fn run_places<D: Data>(
        &mut self,
        object: &Object,
        source: &D,
        at: At,
        out: &mut [Cell],
    ) -> Result<(), RunTrap>
        requires room { HasRoom object.now self.old }
        requires suits { SuitsRun (function_meaning object.now self.old.function self.old.reading) (D.means source.now) at.place at.pair (length out.old) }
        requires places { at.place + length out.old < 2 ^ 32 }
        requires pairs { at.pair + length out.old < 2 ^ 32 }
        ensures values { (cells : ℕ → ℕ → ℤ)
            → AgreeRun (function_meaning object.now self.old.function self.old.reading) (D.means source.now) at.place at.pair (length out.old) cells
            → AreValues (run_value (function_meaning object.now self.old.function self.old.reading) (given_by (D.means source.now) cells) at.place at.pair) out.new result }
        ensures range { IfOk result (λ done. All (InRange (function_meaning object.now self.old.function self.old.reading).ty) out.new) }
        ensures inside { IfErr result (λ trapped. trapped.offset < length out.old) }
        ensures count { length out.new ≡ length out.old }
        ensures same { self.new ≡ self.old }
    {
        for k in 0..out.len() {
            let offset = k as u32;
            match self.run(object, source, place_behind(at, self.pairs, offset)) {
                Ok(value) => out[k] = value,
                Err(trap) => return Err(RunTrap { trap, offset }),
            }
        }
        Ok(())
    }

    /// The function's value for two numbers, or its first trap. It takes no memory.
    pub fn run_with(&mut self, object: &Object, a: Cell, b: Cell) -> Result<Cell, Trap>
        requires room { HasRoom object.now self.old }
        requires suits { SuitParams (signature_at object.now self.old.function).params (Value a ∷ Value b ∷ []) }
        ensures value { result ≡ invoked object.now self.old.function (Value a ∷ Value b ∷ []) }
        ensures range { IfOk result (InRange (signature_at object.now self.old.function).ret) }
        ensures same { self.new ≡ self.old }
    {
        let entry = Entry {
            object,
            function: self.function,
        };
        start_with(&entry, a, b, &mut self.stack, &mut self.slots)
    }
}

/// How many places are evaluated at once.
const BLOCK: usize = 1024;
