ghost use Rattle.std.specs.Prelude.{◌≡◌, ◌<◌, ◌≤◌, length, map, IfOk};
ghost use Rattle.sk_isa.specs.SoundObjects.{HasSoundFunctions};
ghost use Rattle.sk_vm.specs.Places.{TakesPlaces};
ghost use Rattle.sk_vm.specs.Rooms.{AreRooms, called_room, larger, largest, no_room, room_after, room_of, rooms_below};

use sk_columns::{is_straight, stored_count};
use sk_isa::{Code, Instr, Object};
use std::alloc::{AllocError, Global};
use std::marker::Model;

/// Room for so many values on a stack and so many slots.
#[derive(Clone, Copy, Debug)]
pub struct Room {
    pub stack: usize,
    pub slots: usize,
}

impl Room {
    /// No room at all.
    pub fn none() -> Room
        ensures { result ≡ no_room }
    {
        Room { stack: 0, slots: 0 }
    }

    /// Room that is enough for each of two.
    pub fn larger(self, other: Room) -> Room
        ensures { result ≡ larger self other }
    {
        Room {
            stack: self.stack.max(other.stack),
            slots: self.slots.max(other.slots),
        }
    }
}

/// What a frame needs that is to serve all functions of a compiled program in turns. It is worked out once for the program.
#[derive(Debug, Drop)]
pub struct Rooms {
    largest: Room,
    /// How many rows the straight functions need, and which functions are straight.
    height: usize,
    straight: Vec<bool>,
}

impl Model for Rooms {
    ghost use Rattle.std.specs.Prelude.{◌≤◌};
    ghost use Rattle.sk_vm.specs.declared.rooms.Room.{Room};

    ghost Value = { Room };

    ghost view = { λ r. r.largest };

    ghost invariant = { λ r. r.height ≤ 64 };
}

impl Rooms {
    /// The rooms of a program's functions, in time and memory linear in its code.
    pub fn of(alloc: Global, object: &Object) -> Result<Rooms, AllocError>
        requires sound { HasSoundFunctions object.now }
        requires parameters { TakesPlaces object.now }
        ensures { IfOk result (AreRooms object.now) }
    {
        let codes = object.functions.as_slice();
        let rooms = rooms_below(alloc, codes, codes.len())?;
        Ok(Rooms {
            largest: largest(&rooms),
            height: greatest_height(codes),
            straight: straight_ones(alloc, codes)?,
        })
    }

    /// The largest room of a function.
    pub(crate) fn room(&self) -> Room
        ensures { result ≡ self.now }
    {
        self.largest
    }

    /// How many rows a straight function needs at most.
    pub(crate) fn height(&self) -> usize
        ensures { result ≤ 64 }
    {
        self.height
    }

    /// Whether a function is straight.
    pub(crate) fn is_straight(&self, function: u32) -> bool {
        match self.straight.get(function as usize) {
            Some(straight) => *straight,
            None => false,
        }
    }
}

/// How many rows the straight functions need.
fn greatest_height(codes: &[Code]) -> usize
    ensures { result ≤ 64 }
{
    let mut height = 0;
    for code in codes {
        height = height.max(height_of(code));
    }
    height
}

/// Of each function, whether it is straight.
fn straight_ones(alloc: Global, codes: &[Code]) -> Result<Vec<bool>, AllocError> {
    let mut straight = Vec::new(alloc);
    for code in codes {
        straight.push(height_of(code) > 0)?;
    }
    Ok(straight)
}

/// Room that is enough for each of many.
fn largest(rooms: &[Room]) -> Room
    ensures { result ≡ largest rooms.now }
{
    let mut room = Room::none();
    for other in rooms {
        room = room.larger(*other);
    }
    room
}

/// Room for the run of a function with all its calls.
pub fn room_of(alloc: Global, codes: &[Code], function: u32) -> Result<Room, AllocError>
    requires { function < length codes.now }
    ensures { IfOk result (λ room. room ≡ room_of codes.now function) }
{
    let before = rooms_below(alloc, codes, function as usize)?;
    room_after(&before, &codes[function as usize])
}

/// The rooms of the functions below a number.
pub fn rooms_below(alloc: Global, codes: &[Code], count: usize) -> Result<Vec<Room>, AllocError>
    requires { count ≤ length codes.now }
    ensures { IfOk result (λ rooms. rooms.items ≡ rooms_below codes.now count) }
{
    let mut rooms = Vec::new(alloc);
    for k in 0..count {
        let room = room_after(&rooms, &codes[k])?;
        rooms.push(room)?;
    }
    Ok(rooms)
}

/// The room for a code, by the rooms of the functions before. Where it is too much for a number, there is not as much memory.
fn room_after(before: &[Room], code: &Code) -> Result<Room, AllocError>
    ensures { IfOk result (λ room. room ≡ room_after before.now code.now) }
{
    let below = largest_called(before, code.instrs.as_slice());
    let stack = below.stack.checked_add(code.depth as usize);
    let slots = below.slots.checked_add(code.slots as usize);
    match (stack, slots) {
        (Some(stack), Some(slots)) => Ok(Room { stack, slots }),
        _ => Err(AllocError),
    }
}

/// The largest room of the functions that are called.
fn largest_called(before: &[Room], instrs: &[Instr]) -> Room
    ensures { result ≡ largest (map (called_room before.now) instrs.now) }
{
    let mut room = Room::none();
    for instr in instrs {
        room = room.larger(called_room(before, instr));
    }
    room
}

/// The room of the function that an instruction calls, if it calls one.
fn called_room(before: &[Room], instr: &Instr) -> Room
    ensures { result ≡ called_room before.now instr.now }
{
    match instr {
        Instr::Call(callee) => match before.get(*callee as usize) {
            Some(room) => *room,
            None => Room::none(),
        },
        _ => Room::none(),
    }
}

/// The most levels of a function that is evaluated for a block of places.
const MOST_LEVELS: usize = 64;

/// How many levels a function has that is evaluated for a block of places: as many as values may stand on its stack, two more
/// for each choice, and one for each local. Every other function has none.
pub fn height_of(code: &Code) -> usize
    ensures { result ≤ 64 }
{
    let instrs = code.instrs.as_slice();
    if !is_straight(instrs) {
        return 0;
    }
    let mut height = (code.depth as usize).saturating_add(stored_count(instrs));
    for instr in instrs {
        if let Instr::Zero(_) = instr {
            height = height.saturating_add(2);
        }
    }
    if height <= MOST_LEVELS { height } else { 0 }
}
