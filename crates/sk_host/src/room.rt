//! The room that a run takes at its start.
ghost use Rattle.std.specs.Prelude.{◌≡◌, List, replicate, None, IfOk, Option, vec_len, pos};
ghost use Rattle.sk_host.specs.Rooms.{IsFresh};
ghost use Rattle.sk_isa.specs.SoundObjects.{HasSoundFunctions, TakesScalars};
ghost use Rattle.sk_vm.specs.Rooms.{AreRooms};

use crate::held::Held;
use crate::spare::Spare;
use crate::workspace::Workspace;
use sk_base::Cell;
use sk_isa::Object;
use sk_vm::{Frame, Rooms};
use std::alloc::{AllocError, Global};

/// A stack and slots, places for containers, what a frame needs that is to serve all functions, and a workspace with such a frame.
#[derive(Drop)]
pub struct Room {
    pub stack: Vec<Cell>,
    pub slots: Vec<Cell>,
    pub store: Vec<Option<Held>>,
    pub rooms: Rooms,
    pub workspace: Workspace,
}

impl Room {
    /// The room for a run of main.
    pub fn new(alloc: Global, object: &Object) -> Result<Room, AllocError>
        requires sound { HasSoundFunctions object.now }
        requires scalars { TakesScalars object.now }
        ensures fresh { IfOk result (λ room. IsFresh object.now room.stack.items room.slots.items room.store.items) }
        ensures rooms { IfOk result (λ room. AreRooms object.now room.rooms) }
    {
        let rooms = Rooms::of(alloc, object)?;
        let frame = Frame::of(alloc, &rooms)?;
        Ok(Room {
            stack: vec![in alloc; 0; object.main.depth as usize]?,
            slots: vec![in alloc; 0; object.main.slots as usize]?,
            store: places(alloc, object.containers.len())?,
            rooms,
            workspace: Workspace {
                frame,
                spare: Spare::new(),
            },
        })
    }
}

/// So many places with nothing there.
fn places<T: Drop>(alloc: Global, count: usize) -> Result<Vec<Option<T>>, AllocError>
    ensures { IfOk result (λ places. places.items ≡ replicate count None) }
{
    let mut places = Vec::with_capacity(alloc, count)?;
    for _ in 0..count {
        places.push(None)?;
    }
    Ok(places)
}
