//! The bytes of a field, where they are few.
ghost use Rattle.std.specs.Prelude.{◌≡◌, ◌≤◌, ℕ, List, [], false, length, IfOk, option_map};

use crate::taker::Taker;
use std::alloc::{AllocError, Global};

/// The bytes of a field, as many as there is room for.
#[derive(Drop)]
pub struct Kept {
    room: Vec<u8>,
    used: usize,
    /// There were more bytes than there is room for.
    long: bool,
    ghost fits: { used ≤ length room.items },
}

impl Kept {
    ghost use Rattle.sk_data.specs.Fields.{within};
    ghost use Rattle.sk_data.specs.Keeping.{Keeps, room_of};

    /// Room for this many bytes.
    pub fn new(alloc: Global, most: usize) -> Result<Kept, AllocError>
        ensures { IfOk result (λ kept. room_of kept ≡ most) }
    {
        Ok(Kept {
            room: vec![in alloc; 0; most]?,
            used: 0,
            long: false,
        })
    }

    /// How many bytes there is room for.
    pub fn most(&self) -> usize
        ensures { result ≡ room_of self.now }
    {
        self.room.len()
    }

    /// Forgets the bytes.
    pub fn clear(&mut self)
        ensures room { room_of self.new ≡ room_of self.old }
        ensures none { Keeps self.new [] }
    {
        self.used = 0;
        self.long = false;
    }

    /// The bytes that were taken, if there was room for them.
    pub fn text(&self) -> Option<&[u8]>
        ensures { (bytes : List ℕ) → Keeps self.now bytes → option_map (λ text. text.now) result ≡ within (room_of self.now) bytes }
    {
        if self.long {
            None
        } else {
            Some(&self.room[..self.used])
        }
    }
}

impl Taker for Kept {
    ghost use Rattle.sk_data.specs.Keeping.{Keeps, room_of};

    ghost room = { room_of };

    ghost took = { Keeps };

    fn take(&mut self, byte: u8) {
        if self.used < self.room.len() {
            self.room[self.used] = byte;
            self.used += 1;
        } else {
            self.long = true;
        }
    }
}
