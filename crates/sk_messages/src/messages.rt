//! Messages by number.
ghost use Rattle.std.specs.Prelude.{◌≡◌, ◌+◌, ◌<◌, ◌≤◌, [], length, None, IsSome, IfSome, IfNone, OnOk, OnErr, IsOk, IsSomeAnd};
ghost use Rattle.sk_messages.specs.Messages.{mail_of, next_of, IsSame, Puts, Takes, Spoils};
ghost use Rattle.sk_messages.specs.Slots.{IsSent};

use crate::slots::{self, Sent, Slot};
use sk_base::{Cell, Range};
use sk_spaces::Memory;
use std::alloc::Global;
use std::marker::Model;

/// The messages in flight, by number, with their cells. Numbers are given in order from 0 on, and none twice.
#[derive(Drop)]
pub struct Messages {
    first: u64,
    slots: Vec<Option<Slot>>,
    pool: Vec<Cell>,
    flying: usize,
    room: u32,
    cells: usize,
}

impl Model for Messages {
    ghost use Rattle.std.specs.Prelude.{vec_capacity};
    ghost use Rattle.sk_messages.specs.Messages.{MessagesView};
    ghost use Rattle.sk_messages.specs.Slots.{mails_in, IsKept};

    ghost Value = { MessagesView };

    ghost view = { λ m. record {
      first = m.first;
      mails = mails_in m.pool.items m.slots.items;
      room = m.room;
      cells = m.cells;
    } };

    ghost invariant = { λ m. IsKept m.first m.flying m.room m.cells m.slots.items m.pool.items
        (vec_capacity m.slots) (vec_capacity m.pool) };
}

impl Messages {
    /// No message, and no room for one. The allocator is kept, and asked for nothing.
    pub fn new(alloc: Global) -> Messages
        ensures { result ≡ record { first = 0; mails = []; room = 0; cells = 0 } }
    {
        Messages {
            first: 0,
            slots: Vec::new(alloc),
            pool: Vec::new(alloc),
            flying: 0,
            room: 0,
            cells: 0,
        }
    }

    /// The number of the next message.
    pub fn next(&self) -> u64
        ensures { result ≡ next_of self.now }
    {
        self.first + self.slots.len() as u64
    }

    /// Makes room for so many messages more, with so many cells more in all, besides the room that is there. Want of memory
    /// leaves that as it was. Where no message is in flight, what came or was spoilt is forgotten, and its memory is used
    /// again. The cost is one step at most for each remembered message and cell.
    pub fn reserve(&mut self, messages: u32, cells: u32) -> Result<(), Memory>
        ensures same { IsSame self.old self.new }
        ensures room { OnOk result (self.new.room ≡ self.old.room + messages) }
        ensures cells { OnOk result (self.new.cells ≡ self.old.cells + cells) }
        ensures succeeds { messages ≡ 0 → cells ≡ 0 → IsOk result }
        ensures err_room { OnErr result (self.new.room ≡ self.old.room) }
        ensures err_cells { OnErr result (self.new.cells ≡ self.old.cells) }
    {
        self.forget();
        let room = self.room.checked_add(messages).ok_or(Memory)?;
        let all = self.cells.checked_add(cells as usize).ok_or(Memory)?;
        self.next().checked_add(room as u64).ok_or(Memory)?;
        self.slots.reserve(room as usize)?;
        self.pool.reserve(all)?;
        self.room = room;
        self.cells = all;
        Ok(())
    }

    /// Forgets what came or was spoilt, where no message is in flight.
    fn forget(&mut self)
        ensures same { IsSame self.old self.new }
        ensures room { self.new.room ≡ self.old.room }
        ensures cells { self.new.cells ≡ self.old.cells }
    {
        if self.flying == 0 {
            self.first = self.next();
            self.slots.clear();
            self.pool.clear();
        }
    }

    /// Puts a message with these cells in flight, and gives its number. It takes no memory. The cost is one move of the
    /// cells.
    pub fn put(&mut self, sent: Sent, cells: &[Cell]) -> u64
        requires room { 0 < self.old.room }
        requires cells { length cells.now ≤ self.old.cells }
        requires whole { sent.range.lo + length cells.now ≡ sent.range.hi }
        ensures { Puts self.old self.new result (record {
          store = sent.store;
          target = sent.target;
          lo = sent.range.lo;
          hi = sent.range.hi;
          cells = cells.now;
        }) }
    {
        let number = self.next();
        let at = self.pool.len();
        // There is room, so this takes no memory.
        let _ = self.pool.extend_from_slice(cells);
        self.slots.push_reserved(Some(Slot { sent, at }));
        self.flying += 1;
        self.room -= 1;
        self.cells -= cells.len();
        number
    }

    /// What the message in flight with this number carries, and where to; none where no such message is in flight. The cost
    /// is one look at its place.
    pub fn get(&self, number: u64) -> Option<Sent>
        ensures some { IfSome result (λ sent. IsSomeAnd (mail_of self.now number) (λ mail. IsSent mail sent)) }
        ensures none { IfNone result (mail_of self.now number ≡ None) }
    {
        let slot = slots::find(&self.slots, self.first, number)?;
        Some(slot.sent)
    }

    /// The cells of the message in flight with this number, in order of their indices. They are lent where they lie.
    pub fn cells(&self, number: u64) -> &[Cell]
        requires { IsSome (mail_of self.now number) }
        ensures cells { IfSome (mail_of self.now number) (λ mail. result.now ≡ mail.cells) }
        ensures whole { IfSome (mail_of self.now number) (λ mail. mail.lo + length mail.cells ≡ mail.hi) }
    {
        match slots::find(&self.slots, self.first, number) {
            Some(slot) => slots::cells_of(&self.pool, slot),
            None => &[],
        }
    }

    /// The message with this number came. The cost is one look at its place.
    pub fn take(&mut self, number: u64)
        requires { IsSome (mail_of self.old number) }
        ensures { IfSome (mail_of self.old number) (λ mail. Takes self.old self.new number mail) }
    {
        let at = (number - self.first) as usize;
        self.slots[at] = None;
        self.flying -= 1;
    }

    /// The messages that take one of these indices of a store will not come. Where none is in flight it costs nothing,
    /// and else one step for each message since the last that was forgotten.
    pub fn spoil(&mut self, store: u64, range: Range)
        ensures { Spoils self.old self.new store range.lo range.hi }
    {
        if self.flying > 0 {
            self.flying = slots::spoil(&mut self.slots, store, range);
        }
    }
}
