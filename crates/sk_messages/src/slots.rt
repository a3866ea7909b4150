//! One message, with the place of its cells.
ghost use Rattle.std.specs.Prelude.{◌≡◌, ◌+◌, ◌≤◌, ◌==◌, ◌&&◌, length, map, sum_by};
ghost use Rattle.sk_spaces.specs.Machine.{do_overlap};
ghost use Rattle.sk_messages.specs.Slots.{len_of, mail_in, slot_of, left_slot, flies_slot};

use sk_base::{Cell, Range};

/// What a message carries, and where to: the cells of a range of a store, to the copy `target`.
#[derive(Clone, Copy, PartialEq, Eq, Debug)]
pub struct Sent {
    pub store: u64,
    pub target: u64,
    pub range: Range,
}

/// A message in flight, and where its cells begin among those of all messages.
#[derive(Clone, Copy)]
pub struct Slot {
    pub sent: Sent,
    pub at: usize,
}

/// The message in flight with a number, where the first slot is that of the message `first`.
pub fn find(slots: &[Option<Slot>], first: u64, number: u64) -> Option<Slot>
    ensures { result ≡ slot_of slots.now first number }
{
    let at = number.checked_sub(first)?;
    *slots.get(at as usize)?
}

/// The cells of a message, among those of all messages.
pub fn cells_of(pool: &[Cell], slot: Slot) -> &[Cell]
    requires { slot.at + len_of slot ≤ length pool.now }
    ensures { result.now ≡ (mail_in pool.now slot).cells }
{
    let end = slot.at + slot.sent.range.len() as usize;
    &pool[slot.at..end]
}

/// Whether a message takes one of these indices of a store.
fn takes(sent: Sent, store: u64, range: Range) -> bool
    ensures { result ≡ ((sent.store == store) && do_overlap range.lo range.hi sent.range.lo sent.range.hi) }
{
    sent.store == store && range.lo.max(sent.range.lo) < range.hi.min(sent.range.hi)
}

/// What is left of a message after these indices of a store changed.
fn left(slot: Option<Slot>, store: u64, range: Range) -> Option<Slot>
    ensures { result ≡ left_slot store range.lo range.hi slot }
{
    match slot {
        Some(slot) => {
            if takes(slot.sent, store, range) {
                None
            } else {
                Some(slot)
            }
        }
        None => None,
    }
}

/// Forgets the messages that take one of these indices of a store, and counts those that are left.
pub fn spoil(slots: &mut [Option<Slot>], store: u64, range: Range) -> usize
    ensures slots { slots.new ≡ map (left_slot store range.lo range.hi) slots.old }
    ensures flying { result ≡ sum_by flies_slot slots.new }
{
    let mut flying = 0;
    'slots: for at in 0..slots.len() {
        let slot = left(slots[at], store, range);
        slots[at] = slot;
        flying += usize::from(slot.is_some());
    }
    flying
}
