//! A record of a text.
ghost use Rattle.std.specs.Prelude.{◌≡◌, ◌≤◌, ◌<◌, ℕ, List, length, drop, option_map};
ghost use Rattle.sk_data.specs.Fields.{EndsField, fields_at, longest_shape, rest_at, short_at};
ghost use Rattle.sk_data.specs.Keeping.{Keeps, room_of};
ghost use Rattle.sk_data.specs.RecordHeld.{IsHeld};

use crate::field::{Ending, pass_fields, read_field};
use crate::kept::Kept;

/// Room for the name and the shape of a record.
#[derive(Drop)]
pub struct Room {
    pub name: Kept,
    pub shape: Kept,
}

/// A record with its name and shape, and the text of its values, which are read from it.
#[derive(Drop)]
pub struct TextRecord<'a> {
    text: &'a [u8],
    name: Kept,
    shape: Kept,
    values: &'a [u8],
    count: usize,
    rest: &'a [u8],
    ghost held: { IsHeld text name shape values count rest },
}

impl<'a> TextRecord<'a> {
    ghost use Rattle.sk_data.specs.RecordText.{fields_of, most_of};

    /// The name, unless it is longer than any that is declared.
    pub fn name(&self) -> Option<&[u8]>
        ensures { option_map (λ name. name.now) result ≡ short_at (most_of self.now) (fields_of self.now) 0 }
    {
        self.name.text()
    }

    /// The text of the shape, if there is one, unless it is too long for any.
    pub fn shape(&self) -> Option<&[u8]>
        ensures { option_map (λ shape. shape.now) result ≡ short_at (most_of self.now) (fields_of self.now) 1 }
    {
        if self.count < 2 {
            None
        } else {
            self.shape.text()
        }
    }

    /// The number of its fields.
    pub fn len(&self) -> usize
        ensures { result ≡ length (fields_of self.now) }
    {
        self.count
    }

    /// The text from the third field on.
    pub fn values(&self) -> &'a [u8]
        ensures { 2 < length (fields_of self.now) → fields_at result.now ≡ drop 2 (fields_of self.now) }
    {
        self.values
    }

    /// What is behind the record.
    pub fn rest(&self) -> &'a [u8]
        ensures { result.now ≡ rest_at self.now.text.now }
    {
        self.rest
    }

    /// The room that its name and its shape took.
    pub fn into_room(self) -> Room
        ensures name { room_of result.name ≡ most_of self.entry }
        ensures shape { room_of result.shape ≡ most_of self.entry }
    {
        Room {
            name: self.name,
            shape: self.shape,
        }
    }
}

/// Reads the record in front of a text.
pub fn read_record(text: &[u8], room: Room) -> TextRecord<'_>
    requires roomy { longest_shape ≤ room_of room.name }
    requires same { room_of room.shape ≡ room_of room.name }
    ensures text { result.text.now ≡ text.now }
    ensures most { room_of result.name ≡ room_of room.name }
{
    let Room {
        mut name,
        mut shape,
    } = room;
    let first = keep_field(text, &mut name);
    if first.last {
        return TextRecord {
            text,
            name,
            shape,
            values: first.rest,
            count: 1,
            rest: first.rest,
        };
    }
    let second = keep_field(first.rest, &mut shape);
    if second.last {
        return TextRecord {
            text,
            name,
            shape,
            values: second.rest,
            count: 2,
            rest: second.rest,
        };
    }
    let (values, rest) = pass_fields(second.rest);
    TextRecord {
        text,
        name,
        shape,
        values: second.rest,
        count: values + 2,
        rest,
    }
}

/// Keeps the field in front of a text.
fn keep_field<'a>(text: &'a [u8], kept: &mut Kept) -> Ending<'a>
    ensures room { room_of kept.new ≡ room_of kept.old }
    ensures field { (field : List ℕ) × Keeps kept.new field × EndsField text.now field result.rest.now result.last }
{
    kept.clear();
    read_field(text, kept)
}
