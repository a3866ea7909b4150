//! The fields of a record, one after another.
ghost use Rattle.std.specs.Prelude.{◌≡◌, ◌≤◌, ◌+◌, ℕ, List, [], length};
ghost use Rattle.sk_data.specs.Fields.{EndsField, fields_at, rest_at};

use crate::machine::{Place, Step, step_of};
use crate::taker::{Passed, Taker};

/// What is behind a field.
#[derive(Clone, Copy, Debug)]
pub struct Ending<'a> {
    pub rest: &'a [u8],
    /// No field of its record follows.
    pub last: bool,
}

/// Gives away the bytes of the field in front of a text, without the quotes that it stands in.
pub fn read_field<'a, T: Taker>(text: &'a [u8], taker: &mut T) -> Ending<'a>
    requires { T.took taker.old [] }
    ensures room { T.room taker.new ≡ T.room taker.old }
    ensures field { (field : List ℕ) × T.took taker.new field × EndsField text.now field result.rest.now result.last }
{
    let mut place = Place::Start;
    'bytes: for at in 0..text.len() {
        match step_of(place, text[at]) {
            Step::Passes(next) => place = next,
            Step::Joins(next) => {
                taker.take(text[at]);
                place = next;
            }
            Step::EndsField => {
                return Ending {
                    rest: &text[at + 1..],
                    last: false,
                };
            }
            Step::EndsRecord => {
                return Ending {
                    rest: &text[at + 1..],
                    last: true,
                };
            }
        }
    }
    Ending {
        rest: &text[text.len()..],
        last: true,
    }
}

/// The number of fields that a record has from here on, and what is behind it.
pub fn pass_fields(text: &[u8]) -> (usize, &[u8])
    ensures count { result.0 ≡ length (fields_at text.now) }
    ensures rest { result.1.now ≡ rest_at text.now }
    ensures few { result.0 ≤ length text.now + 1 }
{
    let mut ending = read_field(text, &mut Passed);
    let mut count = 1;
    'fields: while !ending.last {
        ending = read_field(ending.rest, &mut Passed);
        count += 1;
    }
    (count, ending.rest)
}
