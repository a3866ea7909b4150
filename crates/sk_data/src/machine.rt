//! What each byte does inside a record.
ghost use Rattle.csv.specs.Machine as csv;
ghost use Rattle.csv.specs.Reading.{default_config};
ghost use Rattle.sk_data.specs.Machine.{Tells, state_at};

/// Where in a field the next byte stands.
#[derive(Clone, Copy, PartialEq, Eq, Debug)]
pub enum Place {
    /// In front of it.
    Start,
    /// Outside quotes.
    Plain,
    /// Inside quotes.
    Quoted,
    /// Behind a quote that closes, or that is the first of two.
    Closed,
}

/// What a byte does, and where the next one of its field stands.
#[derive(Clone, Copy, PartialEq, Eq, Debug)]
pub enum Step {
    /// It is no byte of the field.
    Passes(Place),
    /// It is the next byte of the field.
    Joins(Place),
    /// It ends the field, and another one of its record follows.
    EndsField,
    /// It ends the field and its record.
    EndsRecord,
}

/// What a byte does at a place: a field may stand in quotes, where two quotes are one.
pub fn step_of(place: Place, byte: u8) -> Step
    ensures { Tells result (csv.step default_config (state_at place) byte) }
{
    match place {
        Place::Start => match byte {
            b'"' => Step::Passes(Place::Quoted),
            _ => plain_step(byte),
        },
        Place::Plain => plain_step(byte),
        Place::Quoted => match byte {
            b'"' => Step::Passes(Place::Closed),
            _ => Step::Joins(Place::Quoted),
        },
        Place::Closed => match byte {
            b'"' => Step::Joins(Place::Quoted),
            _ => plain_step(byte),
        },
    }
}

/// What a byte does outside quotes.
fn plain_step(byte: u8) -> Step
    ensures { Tells result (csv.in_field default_config byte) }
{
    match byte {
        b',' => Step::EndsField,
        b'\r' | b'\n' => Step::EndsRecord,
        _ => Step::Joins(Place::Plain),
    }
}
