//! Containers as records of comma-separated values: the inputs of a program are read from them, and its final
//! containers are written as such.
//!
//! - `decimal`: whole numbers in decimal digits, read and written whole.
//! - `joined`: texts with a byte between them.
//! - `sizes`: shapes as text.
//! - `cells`, `given`: lists of cells, and containers with their names and shapes.
//! - `fault`: why there are no inputs.
//! - `machine`: what each byte does inside a record.
//! - `taker`: what takes the bytes of a field: `kept` keeps them, `number` reads a whole number.
//! - `field`: the fields of a record, one after another.
//! - `record`: a record with its name and shape.
//! - `records`: where the next record of a text begins.
//! - `numbers`: the cells of a record.
//! - `judged`: what one record gives an input.
//! - `names`: the place of a declared name.
//! - `inputs`: what the records so far gave.
//! - `from_text`: from a text to the inputs of a program.
//! - `to_text`: from containers to a text, which reads as them again.
#![tactic(auto)]

mod cells;
mod decimal;
mod fault;
mod field;
mod from_text;
mod given;
mod inputs;
mod joined;
mod judged;
mod kept;
mod machine;
mod names;
mod number;
mod numbers;
mod record;
mod records;
mod sizes;
mod taker;
mod to_text;

pub use cells::Cells;
pub use fault::{InputFault, Memory};
pub use from_text::input;
pub use given::{Dumped, Given};
pub use to_text::dump;
