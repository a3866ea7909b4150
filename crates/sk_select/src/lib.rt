//! Tuning tables: which variant of a skeleton runs a call, by the skeleton and the number of elements.
//!
//! - `fault`: why a table is refused, and the names of its fields.
//! - `tuning`: what a table says.
//! - `field`: the fields of a JSON value, one by one.
//! - `rule`: one rule.
//! - `reading`: a whole table, read from its bytes.
//! - `choice`: the variant and the number of parts of a call.
#![tactic(auto)]

mod choice;
mod fault;
mod field;
mod reading;
mod rule;
mod tuning;

pub use choice::choose;
pub use fault::{FieldName, TableFault};
pub use reading::table;
pub use tuning::{Rule, Tuning};
