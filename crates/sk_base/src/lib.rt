//! Numbers of the language and shapes of containers: the base of every other crate.
//!
//! - `number`: the two integer types, their operators, and the traps.
//! - `arithmetic`: the value of an operator, which wraps at the type's width.
//! - `range`: half-open ranges of indices.
//! - `shape`: one to four sizes, and the row-major index of a place.
//! - `choice`: the names of edge modes and of skeleton variants.
#![tactic(auto)]

mod arithmetic;
mod choice;
mod number;
mod range;
mod shape;

pub use arithmetic::{binary, convert, wrap};
pub use choice::{EdgeMode, Variant};
pub use number::{Cell, Op, Trap, Ty};
pub use range::Range;
pub use shape::{MOST_CELLS, Shape, flat};
