//! The grammar: how programs are written down in tokens, and the limits that they keep.
//!
//! - `infix`: operators between two operands, and how tightly they bind.
//! - `words`: what a word of a table stands for.
//!
//! Which trees a list of tokens reads as is a definition of `specs/`.
#![tactic(auto)]

mod infix;
mod words;

pub use infix::Infix;
pub use words::meant;
