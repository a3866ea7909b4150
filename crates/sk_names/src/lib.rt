//! Names and texts, as lists of bytes.
//!
//! - `bytes`: a name and a text.
//!
//! Which words there are, which of them may be names, and what a list of bindings binds a name to are definitions of
//! `specs/`.
#![tactic(auto)]

mod bytes;

pub use bytes::{Name, Text};
