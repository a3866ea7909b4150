//! The main that a program of vectors is compiled to is sound.
//!
//! A law has no body: its contract is the law.
#![tactic(auto)]

mod laws;

pub use laws::{compiled_vectors_are_sound, standing_vectors_are_sound};
