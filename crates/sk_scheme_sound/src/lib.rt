//! The compiled form of a plain program is sound.
//!
//! A law has no body: its contract is the law.
#![tactic(auto)]

mod laws;

pub use laws::{plain_functions_are_sound, plain_programs_are_sound};
