//! What holds of all code of the machine: where all loops take turns, steps come to an end; each step of sound code finds
//! what it needs; its run ends within its limit; and the functions of a sound object have values.
//!
//! A law has no body: its contract is the law.
#![tactic(auto)]

mod laws;

pub use laws::{functions_have_values, ranks_fall, sound_code_ends, sound_code_is_never_stuck};
