//! The code of a plain program's functions has the values of their sources, where it is sound.
//!
//! A law has no body: its contract is the law.
#![tactic(auto)]

mod laws;

pub use laws::{sound_code_means_source, sound_code_runs_as_source, sound_functions_mean_source};
