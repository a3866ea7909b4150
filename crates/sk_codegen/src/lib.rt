//! From a program to the machine's code: what the code scheme gives, with the laws that hold of it.
//!
//! - `program`: the compiled form of a program.
//! - `laws`: that the code is sound, and what it has in common with its source.
#![tactic(auto)]

mod laws;
mod program;

pub use laws::{code_means_source, code_runs_as_source};
pub use program::compile;
pub use sk_scheme_sound::{plain_functions_are_sound, plain_programs_are_sound};
