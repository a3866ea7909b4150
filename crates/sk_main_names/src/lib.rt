//! What the main that a program of vectors is compiled to names is there: laws.
//!
//! A law has no body: its contract is the law.
#![tactic(auto)]

mod laws;

pub use laws::{compiled_vectors_have_names, standing_vectors_have_names};
