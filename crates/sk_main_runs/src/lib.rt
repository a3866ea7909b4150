//! Compiled main runs as its source: laws on the code of main and the run of the tree.
//!
//! A law has no body: its contract is the law.
#![tactic(auto)]

mod laws;

pub use laws::{
    compiled_functions_mean_alike, compiled_vectors_run_as_source, main_runs_alike,
    standing_ends_alike, standing_vectors_run_as_source, unmarked_run_alike, vectors_run,
    vectors_run_as_source,
};
