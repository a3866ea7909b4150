//! What holds of the main of each sound object: it begins at a fine point, no step of it is ever stuck, each instruction
//! finds what it needs, and its run ends.
//!
//! A law has no body: its contract is the law.
#![tactic(auto)]

mod laws;

pub use laws::{
    instances_compute_by_their_meaning, main_begins_fine, main_calls_are_fine,
    main_calls_are_given, main_calls_are_made, main_ends, main_finds_what_it_needs,
    main_is_never_stuck, main_measure_falls, main_ranks_fall, main_runs_to_its_meaning,
};
