//! The objects of typed programs of vectors that a text has: their names, functions, instances and containers are those of a
//! sound object, and they run as their programs.
//!
//! A law has no body: its contract is the law.
#![tactic(auto)]

mod laws;

pub use laws::{
    absent_marks_are_true, compiled_vectors_are_runnable, programs_of_texts_are_named_shortly,
    sound_vectors_are_runnable, standing_marks_are_safe, standing_objects_are_named,
    standing_operators_are_true, standing_vectors_are_runnable,
    standing_vectors_are_vector_objects, standing_vectors_have_sound_functions,
    standing_vectors_run, typed_vectors_mean_source, typed_vectors_run,
};
