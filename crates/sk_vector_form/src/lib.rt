//! Which programs can be run yet: those of vectors, of Maps, and of functions over scalars.
#![tactic(auto)]

mod vector_form;

pub use vector_form::has_vector_form;
