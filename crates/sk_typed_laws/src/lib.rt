//! A typed program whose functions take scalars is plain.
//!
//! A law has no body: its contract is the law.
#![tactic(auto)]

mod laws;

pub use laws::{
    numbers_of_texts_fit, programs_of_texts_are_formed, typed_functions_are_plain,
    typed_vectors_are_plain,
};
