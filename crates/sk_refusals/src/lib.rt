//! Which fault of the grammar or its limits a list of tokens has, and at which token: definitions, in `specs/`.
//!
//! - `refusal`: what is wrong at a token.
#![tactic(auto)]

mod refusal;

pub use refusal::{Limited, Refusal};
