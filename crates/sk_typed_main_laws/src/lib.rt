//! A typed program of vectors fits: each name of its main is what it is used as, and each call gets what it takes.
//!
//! A law has no body: its contract is the law.
#![tactic(auto)]

mod laws;

pub use laws::typed_vectors_fit;
