//! Names in scope with what they stand for, on which the walks over the blocks of a program stand.
//!
//! - `scopes`: declarations that may shadow each other, taken back block by block.
#![tactic(auto)]

mod scopes;

pub use scopes::Scopes;
