//! What a skeleton needs of a function, and of the data that it works on.
//!
//! - `kernel`: the two traits, `Kernel` and `Data`.
//! - `vector_call`: a vector as the data of a call.
//!
//! What instances of a compiled program mean is a definition of `specs/`.
#![tactic(auto)]

mod kernel;
mod vector_call;

pub use kernel::{At, Data, Kernel, RunTrap};
pub use vector_call::VectorCall;
