//! The rules of names and types.
//!
//! - `names`: what names stand for, and the faults of names and types.
//!
//! Which faults a program has, which one is told, and which inputs it has are definitions of `specs/`.
#![tactic(auto)]

mod names;

pub use names::{Expected, Fault, FaultKind, Known, Made, Use};
