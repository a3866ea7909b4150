//! The machine's code and compiled programs.
//!
//! - `code`: instructions and code.
//! - `object`: a compiled program.
//!
//! What instructions do, and which code never lacks what it needs, are definitions of `specs/`.
#![tactic(auto)]

mod code;
mod object;

pub use code::{Code, Instr};
pub use object::{Object, Plan, Signature};
pub use sk_base::Variant;
