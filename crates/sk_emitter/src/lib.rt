//! The code of a program's functions, exactly as the code scheme has it, and what their code shares with main's.
//!
//! - `applied`: what expressions leave, and what is done with the parts of an application.
//! - `surrounding`: what names are compiled to where an expression stands (`Surrounding`).
//! - `types`: the types of operators' values.
//! - `output`: instructions behind instructions, and jumps that are written once their targets are known.
//! - `expressions`: the code of expressions in any surrounding.
//! - `names`: the functions that may be called, and the slots of the names in scope (`InScope`).
//! - `leaves`: what names are compiled to in a function.
//! - `statements`, `functions`: the code of each.
//! - `plans`: the skeleton instances.
//! - `program`: a program whose functions alone are compiled.
#![tactic(auto)]

mod applied;
mod expressions;
mod functions;
mod leaves;
mod names;
mod output;
mod plans;
mod program;
mod statements;
mod surrounding;
mod types;

pub use applied::{Applied, Given, Use};
pub use expressions::{arguments, containers, expression, parted, wanted};
pub use functions::{Functions, compile_all};
pub use names::{Callee, InScope, Place};
pub use output::{above, address, fill, narrow, put, room, sum};
pub use plans::{elements, plan};
pub use program::{body, compiled, function_names, no_marks};
pub use surrounding::Surrounding;
pub use types::kinds;
