//! Names and types: whether a program keeps the language's rules, and the fault that is told where it does not.
//!
//! - `fault`: the faults as they are told.
//! - `least`: which of two faults is told.
//! - `around`: where something stands, and the names in scope there.
//! - `kinds`, `fields`, `places`, `skeleton`, `setting`: the rules of parameters, skeletons and settings.
//! - `argument`, `expression`, `uses`: expressions and what names take.
//! - `instance`, `simple`, `statement`, `returning`: statements.
//! - `numbers`: functions by their names.
//! - `function`, `inputs`, `program`: functions, inputs and the whole program.
//! - `typed`: the one public call, and what it gives.
#![tactic(auto)]

mod argument;
mod around;
mod expression;
mod fault;
mod fields;
mod function;
mod inputs;
mod instance;
mod kinds;
mod least;
mod numbers;
mod places;
mod program;
mod returning;
mod setting;
mod simple;
mod skeleton;
mod statement;
mod typed;
mod uses;

pub use fault::TypeFault;
pub use sk_tree::Declared;
pub use typed::{Typed, check};
