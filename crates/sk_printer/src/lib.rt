//! The text that a program is printed as.
//!
//! - `words`: operators, numbers of a type, and the names of parameter types, skeletons and modes.
//! - `expressions`: expressions, with no needless parentheses.
//! - `parts`: parts of statements.
//! - `statements`: statements, one a line.
//! - `programs`: functions and programs.
//!
//! What is put is exactly what the definitions say; that it reads back is no business of this crate.
#![tactic(auto)]

mod expressions;
mod parts;
mod programs;
mod statements;
mod words;

pub use programs::printed;
