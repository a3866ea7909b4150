//! The code of whole programs, main included, exactly as the code scheme has it.
//!
//! - `named`, `names`: what names of main stand for, and which are in scope (`InMain`).
//! - `instances`: which containers and uniform arguments an instance takes.
//! - `leaves`: what names are compiled to in main.
//! - `values`, `settings`: the values that statements take.
//! - `writer`: main as far as it is written.
//! - `simple`, `printing`, `statements`: the code of statements.
//! - `inputs`: the inputs of a program.
//! - `program`: a whole program.
#![tactic(auto)]

mod inputs;
mod instances;
mod leaves;
mod named;
mod names;
mod printing;
mod program;
mod settings;
mod simple;
mod statements;
mod values;
mod writer;

pub use program::compile;
