//! Rows that were worked out by hand, over the compiler and the machine: from the tree of a program to the value or the trap
//! of one of its functions.
//!
//! - `expressions`, `functions`, `program`: a program as a tree.
//! - `calls`: its functions, compiled and run.
//! - `sharing`: its functions and instances, run over one frame in turns.
//! - `rows`: arguments, with the value or the trap that is wanted.
#![tactic(auto)]

#[cfg(test)]
mod calls;
#[cfg(test)]
mod expressions;
#[cfg(test)]
mod functions;
#[cfg(test)]
mod program;
#[cfg(test)]
mod rows;
#[cfg(test)]
mod sharing;
