//! Laws on the rules of names and types, over the definitions of `sk_typing` alone: laws and no code, in `proofs/`.
//!
//! - `Least`: the fault that is told of several lists of faults.
//! - `Levels`: what is said of a statement, in terms of its parts.
//! - `AddedNames`: statements add names in front of those that were in scope.
//! - `Walks`: walks over statements, and how far one has come.
//! - `Inputs`, `Takes`: inputs of statements, and how far a search for them has come.
//! - `Functions`: the faults of functions.
#![tactic(auto)]
