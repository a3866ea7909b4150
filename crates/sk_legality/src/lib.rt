//! Where the lines of a trace that tell of calls and of their kernels are legal, what a kernel gives, and what whole traces are.
//! Definitions alone: they stand in `specs/`.
#![tactic(auto)]
