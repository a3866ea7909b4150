//! Which code a program has: definitions alone, in `specs/`.
#![tactic(auto)]
