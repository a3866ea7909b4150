//! Which containers, uniform arguments and settings an instance of a compiled program takes: definitions alone, in `specs/`.
#![tactic(auto)]
