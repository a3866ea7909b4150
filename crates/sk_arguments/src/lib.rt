//! What a skeleton's function is given at a place, for every kind of parameter: definitions alone, in `specs/`.
#![tactic(auto)]
