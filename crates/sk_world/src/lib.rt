//! What main does to its containers, to the settings of its instances and to the outside, by their numbers in the text:
//! definitions alone, in `specs/`.
#![tactic(auto)]
