//! What main does: names in scope over a world, where each call computes its whole result at once. Definitions alone, in
//! `specs/`.
#![tactic(auto)]
