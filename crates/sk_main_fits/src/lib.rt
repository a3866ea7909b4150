//! Which programs of vectors fit the names in scope where their code stands. Definitions alone: they stand in `specs/`.
#![tactic(auto)]
