//! When the run of a compiled program is that of its source. Definitions alone: they stand in `specs/`.
#![tactic(auto)]
