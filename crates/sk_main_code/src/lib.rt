//! What the code of main does, and which compiled programs are sound. Definitions alone: they stand in `specs/`.
#![tactic(auto)]
