//! Which programs are plain, and what their compiled forms have in common with their sources: definitions alone, in
//! `specs/`; and what the laws on them share, in `proofs/`.
#![tactic(auto)]
