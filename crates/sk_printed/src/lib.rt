//! What programs are printed as, and what it means that a printed program reads back: definitions alone, in `specs/`.
#![tactic(auto)]
