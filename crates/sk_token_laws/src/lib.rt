//! Laws on the tokens of a text: which token stands at the front of a rest, and how the tokens of a text follow piece by
//! piece. Definitions in `specs/`, lemmas in `proofs/`.
#![tactic(auto)]
