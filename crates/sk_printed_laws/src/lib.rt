//! Laws on printed programs: they read back, and lines leave no trace in them. Lemmas alone, in `proofs/`.
#![tactic(auto)]
