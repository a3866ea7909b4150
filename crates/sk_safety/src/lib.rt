//! Which user functions never trap, and which are associative operators, by rules on their trees: definitions alone, in
//! `specs/`.
#![tactic(auto)]
