//! What expressions, user functions and skeletons compute: definitions alone, in `specs/`.
#![tactic(auto)]
