//! The function and the operator of an instance over what a call is given: a definition alone, in `specs/`.
#![tactic(auto)]
