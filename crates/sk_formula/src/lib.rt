//! What each skeleton computes from the values of its function and its operator: definitions alone, in `specs/`.
#![tactic(auto)]
