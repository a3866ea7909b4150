//! What a whole program is compiled to, main included: definitions, in `specs/`, and a law on them.
#![tactic(auto)]

mod laws;

pub use laws::unmarked_objects_stand;
