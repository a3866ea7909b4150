//! Code as lines of text: each instruction with its address in front.
#![tactic(auto)]

mod lines;

pub use lines::listing;
