//! Rows of files and streams that were worked out by hand: objects in memory and of the system, and code that is generic over
//! both. A crate with a test is proved twice, so the tests of `sk_outside` stand here.
#![tactic(auto)]

#[cfg(test)]
mod outside;
