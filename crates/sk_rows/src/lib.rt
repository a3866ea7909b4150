//! Rows that were worked out by hand: tables of tests over a file and streams in memory. Each row crosses all crates,
//! from the words of a command line and the bytes of a source to a status, what is printed, and the line on the error
//! stream.
//!
//! - `runs`: one run, and what it left behind.
//! - `commands`: command lines, and faults of the file and the streams.
//! - `sources`: the longest source and a longer one, and the longest vector.
#![tactic(auto)]

#[cfg(test)]
mod commands;
#[cfg(test)]
mod runs;
#[cfg(test)]
mod sources;
