//! The text of a trace: a first line, and one line for each step of a run.
//!
//! A line is read by making the one step that it may be the line of, whatever its words are, and comparing that step's own
//! line with it. So no form of a number and no word needs a check of its own: what is not written, is not read.
//!
//! - `keyword`, `names`: the first words of lines, and the words for types, variants, kinds of kernels and modes.
//! - `words`: words at the end of a text.
//! - `lines`: the line of a step.
//! - `numbers`: the numbers that digits write.
//! - `split`: the words of a line, and of a word that is made of others.
//! - `named`: what words name.
//! - `candidates`: the step that a line may be the line of.
//! - `fault`: why a text is no trace.
//! - `text`: from steps to a text, and from a text to steps.
#![tactic(auto)]

mod candidates;
mod fault;
mod keyword;
mod lines;
mod named;
mod names;
mod numbers;
mod split;
mod text;
mod words;

pub use fault::TraceFault;
pub use text::{read, write};
