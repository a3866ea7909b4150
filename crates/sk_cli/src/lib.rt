//! The program's one call: from words, files and streams to a status.
//!
//! - `command`: the top call.
//! - `words`: what the words of the command line ask for.
//! - `source`: from the bytes of a source to its compiled program.
//! - `run`: the run of that program.
//! - `report`, `refused`: lines on the error stream.
//! - `laws`: that there is one answer.
#![tactic(auto)]

mod command;
mod laws;
mod refused;
mod report;
mod run;
mod source;
mod words;

pub use command::skepu;
pub use laws::words_have_one_answer;
pub use report::WANT_OF_MEMORY;
