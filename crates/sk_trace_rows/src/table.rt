//! Lines of the table.
use crate::answers::{cuts, outcome, step, verdict};
use sk_tables::{Teller, bytes_of, word_of};
use std::alloc::{AllocError, Global};

/// The first line of a trace.
const FIRST_LINE: &[u8] = b"skepu-trace 1\n";

/// What tells of a table of texts of traces.
#[derive(Clone, Copy, Debug)]
pub struct Traces;

impl Teller for Traces {
    fn tell(&mut self, alloc: Global, line: &str) -> Result<Option<String>, AllocError> {
        Ok(Some(answer(alloc, line)?))
    }
}

/// What is to be printed for a line of the table.
fn answer(alloc: Global, line: &str) -> Result<String, AllocError> {
    let (word, text) = word_of(line);
    if word == "step" {
        let told = step(alloc, behind_first(alloc, text)?.as_slice())?;
        return told_of(alloc, text, told.as_str());
    }
    if word == "line" {
        let told = verdict(alloc, behind_first(alloc, text)?.as_slice())?;
        return told_of(alloc, text, told.as_str());
    }
    if word == "text" {
        let told = outcome(alloc, bytes_of(alloc, text)?.as_slice())?;
        return told_of(alloc, text, told.as_str());
    }
    if word == "cut" {
        let told = cuts(alloc, bytes_of(alloc, text)?.as_slice())?;
        return told_of(alloc, text, told.as_str());
    }
    String::from_str(alloc, line)
}

/// A line behind the first one of a trace.
fn behind_first(alloc: Global, line: &str) -> Result<Vec<u8>, AllocError> {
    let mut text = Vec::from_slice(alloc, FIRST_LINE)?;
    text.extend_from_slice(bytes_of(alloc, line)?.as_slice())?;
    text.push(b'\n')?;
    Ok(text)
}

/// A text, and what is told of it.
fn told_of(alloc: Global, text: &str, told: &str) -> Result<String, AllocError> {
    format!(in alloc; "{text} => {told}")
}
