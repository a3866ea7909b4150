//! What comes of a text.
use sk_spaces::Step;
use sk_trace::{TraceFault, read, write};
use std::alloc::{AllocError, Global};
use std::fmt::Write;

/// No text of a row has so many bytes.
const MANY: usize = 100_000;

/// The steps of a text, or why there are none.
fn steps_of(alloc: Global, bytes: &[u8]) -> Result<Vec<Step>, TraceFault> {
    if bytes.len() < MANY {
        read(alloc, bytes)
    } else {
        Err(TraceFault::Memory)
    }
}

/// A fault as the program tells it.
fn told(alloc: Global, fault: TraceFault) -> Result<String, AllocError> {
    match fault {
        TraceFault::Line { number } => format!(in alloc; "line {number}"),
        TraceFault::Memory => String::from_str(alloc, "memory"),
    }
}

/// The steps of a text, one behind the other.
pub fn step(alloc: Global, bytes: &[u8]) -> Result<String, AllocError> {
    match steps_of(alloc, bytes) {
        Ok(steps) => {
            let mut out = String::new(alloc);
            for step in steps.as_slice() {
                write!(out, "{step:?}")?;
            }
            Ok(out)
        }
        Err(fault) => told(alloc, fault),
    }
}

/// Whether the second line of a text has a reading, and is written as it was.
pub fn verdict(alloc: Global, bytes: &[u8]) -> Result<String, AllocError> {
    match steps_of(alloc, bytes) {
        Ok(steps) => again(alloc, steps.as_slice(), bytes),
        Err(_) => String::from_str(alloc, "no reading"),
    }
}

/// Whether steps are written as these bytes.
fn again(alloc: Global, steps: &[Step], bytes: &[u8]) -> Result<String, AllocError> {
    match write(alloc, steps) {
        Ok(text) if text.as_slice() == bytes => String::from_str(alloc, "a step"),
        _ => String::from_str(alloc, "another text"),
    }
}

/// How many steps a text has, or its first line without a reading.
pub fn outcome(alloc: Global, bytes: &[u8]) -> Result<String, AllocError> {
    match steps_of(alloc, bytes) {
        Ok(steps) => {
            let count = steps.len();
            format!(in alloc; "steps {count}")
        }
        Err(fault) => told(alloc, fault),
    }
}

/// What is told of a text that is cut behind each of its bytes.
pub fn cuts(alloc: Global, bytes: &[u8]) -> Result<String, AllocError> {
    let mut out = String::new(alloc);
    let mut last = outcome(alloc, &[])?;
    let mut count = 1u32;
    for end in 1..bytes.len() + 1 {
        let next = outcome(alloc, &bytes[..end])?;
        if next == last {
            count = count.saturating_add(1);
        } else {
            write!(out, "{last} x{count}, ")?;
            last = next;
            count = 1;
        }
    }
    write!(out, "{last} x{count}")?;
    Ok(out)
}
