//! The states of the indices of a copy, drawn by index and by run.
ghost use Rattle.std.specs.Prelude.{◌≤◌, length};

use crate::words::{parted_at, range_of};
use sk_base::Range;
use sk_ranges::{State, States};
use std::alloc::{AllocError, Global};
use std::fmt::Write;

/// What is drawn after each change of states.
pub fn states(alloc: Global, text: &str) -> Result<Option<String>, AllocError> {
    let (len, changes) = parted_at(text, ';');
    let Some(mut states) = made(alloc, len.trim()) else {
        return Ok(None);
    };
    let mut out = String::new(alloc);
    for change in changes.split(';') {
        if !out.is_empty() {
            out.push_str(", ")?;
        }
        push_change(alloc, &mut out, &mut states, change.trim())?;
    }
    Ok(Some(out))
}

/// States of so many indices.
fn made(alloc: Global, len: &str) -> Option<States> {
    States::new(alloc, len.parse().ok()?).ok()
}

/// Adds what comes of a change, or what is missing.
fn push_change(
    alloc: Global,
    out: &mut String,
    states: &mut States,
    change: &str,
) -> Result<(), AllocError> {
    let (lo, rest) = parted_at(change, ' ');
    let (hi, sign) = parted_at(rest, ' ');
    match range_of(lo, hi) {
        Some(range) if range.hi <= states.len() => push_changed(alloc, out, states, range, sign),
        _ => out.push_str("no change"),
    }
}

/// Adds what comes of a change of a range that is there, or what is missing of it.
fn push_changed(
    alloc: Global,
    out: &mut String,
    states: &mut States,
    range: Range,
    sign: &str,
) -> Result<(), AllocError>
    requires { range.hi ≤ length states.old.states }
{
    if sign == "?" {
        return push_missing(out, states, range);
    }
    if states.reserve(1).is_err() {
        return out.push_str("no memory");
    }
    match state_of(sign) {
        Some(state) => states.set(range, state),
        None if sign == "f" => states.fill(range),
        None => return out.push_str("no change"),
    }
    push_drawn(alloc, out, states)
}

/// Adds what is missing of a range that is there.
fn push_missing(out: &mut String, states: &States, range: Range) -> Result<(), AllocError>
    requires { range.hi ≤ length states.now.states }
{
    match states.missing(range) {
        Some(run) => {
            let (lo, hi) = (run.lo, run.hi);
            write!(out, "{lo} {hi}")
        }
        None => out.push_str("none"),
    }
}

/// The state that a letter draws.
fn state_of(sign: &str) -> Option<State> {
    if sign == "." {
        Some(State::Stale)
    } else if sign == "v" {
        Some(State::Valid)
    } else if sign == "o" {
        Some(State::Owner)
    } else {
        None
    }
}

/// The letter that a state is drawn with.
fn letter(state: State) -> char {
    match state {
        State::Stale => '.',
        State::Valid => 'v',
        State::Owner => 'o',
    }
}

/// Adds a letter for each index, and the same by a walk from run to run where that differs.
fn push_drawn(alloc: Global, out: &mut String, states: &States) -> Result<(), AllocError> {
    let drawn = drawn(alloc, states)?;
    let walked = walked(alloc, states)?;
    out.push_str(drawn.as_str())?;
    if walked.as_str() != drawn.as_str() {
        out.push_str(" but by runs ")?;
        out.push_str(walked.as_str())?;
    }
    Ok(())
}

/// A letter for each index.
fn drawn(alloc: Global, states: &States) -> Result<String, AllocError> {
    let mut text = String::new(alloc);
    for index in 0..states.len() {
        text.push(letter(states.at(index)))?;
    }
    Ok(text)
}

/// The same by a walk from run to run.
fn walked(alloc: Global, states: &States) -> Result<String, AllocError> {
    let mut text = String::new(alloc);
    let end = states.len();
    let mut lo = 0;
    'runs: while lo < end {
        let run = states.first_run(Range { lo, hi: end });
        for _ in run.range.lo..run.range.hi {
            text.push(letter(run.state))?;
        }
        lo = run.range.hi;
    }
    Ok(text)
}
