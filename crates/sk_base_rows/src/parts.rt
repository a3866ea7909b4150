//! Parts of a range, indices outside a container, and the choices of a seed and of a list.
use crate::words::parted_at;
use sk_base::EdgeMode;
use sk_parts::{Chooser, Listed, Seeded, cut, edge};
use std::alloc::{AllocError, Global};
use std::fmt::Write;

/// The ends of a part.
pub fn cut_of(alloc: Global, text: &str) -> Result<Option<String>, AllocError> {
    let (n, rest) = parted_at(text, ' ');
    let (parts, part) = parted_at(rest, ' ');
    match (n.parse::<u32>(), parts.parse::<u32>(), part.parse::<u32>()) {
        (Ok(n), Ok(parts), Ok(part)) if part < parts => {
            let range = cut(n, parts, part);
            let (lo, hi) = (range.lo, range.hi);
            Ok(Some(format!(in alloc; "{lo} {hi}")?))
        }
        _ => Ok(None),
    }
}

/// Where an index lies by an edge mode.
pub fn edge_of(alloc: Global, text: &str) -> Result<Option<String>, AllocError> {
    let (mode, rest) = parted_at(text, ' ');
    let (size, index) = parted_at(rest, ' ');
    match (mode_of(mode), size.parse::<u32>(), index.parse::<i64>()) {
        (Some(mode), Ok(size), Ok(index)) if size > 0 => {
            let place = edge(mode, size, index);
            Ok(Some(format!(in alloc; "{place:?}")?))
        }
        _ => Ok(None),
    }
}

/// The edge mode with this name.
fn mode_of(word: &str) -> Option<EdgeMode> {
    if word == "duplicate" {
        Some(EdgeMode::Duplicate)
    } else if word == "cyclic" {
        Some(EdgeMode::Cyclic)
    } else if word == "pad" {
        Some(EdgeMode::Pad)
    } else {
        None
    }
}

/// The choices of a seed.
pub fn seeded(alloc: Global, text: &str) -> Result<Option<String>, AllocError> {
    let (seed, counts) = parted_at(text, ';');
    match seed.trim().parse::<u64>() {
        Ok(seed) => Ok(Some(chosen(alloc, &mut Seeded::new(seed), counts)?)),
        Err(_) => Ok(None),
    }
}

/// The choices of a list.
pub fn listed(alloc: Global, text: &str) -> Result<Option<String>, AllocError> {
    let (list, counts) = parted_at(text, ';');
    match choices(alloc, list) {
        Some(list) => Ok(Some(chosen(alloc, &mut Listed::new(list), counts)?)),
        None => Ok(None),
    }
}

/// Numbers with blanks between.
fn choices(alloc: Global, text: &str) -> Option<Vec<u32>> {
    let mut numbers = Vec::new(alloc);
    for word in text.split_whitespace() {
        numbers.push(word.parse().ok()?).ok()?;
    }
    Some(numbers)
}

/// What any chooser chooses among so many, one after another.
fn chosen<C: Chooser>(alloc: Global, chooser: &mut C, counts: &str) -> Result<String, AllocError> {
    let mut out = String::new(alloc);
    for count in counts.split_whitespace() {
        push_choice(&mut out, chooser, count.parse().unwrap_or(0))?;
    }
    Ok(out)
}

/// Adds a choice among so many.
fn push_choice<C: Chooser>(
    out: &mut String,
    chooser: &mut C,
    count: u32,
) -> Result<(), AllocError> {
    if !out.is_empty() {
        out.push(' ')?;
    }
    if count == 0 {
        return out.push_str("none");
    }
    let choice = chooser.choose(count);
    write!(out, "{choice}")
}
