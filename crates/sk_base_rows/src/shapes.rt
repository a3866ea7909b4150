//! Shapes, the places of their elements, and ranges.
use crate::words::{numbers, parted_at, range_of};
use sk_base::{Shape, flat};
use std::alloc::{AllocError, Global};

/// The sizes of a shape and its number of cells, or `none`.
pub fn shape(alloc: Global, text: &str) -> Result<Option<String>, AllocError> {
    let Some(sizes) = numbers(alloc, text) else {
        return Ok(None);
    };
    match Shape::new(alloc, sizes.as_slice()) {
        Some(shape) => Ok(Some(shown(alloc, &shape)?)),
        None => Ok(Some(String::from_str(alloc, "none")?)),
    }
}

/// A shape as text.
fn shown(alloc: Global, shape: &Shape) -> Result<String, AllocError> {
    let sizes = shape.sizes();
    let cells = shape.cells();
    let mut out = format!(in alloc; "{sizes:?} {cells} cells")?;
    if shape.again() != *shape {
        out.push_str(", another one again")?;
    }
    Ok(out)
}

/// The row-major index of a place, or `none`.
pub fn place(alloc: Global, text: &str) -> Result<Option<String>, AllocError> {
    let (sizes, indices) = parted_at(text, ';');
    match (shape_of(alloc, sizes), numbers(alloc, indices)) {
        (Some(shape), Some(indices)) => match flat(&shape, indices.as_slice()) {
            Some(index) => Ok(Some(format!(in alloc; "{index}")?)),
            None => Ok(Some(String::from_str(alloc, "none")?)),
        },
        _ => Ok(None),
    }
}

/// The shape of these sizes.
fn shape_of(alloc: Global, text: &str) -> Option<Shape> {
    Shape::new(alloc, numbers(alloc, text)?.as_slice())
}

/// The length of a range, whether it is empty, and whether it has an index.
pub fn range(alloc: Global, text: &str) -> Result<Option<String>, AllocError> {
    let (lo, rest) = parted_at(text, ' ');
    let (hi, index) = parted_at(rest, ' ');
    match (range_of(lo, hi), index.parse::<u32>()) {
        (Some(range), Ok(index)) => {
            let len = range.len();
            let empty = if range.is_empty() { "empty, " } else { "" };
            let is_in = if range.contains(index) { "in" } else { "out" };
            Ok(Some(format!(in alloc; "{len}, {empty}{is_in}")?))
        }
        _ => Ok(None),
    }
}
