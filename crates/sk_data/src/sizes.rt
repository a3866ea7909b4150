ghost use Rattle.std.specs.Prelude.{◌≡◌, ◌==◌, ◌∷◌, IfOk, ◌<◌, ◌^◌, count_by, length, map, option_map, pos};
ghost use Rattle.sk_data.specs.Sizes.{each_some, letter_x, parts_of, shape_in, size_of};

use crate::decimal::natural;
use crate::fault::Memory;
use sk_base::Shape;
use std::alloc::{AllocError, Global};

/// The digits that a size may have.
const MOST_DIGITS: usize = 8;

/// The shape of this many sizes that a text writes, if it writes one: sizes of one to eight digits with an `x` between
/// them. It takes memory for the sizes alone.
pub fn read_shape(alloc: Global, text: &[u8], kind: u8) -> Result<Option<Shape>, Memory>
    ensures { IfOk result (λ shape. shape ≡ shape_in kind text.now) }
{
    if !has_parts(text, kind) {
        return Ok(None);
    }
    match read_sizes(alloc, text)? {
        Some(sizes) => Ok(Shape::new(alloc, sizes.as_slice())),
        None => Ok(None),
    }
}

/// Whether a text has this many parts.
fn has_parts(text: &[u8], count: u8) -> bool
    ensures { result ≡ (length (parts_of text.now) == count) }
{
    separators(text) + 1 == usize::from(count)
}

fn separators(text: &[u8]) -> usize
    ensures value { result ≡ count_by (λ byte. byte == letter_x) text.now }
    ensures bounded { result < 2 ^ 63 }
{
    text.iter().filter(|byte| **byte == b'x').count()
}

/// The sizes that the parts of a text write, if each writes one.
fn read_sizes(alloc: Global, text: &[u8]) -> Result<Option<Vec<i64>>, Memory>
    ensures { IfOk result (λ sizes. option_map (λ list. list.items) sizes
        ≡ option_map (map pos) (each_some (map size_of (parts_of text.now)))) }
{
    let parts = split(alloc, text)?;
    let mut sizes = Vec::with_capacity(alloc, parts.len())?;
    'parts: for part in parts.as_slice() {
        match read_size(part) {
            Some(size) => sizes.push(size)?,
            None => return Ok(None),
        }
    }
    Ok(Some(sizes))
}

fn split(alloc: Global, text: &[u8]) -> Result<Vec<&[u8]>, AllocError>
    ensures { IfOk result (λ parts. map (λ part. part.now) parts.items ≡ parts_of text.now) }
{
    text.split(|byte| *byte == b'x').collect(alloc)
}

fn read_size(part: &[u8]) -> Option<i64>
    ensures { result ≡ option_map pos (size_of part.now) }
{
    if part.len() > MOST_DIGITS {
        return None;
    }
    let size = natural(part)?;
    Some(size as i64)
}
