ghost use Rattle.std.specs.Prelude.{◌≡◌, ◌<◌, ◌≤◌, ◌^◌, length, take};
ghost use Rattle.sk_arguments.specs.Places.{coordinates_of};
ghost use Rattle.sk_base.specs.Shape.{cells_of};
ghost use Rattle.sk_meaning.specs.Evaluation.{Place, field_of};
ghost use Rattle.sk_vm.specs.Places.{HasField, IsCounted, axis_of, count_of, counted_at};

use crate::start::Reading;
use sk_base::Cell;
use sk_kernel::{At, Data};

/// The most coordinates of a place.
pub const MOST_COORDINATES: usize = 4;

/// How many index parameters a function has, by their dimension.
#[inline]
pub fn count_of(index: Option<u8>) -> usize
    ensures { result ≡ count_of index }
{
    match index {
        Some(_) => 1,
        None => 0,
    }
}

/// Writes the coordinates of what an index is given, and tells how many there are: the place and the pair where a function is
/// evaluated at pairs, and else those of the place in the container in which places are counted. Without an index there are none.
#[inline]
pub fn count_place<D: Data>(
    source: &D,
    reading: Reading,
    at: At,
    out: &mut [u32; MOST_COORDINATES],
) -> usize
    requires counted { 0 < reading.indices → IsCounted (D.means source.now) reading.pairs at.place }
    ensures few { result ≤ 4 }
    ensures place { 0 < reading.indices → take result out.new ≡ counted_at (D.means source.now) reading.pairs at.place at.pair }
{
    if reading.indices == 0 {
        return 0;
    }
    if reading.pairs {
        out[0] = at.place;
        out[1] = at.pair;
        return 2;
    }
    let sizes = source.over().sizes();
    write_coordinates(sizes, at.place, &mut out[..sizes.len()]);
    sizes.len()
}

/// Writes the coordinates of a row-major index.
fn write_coordinates(sizes: &[u32], index: u32, out: &mut [u32])
    requires inside { index < cells_of sizes.now }
    requires bounded { cells_of sizes.now ≤ 2 ^ 24 }
    requires count { length out.old ≡ length sizes.now }
    ensures { out.new ≡ coordinates_of sizes.now index }
{
    match sizes {
        [] => {}
        [_] => out[0] = index,
        [_, rest @ ..] => {
            let below = product(rest);
            let (first, others) = out.split_at_mut(1);
            first[0] = index / below;
            write_coordinates(rest, index % below, others);
        }
    }
}

/// The number of cells of a container with these sizes, where it has some.
fn product(sizes: &[u32]) -> u32
    requires some { 0 < cells_of sizes.now }
    requires bounded { cells_of sizes.now ≤ 2 ^ 24 }
    ensures { result ≡ cells_of sizes.now }
{
    match sizes {
        [] => 1,
        [first, rest @ ..] => *first * product(rest),
    }
}

/// A coordinate of a place, by its name.
#[inline]
pub fn coordinate(place: &[u32], name: &[u8]) -> Cell
    requires { HasField place.now name.now }
    ensures { result ≡ field_of (Place place.now) name.now }
{
    Cell::from(place[axis_of(name)])
}

/// Which coordinate has a name, by its first letter.
#[inline]
fn axis_of(name: &[u8]) -> usize
    ensures { result ≡ axis_of name.now }
{
    let Some(letter) = name.first() else {
        return 3;
    };
    if *letter == b'i' || *letter == b'r' {
        0
    } else if *letter == b'j' || *letter == b'c' {
        1
    } else if *letter == b'k' {
        2
    } else {
        3
    }
}
