ghost use Rattle.std.specs.Prelude.{◌≡◌, ◌<◌};
ghost use Rattle.sk_parts.specs.Edge.{edge_of, IsWithin};

use sk_base::EdgeMode;

/// Where a read at an index takes its value from.
#[derive(Clone, Copy, PartialEq, Eq, Debug)]
pub enum EdgePlace {
    /// The element at this index.
    At(u32),
    /// The pad value.
    Pad,
}

/// Where a read at index `i` of `n` elements takes its value from, for every `i`. An index inside costs two comparisons.
pub fn edge(mode: EdgeMode, n: u32, i: i64) -> EdgePlace
    requires { 0 < n }
    ensures value { result ≡ edge_of mode n i }
    ensures within { IsWithin n result }
{
    if 0 <= i && i < i64::from(n) {
        return EdgePlace::At(i as u32);
    }
    match mode {
        EdgeMode::Duplicate if i < 0 => EdgePlace::At(0),
        EdgeMode::Duplicate => EdgePlace::At(n - 1),
        EdgeMode::Cyclic => EdgePlace::At(i.rem_euclid(i64::from(n)) as u32),
        EdgeMode::Pad => EdgePlace::Pad,
    }
}
