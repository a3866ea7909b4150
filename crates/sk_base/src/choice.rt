/// How a stencil reads places outside its container (SkePU's `Edge`).
#[derive(Clone, Copy, PartialEq, Eq, Debug)]
pub enum EdgeMode {
    /// The nearest element.
    Duplicate,
    /// The element that many places on, going round.
    Cyclic,
    /// The pad value.
    Pad,
}

/// How a skeleton call is run (SkePU's back end).
#[derive(Clone, Copy, PartialEq, Eq, Debug)]
pub enum Variant {
    Sequential,
    Chunked,
    Cluster,
    Lanes,
}
