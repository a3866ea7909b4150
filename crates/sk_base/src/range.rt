ghost use Rattle.std.specs.Prelude.{◌≡◌, ◌+◌, ◌<◌, ◌≤◌, ◌↔◌, IsTrue};

/// The indices from `lo` up to but not including `hi`.
#[derive(Clone, Copy, PartialEq, Eq, Debug)]
pub struct Range {
    pub lo: u32,
    pub hi: u32,
    pub ghost ordered: { lo ≤ hi },
}

impl Range {
    /// The number of indices.
    pub fn len(&self) -> u32
        ensures { self.now.lo + result ≡ self.now.hi }
    {
        self.hi - self.lo
    }

    /// Whether there is no index.
    pub fn is_empty(&self) -> bool
        ensures { IsTrue result ↔ (self.now.lo ≡ self.now.hi) }
    {
        self.lo == self.hi
    }

    /// Whether the index is one of these.
    pub fn contains(&self, index: u32) -> bool
        ensures { IsTrue result ↔ ((self.now.lo ≤ index) × (index < self.now.hi)) }
    {
        self.lo <= index && index < self.hi
    }
}
