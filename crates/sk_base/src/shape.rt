ghost use Rattle.std.specs.Prelude.{◌≡◌, ◌+◌, ◌^◌, ◌≤◌, ◌↔◌, min, map, IsTrue, IfSome, unsigned_abs};
ghost use Rattle.sk_base.specs.Shape.{IsShape, AreSizes, cells_of, shape_of, flat_of};

use smallvec::SmallVec;
use std::alloc::Global;
use std::marker::Model;

/// The most cells that a container may have, which is also the largest size.
pub const MOST_CELLS: u32 = 1 << 24;

/// The sizes of a container, one to four of them, which contracts see as their list.
#[derive(Debug, Drop)]
pub struct Shape {
    sizes: SmallVec<u32, 4>,
}

impl Model for Shape {
    ghost use Rattle.std.specs.Prelude.{◌≡◌, ℕ, List};
    ghost use Rattle.sk_base.specs.Shape.{IsShape};

    ghost Value = { List ℕ };

    ghost view = { λ s. s.sizes.items };

    ghost invariant = { λ s. IsShape s.sizes.items × (s.sizes.capacity ≡ 4) };
}

impl Shape {
    /// The shape with these sizes, or none where there are not one to four of them, one is negative or above
    /// `MOST_CELLS`, or their product is above it.
    ///
    /// The allocator is kept, and asked for nothing.
    pub fn new(alloc: Global, sizes: &[i64]) -> Option<Shape>
        ensures value { result ≡ shape_of sizes.now }
        ensures shape { IfSome result (λ shape. IsShape shape) }
    {
        if !are_sizes(sizes) {
            return None;
        }
        let sizes = numbers(alloc, sizes);
        if bounded_product(sizes.as_slice()) > MOST_CELLS {
            return None;
        }
        Some(Shape { sizes })
    }

    /// The sizes, the outermost first.
    pub fn sizes(&self) -> &[u32]
        ensures value { result.now ≡ self.now }
        ensures shape { IsShape self.now }
    {
        self.sizes.as_slice()
    }

    /// The number of cells: the product of the sizes.
    pub fn cells(&self) -> u32
        ensures value { result ≡ cells_of self.now }
        ensures bounded { result ≤ 2 ^ 24 }
    {
        bounded_product(self.sizes())
    }

    /// The same shape once more, without taking memory.
    pub fn again(&self) -> Shape
        ensures { result ≡ self.now }
    {
        let sizes = SmallVec::from_slice(*self.sizes.allocator(), self.sizes.as_slice()).unwrap();
        Shape { sizes }
    }
}

/// Shapes are equal where they have the same sizes in the same order.
impl PartialEq for Shape {
    ghost use Rattle.std.specs.Prelude.{◌≡◌, ◌==◌, ◌↔◌, IsTrue};
    ghost use Rattle.std.specs.Cmp.Lexicographic.{pointwise};
    ghost use Rattle.std.proofs.Common.{rules};
    ghost use Rattle.std.specs.Cmp.Rules.{comparing};

    ghost eq = { pointwise ◌==◌ };

    ghost laws = { Prim.search (comparing, rules) };

    fn eq(&self, other: &Shape) -> bool
        ensures value { result ≡ pointwise ◌==◌ self.now other.now }
        ensures same { IsTrue result ↔ (self.now ≡ other.now) }
    {
        self.sizes() == other.sizes()
    }
}

impl Eq for Shape {
    ghost use Rattle.std.proofs.Common.{rules};
    ghost use Rattle.std.specs.Cmp.Rules.{comparing};

    ghost laws = { Prim.search (comparing, rules) };
}

/// Whether there are one to four sizes from 0 to `MOST_CELLS`, whatever their product.
fn are_sizes(sizes: &[i64]) -> bool
    ensures { IsTrue result ↔ AreSizes sizes.now }
{
    (1..=4).contains(&sizes.len())
        && sizes
            .iter()
            .all(|size| (0..=i64::from(MOST_CELLS)).contains(size))
}

/// The sizes as unsigned numbers. They fit in place, so no memory is taken.
fn numbers(alloc: Global, sizes: &[i64]) -> SmallVec<u32, 4>
    requires { AreSizes sizes.now }
    ensures items { result.items ≡ map unsigned_abs sizes.now }
    ensures inline { result.capacity ≡ 4 }
{
    let mut list = SmallVec::new(alloc);
    for &size in sizes {
        list.push_reserved(size as u32);
    }
    list
}

/// The product, or one more than the most cells where it is larger: a size of 0 may still follow large ones.
fn bounded_product(sizes: &[u32]) -> u32
    ensures { result ≡ min (cells_of sizes.now) (2 ^ 24 + 1) }
{
    let mut product: u64 = 1;
    for &size in sizes {
        product = (product * u64::from(size)).min(u64::from(MOST_CELLS) + 1);
    }
    product as u32
}

/// The row-major index of a place, or none where the place has another number of coordinates than the shape has sizes,
/// or a coordinate is not below its size.
pub fn flat(shape: &Shape, place: &[i64]) -> Option<u32>
    ensures { result ≡ flat_of shape.now place.now }
{
    let sizes = shape.sizes();
    if place.len() != sizes.len() {
        return None;
    }
    let mut index: u32 = 0;
    for (axis, &size) in sizes.iter().enumerate() {
        let at = place[axis];
        if at < 0 || at >= i64::from(size) {
            return None;
        }
        // A product wraps only where a later size is 0, and then there is no place.
        index = index.wrapping_mul(size).wrapping_add(at as u32);
    }
    Some(index)
}
