//! A live container.
ghost use Rattle.std.specs.Prelude.{◌≡◌, length, IfOk};
ghost use Rattle.sk_base.specs.Shape.{cells_of};
ghost use Rattle.sk_host.specs.Stores.{IsPoked, element_of, made_of};

use sk_base::{Cell, Shape, Ty, convert, flat};
use std::alloc::{AllocError, Global};
use std::marker::Model;
use std::mem;

/// A container of main that is there: the type of its elements, its shape, and its cells in row-major order.
#[derive(Debug, Drop)]
pub struct Held {
    ty: Ty,
    shape: Shape,
    cells: Vec<Cell>,
}

impl Model for Held {
    ghost use Rattle.std.specs.Prelude.{◌≡◌, length};
    ghost use Rattle.sk_base.specs.Shape.{IsShape, cells_of};
    ghost use Rattle.sk_host.specs.Stores.{Kept};

    ghost Value = { Kept };

    ghost view = { λ h. record { ty = h.ty; sizes = h.shape; cells = h.cells.items } };

    ghost invariant = { λ h. length h.cells.items ≡ cells_of h.shape };
}

impl Held {
    /// A container with these sizes and a cell everywhere; none where the sizes are no shape.
    pub fn new(
        alloc: Global,
        ty: Ty,
        sizes: &[Cell],
        fill: Cell,
    ) -> Result<Option<Held>, AllocError>
        ensures { IfOk result (λ made. made ≡ made_of ty sizes.now fill) }
    {
        let Some(shape) = Shape::new(alloc, sizes) else {
            return Ok(None);
        };
        let cells = vec![in alloc; convert(ty, fill); shape.cells() as usize]?;
        Ok(Some(Held { ty, shape, cells }))
    }

    /// The element at a place, where there is one.
    pub fn element(&self, place: &[Cell]) -> Option<Cell>
        ensures { result ≡ element_of self.now place.now }
    {
        match flat(&self.shape, place) {
            Some(index) => Some(self.cells.as_slice()[index as usize]),
            None => None,
        }
    }

    /// Writes the element at a place, and tells whether there is one.
    pub fn poke(&mut self, place: &[Cell], value: Cell) -> bool
        ensures { IsPoked self.old place.now value result self.new }
    {
        match flat(&self.shape, place) {
            Some(index) => {
                let cell = convert(self.ty, value);
                self.cells.as_mut_slice()[index as usize] = cell;
                true
            }
            None => false,
        }
    }

    /// The sizes of the container.
    #[inline]
    pub fn shape(&self) -> &Shape
        ensures { result.now ≡ self.now.sizes }
    {
        &self.shape
    }

    /// All cells, in row-major order.
    #[inline]
    pub fn cells(&self) -> &[Cell]
        ensures cells { result.now ≡ self.now.cells }
        ensures count { length result.now ≡ cells_of self.now.sizes }
    {
        self.cells.as_slice()
    }

    /// Gives the container new cells, and takes those out that it had.
    pub fn fill(&mut self, cells: Vec<Cell>) -> Vec<Cell>
        requires { length cells.items ≡ length self.old.cells }
        ensures now { self.new ≡ record self.old { cells = cells.items } }
        ensures before { result.items ≡ self.old.cells }
    {
        mem::replace(&mut self.cells, cells)
    }

    /// The cells of a container that ends.
    pub fn into_cells(self) -> Vec<Cell>
        ensures { result.items ≡ self.cells }
    {
        let Held { cells, .. } = self;
        cells
    }
}
