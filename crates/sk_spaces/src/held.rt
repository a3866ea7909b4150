//! The cells of one block.
ghost use Rattle.std.specs.Prelude.{◌≡◌, ◌+◌, ◌-◌, ◌≤◌, [], length, slice_index};
ghost use Rattle.sk_spaces.specs.Blocks.{IsWhole, Reaches, overwritten, written, cells_at, cell_of};

use sk_base::{Cell, Range};
use std::alloc::Global;
use std::marker::Model;
use std::mem;

/// The cells of a range of a store, in one space.
#[derive(Drop)]
pub struct Held {
    store: u64,
    space: u32,
    range: Range,
    cells: Vec<Cell>,
}

impl Model for Held {
    ghost use Rattle.sk_spaces.specs.Blocks.{BlockView};

    ghost Value = { BlockView };

    ghost view = { λ held. record {
      store = held.store;
      space = held.space;
      lo = held.range.lo;
      hi = held.range.hi;
      cells = held.cells.items;
    } };
}

impl Held {
    /// A block with these cells.
    pub fn new(store: u64, space: u32, range: Range, cells: Vec<Cell>) -> Held
        ensures { result ≡ record {
          store = store;
          space = space;
          lo = range.lo;
          hi = range.hi;
          cells = cells.items;
        } }
    {
        Held {
            store,
            space,
            range,
            cells,
        }
    }

    /// The number of the space.
    pub fn space(&self) -> u32
        ensures { result ≡ self.now.space }
    {
        self.space
    }

    /// The first index.
    pub fn lo(&self) -> u32
        ensures { result ≡ self.now.lo }
    {
        self.range.lo
    }

    /// The number of cells.
    pub fn len(&self) -> u32
        ensures { self.now.lo + result ≡ self.now.hi }
    {
        self.range.len()
    }

    /// The cells in order.
    pub fn cells(&self) -> &[Cell]
        ensures { result.now ≡ self.now.cells }
    {
        &self.cells
    }

    /// The cell of an index.
    pub fn cell(&self, index: u32) -> Cell
        requires whole { IsWhole self.now }
        requires inside { Reaches index (index + 1) self.now }
        ensures { result ≡ cell_of self.now index }
    {
        self.cells[(index - self.range.lo) as usize]
    }

    /// The cells of a range of its indices.
    pub fn part(&self, range: Range) -> &[Cell]
        requires whole { IsWhole self.now }
        requires inside { Reaches range.lo range.hi self.now }
        ensures { result.now ≡ cells_at self.now range.lo range.hi }
    {
        let from = (range.lo - self.range.lo) as usize;
        let to = (range.hi - self.range.lo) as usize;
        &self.cells[from..to]
    }

    /// Puts cells in the place of those from an index on.
    pub fn write(&mut self, lo: u32, cells: &[Cell])
        requires whole { IsWhole self.old }
        requires inside { Reaches lo (lo + length cells.now) self.old }
        ensures { self.new ≡ written lo cells.now self.old }
    {
        let at = (lo - self.range.lo) as usize;
        overwrite(&mut self.cells, at, cells);
    }

    /// Takes the cells out.
    pub fn take_cells(&mut self, alloc: Global) -> Vec<Cell>
        ensures taken { result.items ≡ self.old.cells }
        ensures left { self.new ≡ record self.old { cells = [] } }
    {
        mem::replace(&mut self.cells, Vec::new(alloc))
    }

    /// Puts all cells in.
    pub fn give_cells(&mut self, cells: Vec<Cell>)
        ensures { self.new ≡ record self.old { cells = cells.items } }
    {
        self.cells = cells;
    }
}

/// Puts cells in the place of those from a place on.
pub fn overwrite(all: &mut [Cell], at: usize, cells: &[Cell])
    requires { at + length cells.now ≤ length all.old }
    ensures { all.new ≡ overwritten all.old at cells.now }
{
    let (_, rest) = all.split_at_mut(at);
    let (place, _) = rest.split_at_mut(cells.len());
    place.copy_from_slice(cells);
}
