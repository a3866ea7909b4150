//! A buffer of cells that no container has.
ghost use Rattle.std.specs.Prelude.{◌≡◌, length, None, Some, Ok, IfOk, IfSome};
ghost use Rattle.std.specs.Option.{option_or};

use sk_base::Cell;
use std::alloc::{AllocError, Global};

/// At most one buffer of cells that no container has, for the next result of as many cells.
#[derive(Drop)]
pub struct Spare {
    cells: Option<Vec<Cell>>,
}

impl Spare {
    /// No buffer yet.
    pub fn new() -> Spare
        ensures { result.cells ≡ None }
    {
        Spare { cells: None }
    }

    /// So many cells, of any values: those of the buffer where it has as many, else new ones. The buffer goes in both cases.
    pub fn take(&mut self, alloc: Global, count: usize) -> Result<Vec<Cell>, AllocError>
        ensures count { IfOk result (λ cells. length cells.items ≡ count) }
        ensures kept { IfSome self.old.cells (λ kept. length kept.items ≡ count → result ≡ Ok kept) }
        ensures gone { self.new.cells ≡ None }
    {
        if let Some(cells) = self.cells.take() {
            if cells.len() == count {
                return Ok(cells);
            }
        }
        vec![in alloc; 0; count]
    }

    /// Keeps cells that a container or a trap left, where there is no buffer.
    pub fn keep(&mut self, cells: Vec<Cell>)
        ensures { self.new.cells ≡ option_or self.old.cells (Some cells) }
    {
        if self.cells.is_none() {
            self.cells = Some(cells);
        }
    }
}
