ghost use Rattle.std.specs.Prelude.{◌≡◌, ℤ, List};

use sk_base::Cell;
use std::marker::Model;

/// The cells of a container in row-major order, which contracts see as their list.
#[derive(Debug, Drop)]
pub struct Cells {
    cells: Vec<Cell>,
}

impl Model for Cells {
    ghost Value = { List ℤ };

    ghost view = { λ c. c.cells.items };
}

impl Cells {
    /// These cells. It takes no memory.
    pub fn from_vec(cells: Vec<Cell>) -> Cells
        ensures { result ≡ cells.items }
    {
        Cells { cells }
    }

    /// The list that they were made from. It takes no memory.
    pub fn into_vec(self) -> Vec<Cell>
        ensures { result.items ≡ self }
    {
        let Cells { cells } = self;
        cells
    }

    pub fn as_slice(&self) -> &[Cell]
        ensures { result.now ≡ self.now }
    {
        self.cells.as_slice()
    }
}
