use crate::cells::Cells;
use sk_base::Shape;
use sk_names::{Name, Text};

/// What the text gives an input: its name, its shape, and as many cells.
#[derive(Debug, Drop)]
pub struct Given {
    pub name: Text,
    pub shape: Shape,
    pub cells: Cells,
}

/// A container that is written: its name, its shape, and as many cells.
#[derive(Debug, Drop)]
pub struct Dumped {
    pub name: Name,
    pub shape: Shape,
    pub cells: Cells,
}
