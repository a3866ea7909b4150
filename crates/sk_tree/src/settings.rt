ghost use Rattle.std.specs.Prelude.{◌≡◌};
ghost use Rattle.sk_tree.specs.InstanceSettings.{default_settings};

use sk_base::{Cell, EdgeMode};

/// The settings of a skeleton instance. An overlap is a number of elements to each side, by rows and by columns; a region
/// of one dimension goes by the first.
#[derive(Clone, Copy, PartialEq, Eq, Debug)]
pub struct Settings {
    /// The start value of folds, of the operator's type.
    pub start: Option<Cell>,
    /// Whether a Scan is exclusive.
    pub exclusive: bool,
    /// Whether folds of lines go by columns.
    pub columns: bool,
    pub overlap: (u32, u32),
    pub edge: EdgeMode,
    /// What stands outside of a container at the edge mode Pad, of the type of the region's elements.
    pub pad: Cell,
}

impl Settings {
    /// The settings of an instance that sets none: no start value, inclusive, by rows, no overlap, the nearest element
    /// outside, and pad 0.
    pub fn new() -> Settings
        ensures { result ≡ default_settings }
    {
        Settings {
            start: None,
            exclusive: false,
            columns: false,
            overlap: (0, 0),
            edge: EdgeMode::Duplicate,
            pad: 0,
        }
    }
}
