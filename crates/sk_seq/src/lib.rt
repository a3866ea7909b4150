//! Skeletons over one memory, one unit after another.
//!
//! - `trapped`: a trap, with the element at which it stands.
//! - `elements`: skeletons that give an element of the result for each place.
//! - `joining`: how two cells of a fold are joined.
//! - `operands`: what a fold goes over, block by block.
//! - `folds`: folds of operands one behind another.
//! - `line_folds`: folds of lines, each by itself.
//! - `lines`: skeletons that fold rows or columns.
//! - `pairs`: the function's values at pairs of places.
//! - `reductions`: skeletons that fold all to a number.
//! - `scans`: the folds up to each element, or before each.
#![tactic(auto)]

mod elements;
mod folds;
mod joining;
mod line_folds;
mod lines;
mod operands;
mod pairs;
mod reductions;
mod scans;
mod trapped;

pub use elements::{call, map, map_overlap};
pub use joining::Joining;
pub use lines::{map_pairs_reduce, reduce_lines};
pub use pairs::map_pairs;
pub use reductions::{map_reduce, reduce};
pub use scans::scan;
pub use trapped::Trapped;
