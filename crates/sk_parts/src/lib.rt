//! Parts, edges and choices, on which everything about parts and copies stands.
//!
//! - `cuts`: the cut of indices into consecutive parts.
//! - `edges`: where a stencil reads an index outside its container.
//! - `choosers`: who takes the next of several things that may be done in any order.
#![tactic(auto)]

mod choosers;
mod cuts;
mod edges;

pub use choosers::{Chooser, Listed, Seeded};
pub use cuts::{cut, cut_covers};
pub use edges::{EdgePlace, edge};
