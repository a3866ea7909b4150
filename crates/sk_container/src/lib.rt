//! The smart container: a shape and a list of cells, which lie in the copies of a store wherever a directory keeps them.
//!
//! - `smart`: the container, and its elements.
//! - `made`: new containers.
//! - `host`: cells of a store on the host.
//! - `faults`: why a container is not made, or an element is not reached.
#![tactic(auto)]

mod faults;
mod host;
mod made;
mod smart;

pub use faults::{ContainerFault, PlaceFault};
pub use smart::Smart;
