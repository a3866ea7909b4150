//! A directory of the copies of stores: where each index of a store has its cell, and how cells come to where they are
//! used.
//!
//! - `directory`: the directory.
//! - `faults`: why no copy is acquired.
#![tactic(auto)]

mod directory;
mod faults;

pub use directory::Directory;
pub use faults::AcquireFault;
pub use sk_copies::{CopyId, StoreId, Transfer};
pub use sk_spaces::Memory;
