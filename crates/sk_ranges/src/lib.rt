//! Which indices of a copy may be read: the state of each index, kept as ranges of equal state.
//!
//! - `state`: the three states of an index.
//! - `pieces`: sorted pieces of equal state, and what they say of an index.
//! - `change`: a range of them is given one state.
//! - `filling`: what is stale in a range of them becomes valid.
//! - `states`: the states of all indices of a copy.
#![tactic(auto)]

mod change;
mod filling;
mod pieces;
mod state;
mod states;

pub use pieces::Run;
pub use state::State;
pub use states::{Memory, States};
