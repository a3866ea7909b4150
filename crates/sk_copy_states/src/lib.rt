//! The copies of stores and the stores, by number: which indices of a copy may be read and which it owns, how often it is
//! pinned, and which copies a store has.
//!
//! - `held`: the states of one copy.
//! - `copies`: copies by number.
//! - `store`, `stores`: one store, and stores by number.
//! - `owners`: whether copies own something.
//! - `sources`: from which copy cells come.
//! - `room`: what takes room in a space, and what may give way.
//! - `entries`: a copy in the lists of both.
#![tactic(auto)]

pub mod copies;
pub mod entries;
pub mod held;
pub mod owners;
pub mod room;
pub mod sources;
pub mod store;
pub mod stores;
