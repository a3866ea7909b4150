//! Messages in flight between the copies of stores: each has a number, and carries the cells of a range of a store to a
//! copy.
//!
//! - `slots`: one message, with the place of its cells.
//! - `messages`: messages by number.
#![tactic(auto)]

mod messages;
mod slots;

pub use messages::Messages;
pub use slots::Sent;
