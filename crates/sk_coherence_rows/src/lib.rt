//! Rows of the directory of copies, played by hand: which steps are noted, and what its calls answer where memory is ample.
//!
//! - `plays`: whole vectors that are opened, written and read.
//! - `evictions`: copies that give way on a rank.
//! - `halos`: what is left to messages.
//! - `lives`: what is retired and closed.
//! - `messages`: what is sent and delivered.
#![tactic(auto)]

#[cfg(test)]
mod evictions;
#[cfg(test)]
mod halos;
#[cfg(test)]
mod lives;
#[cfg(test)]
mod messages;
#[cfg(test)]
mod plays;
