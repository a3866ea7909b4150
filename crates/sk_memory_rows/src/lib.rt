//! Rows of the memories of a run: what their calls answer where memory is ample, and what is noted of them.
//!
//! - `spaces`: blocks of cells in the spaces of the host and of the ranks.
//! - `journals`: the two journals.
#![tactic(auto)]

#[cfg(test)]
mod journals;
#[cfg(test)]
mod spaces;
