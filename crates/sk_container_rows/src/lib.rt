//! Rows of smart containers: what their calls answer where memory is ample, and which steps are noted of them.
//!
//! - `run`: a directory whose steps are kept, as text.
//! - `elements`: containers that are made, read and written.
#![tactic(auto)]

#[cfg(test)]
mod elements;
#[cfg(test)]
mod run;
