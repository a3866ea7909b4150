//! The rank machine: messages between memories and jobs on them, of which each waits for others, stepped one act at a time
//! in an order that the caller chooses.
//!
//! - `plan`: the messages and jobs of a phase.
//! - `act`: what a step does.
//! - `number_set`: a set of numbers in which the k-th smallest is found in logarithmic time.
//! - `followers`: who waits for each message or job.
//! - `sends`: the messages that may be sent.
//! - `runs`: the jobs that may run, and what each other job still lacks.
//! - `order`: whether messages and jobs can be a phase.
//! - `phase`: a phase and its steps.
#![tactic(auto)]

mod act;
mod followers;
mod number_set;
mod order;
mod phase;
mod plan;
mod runs;
mod sends;

pub use act::Act;
pub use order::is_plan;
pub use phase::{Memory, RankPhase};
pub use plan::{Job, Message};
