//! The memories of a run, and the journal of what happens in them: one step for each line of a trace.
//!
//! - `shared`: lists that several steps share.
//! - `step`, `again`: the steps of a trace, and a step once more.
//! - `totals`, `count`: what is counted of the steps.
//! - `journal`: what takes the steps of a run.
//! - `kept`, `counted`: journals that keep the steps, and the totals alone.
//! - `held`, `blocks`: a block of cells, and blocks by number.
//! - `memories`: the spaces of the host and of the ranks.
//! - `spaces`: the same with the journal.
//! - `memory`, `faults`: want of memory, and why no block is made.
#![tactic(auto)]

mod again;
mod blocks;
mod count;
mod counted;
mod faults;
mod held;
mod journal;
mod kept;
mod memories;
mod memory;
mod shared;
mod spaces;
mod step;
mod totals;

pub use counted::Counted;
pub use faults::SpaceFault;
pub use journal::Journal;
pub use kept::Kept;
pub use memory::Memory;
pub use shared::{Cells, Numbers, Shared};
pub use spaces::{Block, Spaces, Unmade};
pub use step::{CallMode, CallSettings, KernelKind, Step};
pub use totals::Totals;
