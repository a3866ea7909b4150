//! The machine that runs compiled functions.
//!
//! - `coded`: an instance as a kernel, with a frame of its own.
//! - `sharing`: an instance as a kernel, over a frame that serves all functions of the program in turns.
//! - `instance`: an instance, to be run in a frame that has room for its functions.
//! - `frame`: room to run a function, made once and used for every run.
//! - `lent`: parameters at places one behind another, for runs of blocks of places.
//! - `entry`: a function that may be run.
//! - `place`: the coordinates of the place that an index is given.
//! - `surroundings`: what a function is given for its parameters that are no scalars.
//! - `start`: a function with its arguments.
//! - `run`: the run of a function from its first address to its end.
//! - `step`: what one instruction does.
//! - `stack`: values that stand on one another in a buffer.
//! - `rooms`: how much room functions take with their calls.
//! - `parts`: what is read of a compiled program.
//!
//! A run takes no memory. No test is made at run time for what sound code always has: operands, slots and targets.
#![tactic(auto)]

mod coded;
mod entry;
mod frame;
mod instance;
mod lent;
mod parts;
mod place;
mod rooms;
mod run;
mod sharing;
mod stack;
mod start;
mod step;
mod surroundings;

pub use coded::Coded;
pub use frame::Frame;
pub use rooms::Rooms;
pub use sharing::Sharing;
