//! Runs compiled main on a stack in a buffer, slots, live containers and a sink.
//!
//! - `run`: runs of whole programs.
//! - `outcome`: how a run ends.
//! - `turn`: what each instruction of main does.
//! - `act`: those that neither print nor count.
//! - `loaded`: a compiled program that is ready to run.
//! - `machine`: where a run stands, and values that stand on one another in a buffer.
//! - `room`: the room that a run takes at its start.
//! - `calls`: calls of functions from expressions.
//! - `containers`: instructions that make, read, write and end containers.
//! - `held`: a live container.
//! - `map_calls`: call statements of Maps.
//! - `maps`: what a Map computes.
//! - `passed`: what calls are given.
//! - `printing`: what main prints.
//! - `spare`: a buffer of cells that no container has.
//! - `sizes`: sizes of containers by the names of their methods.
//! - `values`: instructions that main and functions share.
//! - `workspace`: what functions and Maps are computed with.
#![tactic(auto)]

mod act;
mod calls;
mod containers;
mod held;
mod loaded;
mod machine;
mod map_calls;
mod maps;
mod outcome;
mod passed;
mod printing;
mod room;
mod run;
mod sizes;
mod spare;
mod turn;
mod values;
mod workspace;

pub use outcome::Outcome;
pub use run::execute;
