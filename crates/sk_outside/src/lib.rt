//! Files and sinks: what the program reads and writes, as two traits that say what an object of the outside holds
//! and how often its calls have failed. Code that is generic over them can show where each fault came from.
//!
//! - `answers`: why a call gives up.
//! - `files`: files by name, read and written whole.
//! - `sink`: a stream that takes bytes piece by piece.
//! - `fault_log`: the count of faults, and the name beside it.
//! - `memory_files`, `memory_sink`: objects in memory, which tell what they hold and fail on order.
//! - `host_files`, `host_stream`: the files and streams of the system. They are the trusted edge: what they really
//!   read and write is in no contract.
#![tactic(auto)]

mod answers;
mod fault_log;
mod files;
mod host_files;
mod host_stream;
mod memory_files;
mod memory_sink;
mod sink;

pub use answers::{FileAnswer, WriteAnswer};
pub use files::Files;
pub use host_files::HostFiles;
pub use host_stream::{HostErr, HostOut};
pub use memory_files::{MemFiles, names_differ};
pub use memory_sink::MemSink;
pub use sink::Sink;
