//! From tokens to programs.
//!
//! - `program`: the one public call, and the law that what it gives is the only reading.
//!
//! The code stands in `sk_reader`, which reads as the definitions of `sk_reading` do; that these are the spellings of the
//! grammar within the limits, and that what they refuse is the fault of the list, is shown in crates of laws. Here they meet.
#![tactic(auto)]

mod program;

pub use program::parse;
pub use sk_reader::{Limited, ParseFault};
pub use sk_reading_complete_laws::reads_as_one_program;
pub use sk_refusal_laws::{a_list_has_one_fault, a_program_has_no_fault};
