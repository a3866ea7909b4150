//! The laws that what the reading refuses of a list of tokens is the fault of the list, by the definition of faults.
//!
//! - `proofs/Local` and its kin, up to `proofs/Programs`: two lists that part behind a token are read alike up to there.
//! - `proofs/Refused`: by the law of `sk_reading_complete_laws` that a program is read up to its first mark that exceeds a limit,
//!   what is refused of a list is refused of each program that goes on so.
//! - `proofs/viable`: the tokens up to where the reading stops can be completed to a program.
//! - `proofs/Fault`: the law. `proofs/OneFault`: that a list has no other fault, and a program none.
#![tactic(auto)]

mod laws;

pub use laws::{a_list_has_one_fault, a_program_has_no_fault, what_is_refused_is_the_fault};
