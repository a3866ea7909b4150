//! Rows that were worked out by hand, over functions of an index that the machine runs at places one behind another.
//!
//! - `indexed`: two functions of an index and an int, as compiled code.
//! - `places`: a function, run at so many places.
//! - `rows`: lengths, with the values or the trap that is wanted.
#![tactic(auto)]

#[cfg(test)]
mod indexed;
#[cfg(test)]
mod places;
#[cfg(test)]
mod rows;
