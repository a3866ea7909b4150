//! The words that lines of text are made of, and what puts them at the end of a text.
//!
//! - `numbers`: decimal numbers, with and without a sign, alone and in lists.
//! - `kinds`: the words for types and for kinds of containers.
//! - `names`: words with a blank in front, and names with commas between.
//! - `texts`: texts between quotes.
//!
//! That each of these words reads back is stated in `proofs/ReadBack.antt`.
#![tactic(auto)]

mod kinds;
mod names;
mod numbers;
mod texts;

pub use kinds::{kind_name, type_name};
pub use names::{put_names, put_word};
pub use numbers::{put_decimal, put_decimals, put_signed, put_signed_list};
pub use texts::{put_escaped, put_quoted};
