//! Tables of rows: what the programs of rows read on their standard input. A line of a table is one of these:
//!
//! - `ask WORDS`: what is asked of the rows that follow.
//! - `frame`: the rows that follow stand alone. `before TEXT` and `after TEXT` add to the texts that they stand between.
//!   `answer-before TEXT` and `answer-after TEXT` add to the texts that their answers stand between, which are not printed.
//! - `times NUMBER`: how often the repeated parts of the texts that follow stand.
//! - `wanted TEXT`: the answer that the next row has to have. It is printed as `as wanted`.
//! - `row TEXT`: a row. Its answer is printed, and the text behind it.
//! - Anything else is a heading, which is printed as it is.
//!
//! A program whose lines mean something else says by `Teller` what is to be printed for each.
//!
//! In a text `\n`, `\t`, `\r` and `\s` stand for the ends of lines, the tab and the blank, `\d` for the byte 127, `\f` for
//! the byte 255, which is in no text, and `\x` with two digits of base 16 for the byte of that number; a part in `\{` and
//! `\}` is repeated; and any other character behind `\` stands for itself. Answers are printed in the same way.
//!
//! - `lines`: the lines that a program of rows reads.
//! - `table`: the lines of a table of rows.
//! - `texts`: the texts in them.
//! - `shown`: how bytes are printed.
#![tactic(auto)]

mod lines;
mod shown;
mod table;
mod texts;

pub use lines::{Teller, print_told};
pub use shown::{characters, push_bytes};
pub use table::{Answers, Row, print_answers};
pub use texts::{bytes_of, word_of};
