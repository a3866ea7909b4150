//! Rows of the text of traces that were worked out by hand, as data: the file `stdin` is a table of texts, and the file
//! `stdout` has what is to be told of each.
//!
//! A line of the table is one of these. How a text is written stands in `sk_tables`.
//!
//! - `step LINE`: a line behind the first one. The step that it is the line of is printed, and the line behind it.
//! - `line LINE`: the same, but it is only told whether it has a reading.
//! - `text TEXT`: a whole text. The number of its steps is printed, or its first line without a reading.
//! - `cut TEXT`: a whole text, cut behind each of its bytes. What is told of the cuts is printed in their order, each with
//!   the number of the cuts in a row of which it is told.
//! - Anything else is a heading, which is printed as it is.
//!
//! - `table`: lines of the table.
//! - `answers`: what comes of a text.
#![tactic(auto)]

mod answers;
mod table;

use sk_tables::print_told;
use std::io;
use table::Traces;

fn main(rt: HostRuntime) -> io::Result<()> {
    print_told(&rt, &mut Traces)
}
