//! Rows of inputs and dumps that were worked out by hand, as data: the file `stdin` is a table of texts and containers, and
//! the file `stdout` has what is to be told of each.
//!
//! A line of the table is one of these. How a text and a name are written stands in `sk_tables`.
//!
//! - `inputs NAME KIND TYPE, NAME KIND TYPE ..`: the inputs that are declared for the rows that follow.
//! - `row TEXT`: a row. What the inputs are given is printed, or the fault, and the text behind it.
//! - `container NAME TYPE SHAPE CELL CELL ..`: one more container for the dump that follows.
//! - `dump`: the text of these containers is printed, and what it gives read as input. Then they are forgotten.
//! - Anything else is a heading, which is printed as it is.
//!
//! - `lines`: inputs and containers as words.
//! - `table`: lines of the table.
//! - `distinct`: whether inputs have names of their own.
//! - `answers`: what comes of a text, and of containers.
#![tactic(auto)]

mod answers;
mod distinct;
mod lines;
mod table;

use sk_tables::print_told;
use std::io;
use table::Table;

fn main(rt: HostRuntime) -> io::Result<()> {
    let mut table = Table::new(rt.alloc());
    print_told(&rt, &mut table)
}
