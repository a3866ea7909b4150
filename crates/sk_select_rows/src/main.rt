//! Rows of tuning tables that were worked out by hand, as data: the file `stdin` is a table of texts and of calls, and the
//! file `stdout` has what is to be told of each. What the lines of `stdin` are stands in `sk_tables`.
//!
//! What may be asked:
//!
//! - `table`: what a text says as a tuning table.
//! - `nothing`: what holds without a tuning table; the row's text is not read.
//! - `choice`: what is chosen for a call, by the tuning table that stands around.
//!
//! The modules:
//!
//! - `answers`: what is told of a row.
//! - `tables`: what is told of a text.
//! - `calls`: what is chosen for a call.
#![tactic(auto)]

mod answers;
mod calls;
mod tables;

use answers::Selection;
use sk_tables::print_answers;
use std::io;

fn main(rt: HostRuntime) -> io::Result<()> {
    print_answers(&rt, &mut Selection)
}
