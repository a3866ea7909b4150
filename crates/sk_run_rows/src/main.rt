//! Rows of whole runs that were worked out by hand, as data: the file `stdin` is a table of source texts, and the file
//! `stdout` has what the program does with each of them. A row crosses all crates, from the bytes of a source to the
//! status. What the lines of a table are stands in `sk_tables`.
//!
//! What is asked of a text is `run`: the status, what is printed, and the line on the error stream, each in quotes.
#![tactic(auto)]

mod answers;

use answers::Runs;
use sk_tables::print_answers;
use std::io;

fn main(rt: HostRuntime) -> io::Result<()> {
    print_answers(&rt, &mut Runs)
}
