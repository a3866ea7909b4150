//! Rows of the grammar and the printer that were worked out by hand, as data: the file `stdin` is a table of source texts,
//! and the file `stdout` has what is to be told of each. What the lines of a table are stands in `sk_tables`.
//!
//! What may be asked of a text:
//!
//! - `tree`: the tree that it reads as, written as `written` says; or `refused`. Each tree is also printed and read again.
//! - `fault`: why it is refused, and of which token.
//! - `text`: what it is printed as.
//! - `lines`: the lines of its functions and statements.
//!
//! The modules:
//!
//! - `answers`: what is told of a text.
//! - `reading`: from a text to its program.
//! - `written`: trees as text.
//! - `lines`: the lines in them.
#![tactic(auto)]

mod answers;
mod lines;
mod reading;
mod written;

use answers::Grammar;
use sk_tables::print_answers;
use std::io;

fn main(rt: HostRuntime) -> io::Result<()> {
    print_answers(&rt, &mut Grammar)
}
