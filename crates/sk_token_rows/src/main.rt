//! Rows of the lexer that were worked out by hand, as data: the file `stdin` is a table of source texts, and the file
//! `stdout` has what is to be told of each. What the lines of a table are stands in `sk_tables`.
//!
//! What may be asked of a text:
//!
//! - `tokens`: its tokens with their lines, or the fault that is told.
//! - `count`: how many tokens it has, or the fault that is told.
#![tactic(auto)]

mod answers;

use answers::Lexer;
use sk_tables::print_answers;
use std::io;

fn main(rt: HostRuntime) -> io::Result<()> {
    print_answers(&rt, &mut Lexer)
}
