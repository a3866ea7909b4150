//! Rows of names and types that were worked out by hand, as data: the file `stdin` is a table of source texts, and the
//! file `stdout` has what is to be told of each. A row crosses the lexer, the parser and the check. What the lines of a
//! table are stands in `sk_tables`.
//!
//! What may be asked of a text:
//!
//! - `faults`: the fault that is told of it, if it is no typed program.
//! - `inputs`: the inputs of a typed program.
//! - `numbers`: the number of the function of that name, in the program that stands around.
#![tactic(auto)]

mod answers;

use answers::Typing;
use sk_tables::print_answers;
use std::io;

fn main(rt: HostRuntime) -> io::Result<()> {
    print_answers(&rt, &mut Typing)
}
