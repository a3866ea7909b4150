//! Rows of compiled functions that were worked out by hand, as data: the file `stdin` is a table of source texts, and the
//! file `stdout` has what is to be told of each. A row crosses the lexer, the parser, the compiler and the listing. What the
//! lines of a table are stands in `sk_tables`.
//!
//! What may be asked:
//!
//! - `listing`: the lines of the last function before main.
//! - `object`: what the compiled form of a text has beside code, where its functions alone are compiled.
//! - `main`: the lines of main.
//! - `held`: what the compiled form of main has beside code.
//! - `words`: the lines of code that no source gives yet, which `words` has; the row's text is not read.
//!
//! The modules:
//!
//! - `answers`: what is told of a text.
//! - `objects`: what is told of a compiled form.
//! - `words`: code that no source gives yet.
#![tactic(auto)]

mod answers;
mod objects;
mod words;

use answers::Compiler;
use sk_tables::print_answers;
use std::io;

fn main(rt: HostRuntime) -> io::Result<()> {
    print_answers(&rt, &mut Compiler)
}
