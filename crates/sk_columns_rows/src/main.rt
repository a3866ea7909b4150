//! Rows of straight code that is evaluated for a block of places, as data: the file `stdin` is a table of codes with two columns
//! of numbers, and the file `stdout` has what each gives. What the lines of a table are stands in `sk_tables`.
//!
//! A row is `CODE ; LEFT ; RIGHT ; FROM`. The code is its instructions, with commas between, as the listing writes them. The
//! numbers of the columns have blanks between; they stand in the slots 0 and 1, and every other slot has 0. Each field of the
//! argument in slot 9 counts from a number on, which is 0 where none stands there. What is asked is `cells`: the number at
//! each place, or that the code is left to the caller.
//!
//! The modules:
//!
//! - `answers`: what is told of a row.
//! - `columns`: codes evaluated over two columns.
//! - `instrs`: instructions as text.
//! - `numbers`: numbers as text.
#![tactic(auto)]

mod answers;
mod columns;
mod instrs;
mod numbers;

use answers::Columned;
use sk_tables::print_answers;
use std::io;

fn main(rt: HostRuntime) -> io::Result<()> {
    print_answers(&rt, &mut Columned)
}
