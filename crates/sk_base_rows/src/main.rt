//! Rows that were worked out by hand for the small crates below the language, as data: the file `stdin` is a table of calls,
//! and the file `stdout` has what is to be answered. What the lines of a table are stands in `sk_tables`.
//!
//! What may be asked:
//!
//! - `value`: a row is `wrap TYPE NUMBER`, `convert TYPE NUMBER`, or an operator, a type and two operands.
//! - `shape`: a row is sizes. `place`: sizes, `;`, and the indices of an element. `range`: two ends, and an index.
//! - `cut`: a row is a number of indices, a number of parts, and a part. `edge`: a mode, a size, and an index.
//! - `seed`: a row is a seed, `;`, and among how many there is to be chosen, one after another. `list`: the same of a list.
//! - `states`: a row is a number of indices, and behind each `;` two ends and a state, `f` to fill, or `?` for what is missing.
//! - `names`: a row is declarations `a=1`, look-ups `a?`, `#` for the depth, and `<1` to leave for a depth.
//!
//! The modules:
//!
//! - `answers`: what is told of a row.
//! - `words`: the words of rows.
//! - `values`, `shapes`, `parts`, `states`, `names`: the calls.
#![tactic(auto)]

mod answers;
mod names;
mod parts;
mod shapes;
mod states;
mod values;
mod words;

use answers::Base;
use sk_tables::print_answers;
use std::io;

fn main(rt: HostRuntime) -> io::Result<()> {
    print_answers(&rt, &mut Base)
}
