//! Phases of the rank machine that were played by hand, as data: the file `stdin` is a table of phases, and the file `stdout`
//! has what is to come of each. What the lines of a table are stands in `sk_tables`.
//!
//! A row is `MESSAGES ; JOBS ; CHOICES`, each with blanks between. A message is written as the job that it waits for, or `-`
//! for none; a job as the messages that it waits for, `/`, and the jobs that it waits for, with commas between. What may be
//! asked of a row:
//!
//! - `plan`: whether the messages and jobs are a plan.
//! - `phase`: before each choice how many acts may come, and the act that the choice names; and how many may come at last.
//!
//! The modules:
//!
//! - `plans`: messages and jobs as text.
//! - `answers`: what is told of a row.
#![tactic(auto)]

mod answers;
mod plans;

use answers::Ranks;
use sk_tables::print_answers;
use std::io;

fn main(rt: HostRuntime) -> io::Result<()> {
    print_answers(&rt, &mut Ranks)
}
