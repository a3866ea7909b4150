//! From programs to source texts that read back.
//!
//! What a program is printed as is a definition of `sk_printed`, the code that prints exactly that is `sk_printer`, and
//! that it reads back is a law of `sk_printed_laws`; here they are put together.
#![tactic(auto)]

ghost use Rattle.std.specs.Prelude.{◌≡◌, IfOk};
ghost use Rattle.sk_grammar.specs.Grammar.{IsFromText};
ghost use Rattle.sk_printed.specs.PrintedLaws.{PrintsAlike};
ghost use Rattle.sk_printed.specs.ProgramText.{printed_of};
ghost use Rattle.sk_printed.specs.ReadsBack.{ReadsAs};

use sk_printer::printed;
use sk_tree::Program;
use std::alloc::{AllocError, Global};

/// A source text that reads as the program again, but for its lines: two spaces a level, one statement a line, an empty
/// line between functions, and no needless parentheses. Takes time and memory in proportion to the text.
pub fn print(alloc: Global, program: &Program) -> Result<Vec<u8>, AllocError>
    requires { IsFromText program.now }
    ensures text { IfOk result (λ text. text.items ≡ printed_of program.now) }
    ensures reads_back { IfOk result (λ text. ReadsAs text.items program.now) }
{
    printed(alloc, program)
}

/// Programs that differ in their lines alone are printed alike, so what was printed, read and printed again is the same.
pub fn prints_alike()
    ensures { PrintsAlike }
{}
