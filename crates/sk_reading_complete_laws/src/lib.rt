//! The law that each lawful spelling that keeps the limits is read, as the program that it spells.
//!
//! - `proofs/Steps`: steps at a place whose next token is known. `proofs/expressions`, `proofs/statements`, `proofs/Parameters`:
//!   what spellings begin and end with, and the parts that no limit stops.
//! - `proofs/spelled`: a program is read as far as its marks keep the limits, and stops at the first one that does not.
//! - `proofs/Within`: what keeps the limits has no mark that exceeds one. `proofs/Programs`: the laws.
#![tactic(auto)]

ghost use Rattle.std.specs.Prelude.{◌≡◌, List, Some};
ghost use Rattle.sk_grammar.specs.Limits.{ReadsWithin};
ghost use Rattle.sk_reading.specs.Reading.{value_of};
ghost use Rattle.sk_reading.specs.ReadingPrograms.{functions};
ghost use Rattle.sk_tokens.specs.declared.token.Token.{Token};
ghost use Rattle.sk_tree.specs.declared.tree.Program.{Program};

/// A law: what a list of tokens reads as within the limits is read of it.
pub fn what_is_spelled_is_read()
    ensures { (tokens : List Token) (program : Program)
        → ReadsWithin tokens program → value_of (functions tokens) ≡ Some program.functions }
{}

/// A law: no list of tokens reads as two programs within the limits.
pub fn reads_as_one_program()
    ensures { (tokens : List Token) (one other : Program) → ReadsWithin tokens one → ReadsWithin tokens other → one ≡ other }
{}
