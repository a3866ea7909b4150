//! The law that what is read has a lawful spelling that keeps the limits.
//!
//! - `proofs/Steps`: what a step that reads something has taken. `proofs/Commas`: loops over items with commas between.
//! - `proofs/expressions`, `proofs/statements`, `proofs/Programs`: the law for each of them.
#![tactic(auto)]

ghost use Rattle.std.specs.Prelude.{◌≡◌, List, Some};
ghost use Rattle.sk_grammar.specs.Limits.{ReadsWithin};
ghost use Rattle.sk_reading.specs.Reading.{value_of};
ghost use Rattle.sk_reading.specs.ReadingPrograms.{functions};
ghost use Rattle.sk_tokens.specs.declared.token.Token.{Token};
ghost use Rattle.sk_tree.specs.declared.tree.Program.{Program};

/// A law: what is read of a list of tokens, it reads as within the limits.
pub fn what_is_read_is_spelled()
    ensures { (tokens : List Token) (program : Program)
        → value_of (functions tokens) ≡ Some program.functions → ReadsWithin tokens program }
{}
