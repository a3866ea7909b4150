ghost use Rattle.std.specs.Prelude.{◌≡◌, ℕ, List};
ghost use Rattle.sk_grammar.specs.Limits.{ReadsWithin};
ghost use Rattle.sk_reading.specs.ReadingPrograms.{RefusesAt};
ghost use Rattle.sk_refusals.specs.Refusals.{IsRefusal};
ghost use Rattle.sk_refusals.specs.declared.refusal.Refusal.{Refusal};
ghost use Rattle.sk_tokens.specs.declared.token.Token.{Token};
ghost use Rattle.sk_tree.specs.declared.tree.Program.{Program};

/// A law: what the reading refuses of a list of tokens, and where, is the fault of the list.
pub fn what_is_refused_is_the_fault()
    ensures { (tokens : List Token) (refusal : Refusal) (token : ℕ) → RefusesAt tokens refusal token → IsRefusal tokens refusal token }
{}

/// A law: no list of tokens has two faults.
pub fn a_list_has_one_fault()
    ensures { (tokens : List Token) (one other : Refusal) (token at : ℕ) → IsRefusal tokens one token → IsRefusal tokens other at
        → (token ≡ at) × (one ≡ other) }
{}

/// A law: tokens that read as a program within the limits have no fault.
pub fn a_program_has_no_fault()
    ensures { (tokens : List Token) (program : Program) → ReadsWithin tokens program
        → (refusal : Refusal) (token : ℕ) → IsRefusal tokens refusal token → ⊥ }
{}
