//! What a run of main is given and leaves, beside what the texts of inputs and dumps say: definitions in `specs/`, and two laws.
//!
//! A law has no body: its contract is the law.
#![tactic(auto)]

ghost use Rattle.std.specs.List.{AllZip};
ghost use Rattle.std.specs.Prelude.{List, map};
ghost use Rattle.sk_data.specs.Suits.{Suits};
ghost use Rattle.sk_data.specs.declared.given.Given.{Given};
ghost use Rattle.sk_main_code.specs.Inputs.{AnswerAll};
ghost use Rattle.sk_main_data.specs.Exchange.{input_of};
ghost use Rattle.sk_tree.specs.declared.declared.Declared.{Declared};

/// A law: inputs that suit their declarations answer them.
pub fn suited_inputs_answer()
    ensures { (declared : List Declared) (given : List Given) → AllZip Suits declared given → AnswerAll declared (map input_of given) }
{}

/// A law: inputs that answer their declarations suit them.
pub fn answering_inputs_suit()
    ensures { (declared : List Declared) (given : List Given) → AnswerAll declared (map input_of given) → AllZip Suits declared given }
{}
