ghost use Rattle.std.specs.Prelude.{[]};
ghost use Rattle.sk_grammar.specs.Limits.{IsFromTextWithin};
ghost use Rattle.sk_plain.specs.Plain.{ArePlain, IsPlain};
ghost use Rattle.sk_scheme.specs.Plans.{functions_before_main};
ghost use Rattle.sk_tree.specs.declared.tree.Program.{Program};
ghost use Rattle.sk_typed_laws.specs.Forms.{HasVectorForm, IsFormed, NumbersFit};
ghost use Rattle.sk_typing.specs.Typing.{IsTyped};

/// A law: each number among the tokens of a text fits its type.
pub fn numbers_of_texts_fit()
    ensures { NumbersFit }
{}

/// A law: a program that a text has within the limits is formed as a text has it.
pub fn programs_of_texts_are_formed()
    ensures { (program : Program) → IsFromTextWithin program → IsFormed program }
{}

/// A law: the functions of a typed program are plain, whatever their parameters.
pub fn typed_functions_are_plain()
    ensures { (program : Program) → IsTyped program → IsFormed program → ArePlain [] (functions_before_main program) }
{}

/// A law: a typed program of vectors that a text has within the limits is plain.
pub fn typed_vectors_are_plain()
    ensures { (program : Program) → IsTyped program → IsFromTextWithin program → HasVectorForm program → IsPlain program }
{}
