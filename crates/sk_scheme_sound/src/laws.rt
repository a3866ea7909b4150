ghost use Rattle.std.specs.Prelude.{[]};
ghost use Rattle.sk_tree.specs.declared.tree.Program.{Program};
ghost use Rattle.sk_scheme.specs.Plans.{functions_before_main, functions_object};
ghost use Rattle.sk_isa.specs.SoundObjects.{HasSoundFunctions, TakesScalars};
ghost use Rattle.sk_plain.specs.Codes.{HasSoundCodes, functions_alone};
ghost use Rattle.sk_plain.specs.Plain.{ArePlain, FunctionsTakeScalars, IsPlain};

/// A law: the compiled form of a plain program is sound, and its functions take scalars alone where their sources do.
pub fn plain_programs_are_sound()
    ensures sound { (program : Program) → IsPlain program → HasSoundFunctions (functions_object program) }
    ensures scalars { (program : Program) → IsPlain program → FunctionsTakeScalars program → TakesScalars (functions_object program) }
{}

/// A law: the code of plain functions is sound, whatever the instances of their program.
pub fn plain_functions_are_sound()
    ensures codes { (program : Program) → ArePlain [] (functions_before_main program) → HasSoundCodes (functions_object program) }
    ensures alone { (program : Program) → ArePlain [] (functions_before_main program) → HasSoundFunctions (functions_alone program) }
{}
