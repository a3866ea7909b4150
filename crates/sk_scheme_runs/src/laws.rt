ghost use Rattle.std.specs.Prelude.{[]};
ghost use Rattle.sk_tree.specs.declared.tree.Program.{Program};
ghost use Rattle.sk_scheme.specs.Plans.{functions_before_main, functions_object};
ghost use Rattle.sk_isa.specs.SoundObjects.{HasSoundFunctions};
ghost use Rattle.sk_plain.specs.Codes.{functions_alone};
ghost use Rattle.sk_plain.specs.Means.{MeansSource};
ghost use Rattle.sk_plain.specs.Plain.{ArePlain, IsPlain};
ghost use Rattle.sk_plain.specs.SourceRuns.{RunsAsSource};

/// A law: the run of each function's code ends with the value of its source.
pub fn sound_code_runs_as_source()
    ensures { (program : Program) → IsPlain program → HasSoundFunctions (functions_object program) → RunsAsSource program }
{}

/// A law: the functions of a plain program's object have the values of their sources.
pub fn sound_code_means_source()
    ensures { (program : Program) → IsPlain program → HasSoundFunctions (functions_object program) → MeansSource program (functions_object program) }
{}

/// A law: plain functions have the values of their sources, whatever the instances of their program.
pub fn sound_functions_mean_source()
    ensures { (program : Program) → ArePlain [] (functions_before_main program) → HasSoundFunctions (functions_alone program)
        → MeansSource program (functions_object program) }
{}
