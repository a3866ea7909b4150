ghost use Rattle.sk_main_names.specs.MainNames.{CompiledVectorsHaveNames, StandingVectorsHaveNames};

/// A law: what main's code names is there in the object that a program of vectors is compiled to.
pub fn compiled_vectors_have_names()
    ensures { CompiledVectorsHaveNames }
{}

/// A law: the same of each object that stands for the program, as one that lacks marks.
pub fn standing_vectors_have_names()
    ensures { StandingVectorsHaveNames }
{}
