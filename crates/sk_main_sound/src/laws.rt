ghost use Rattle.sk_main_sound.specs.MainSound.{CompiledVectorsAreSound, StandingVectorsAreSound};

/// A law: the main of the object that a program of vectors is compiled to is sound.
pub fn compiled_vectors_are_sound()
    ensures { CompiledVectorsAreSound }
{}

/// A law: the same of each object that stands for the program, as one that lacks marks.
pub fn standing_vectors_are_sound()
    ensures { StandingVectorsAreSound }
{}
