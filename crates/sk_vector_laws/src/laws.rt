ghost use Rattle.sk_grammar.specs.Limits.{IsFromTextWithin};
ghost use Rattle.sk_isa.specs.SoundObjects.{HasSoundFunctions};
ghost use Rattle.sk_isa.specs.declared.object.Object.{Object};
ghost use Rattle.sk_main_code.specs.Vectors.{IsVectorObject};
ghost use Rattle.sk_main_scheme.specs.Objects.{StandsFor};
ghost use Rattle.sk_plain.specs.Means.{MeansSource};
ghost use Rattle.sk_scheme.specs.Plans.{functions_object};
ghost use Rattle.sk_tree.specs.declared.tree.Program.{Program};
ghost use Rattle.sk_vector_laws.specs.Marks.{BareMarksAreTrue, HasTrueMarks, StandingMarksAreSafe};
ghost use Rattle.sk_vector_laws.specs.Names.{IsNamedShortly};
ghost use Rattle.sk_vector_laws.specs.Vectors.{CompiledTypedVectorsRun, CompiledVectorsAreRunnable, IsTypedOfVectors, SoundTypedVectorsRun, SoundVectorsAreRunnable, StandingObjectsAreNamed, StandingOperatorsAreTrue, StandingVectorsAreRunnable, StandingVectorsRun, TypedVectorsRun, TypedVectorsRunAsSource};

/// A law: in a program that a text has within the limits all that is declared has a short name, and all texts are short.
pub fn programs_of_texts_are_named_shortly()
    ensures { (program : Program) → IsFromTextWithin program → IsNamedShortly program }
{}

/// A law: the names and texts of each object that stands for such a program are those of the language.
pub fn standing_objects_are_named()
    ensures { StandingObjectsAreNamed }
{}

/// A law: the marks of the object of a program without marks are true.
pub fn absent_marks_are_true()
    ensures { BareMarksAreTrue }
{}

/// A law: where the functions that are marked safe in a program's own object never trap, none does in an object that stands
/// for the program.
pub fn standing_marks_are_safe()
    ensures { StandingMarksAreSafe }
{}

/// A law: the operators of each object that stands for a typed program of vectors are those that its functions compute.
pub fn standing_operators_are_true()
    ensures { StandingOperatorsAreTrue }
{}

/// A law: each object with true marks that stands for a typed program of vectors has sound functions and instances.
pub fn standing_vectors_have_sound_functions()
    ensures { (program : Program) → IsTypedOfVectors program → (object : Object) → StandsFor object program → HasTrueMarks object → HasSoundFunctions object }
{}

/// A law: each object that stands for a typed program of vectors is one of vectors.
pub fn standing_vectors_are_vector_objects()
    ensures { (program : Program) → IsTypedOfVectors program → (object : Object) → StandsFor object program → IsVectorObject object }
{}

/// A law: the functions of a typed program of vectors have the values of their sources.
pub fn typed_vectors_mean_source()
    ensures { (program : Program) → IsTypedOfVectors program → MeansSource program (functions_object program) }
{}

/// A law: each object that stands for a typed program of vectors runs as the program.
pub fn standing_vectors_run()
    ensures { StandingVectorsRun }
{}

/// A law: each with true marks is sound, and one of vectors, too.
pub fn standing_vectors_are_runnable()
    ensures { StandingVectorsAreRunnable }
{}

/// A law: each that is sound is one of vectors, and runs as the program.
pub fn sound_vectors_are_runnable()
    ensures { SoundVectorsAreRunnable }
{}

/// A law: the object that a typed program of vectors is compiled to is sound, and runs as the program.
pub fn compiled_vectors_are_runnable()
    ensures { CompiledVectorsAreRunnable }
{}

/// A law: each object that stands for a typed program that a text has within the limits, and whose text shows the form of one
/// of vectors, runs as the program; it is sound too where its marks are true, as is the one that is compiled.
pub fn typed_vectors_run()
    ensures runs { TypedVectorsRunAsSource }
    ensures standing { TypedVectorsRun }
    ensures sound { SoundTypedVectorsRun }
    ensures compiled { CompiledTypedVectorsRun }
{}
