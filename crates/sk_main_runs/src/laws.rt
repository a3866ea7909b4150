ghost use Rattle.sk_main_runs.specs.RunsAlike.{MainRunsAlike};
ghost use Rattle.sk_main_runs.specs.Unmarked.{StandingEndsAlike, StandingVectorsRunAsSource, UnmarkedRunAlike, VectorsRun};
ghost use Rattle.sk_main_runs.specs.Vectors.{CompiledVectorsRunAsSource, FunctionsMeanAlike, VectorsRunAsSource};

/// A law: where an object has main's code, and its functions and instances mean what their sources mean, its run is that of
/// the program, events included, wherever it is over.
pub fn main_runs_alike()
    ensures { MainRunsAlike }
{}

/// A law: where an object is compiled from a program of vectors, and its functions mean what their sources mean, its run is
/// that of the program, events included, wherever it is over.
pub fn vectors_run_as_source()
    ensures { VectorsRunAsSource }
{}

/// A law: the same of the object that a program of vectors is compiled to.
pub fn compiled_vectors_run_as_source()
    ensures { CompiledVectorsRunAsSource }
{}

/// A law: where the functions of a program mean what their sources mean, they do in the object of the whole program.
pub fn compiled_functions_mean_alike()
    ensures { FunctionsMeanAlike }
{}

/// A law: an object that lacks marks, operators and variants prints the same, leaves the same containers and ends alike.
pub fn unmarked_run_alike()
    ensures { UnmarkedRunAlike }
{}

/// A law: each object that stands for a program of vectors prints the same, leaves the same containers and ends as the
/// program, wherever its run is over.
pub fn standing_vectors_run_as_source()
    ensures { StandingVectorsRunAsSource }
{}

/// A law: the same without a premise on names, since what main's code names is there.
pub fn vectors_run()
    ensures { VectorsRun }
{}

/// A law: the run of a program's object is over wherever that of one is that stands for the program.
pub fn standing_ends_alike()
    ensures { StandingEndsAlike }
{}
