ghost use Rattle.std.specs.Prelude.{List};
ghost use Rattle.sk_isa.specs.Soundness.{LoopsPass};
ghost use Rattle.sk_isa.specs.declared.code.Instr.{Instr};
ghost use Rattle.sk_main_code.specs.MainSoundness.{IsCount};
ghost use Rattle.sk_main_laws.specs.Running.{MainRuns};
ghost use Rattle.sk_main_laws.specs.Laws.{MainBeginsFine, MainEnds, MainFinds, MainIsNeverStuck, MeasureFalls, RanksFall, CallsAreFine, CallsAreGiven, CallsAreMade, InstancesComputeByTheirMeaning};

/// A law: where all loops count statements, steps that count none come to an end.
pub fn main_ranks_fall()
    ensures { (instrs : List Instr) → LoopsPass IsCount instrs → RanksFall instrs }
{}

/// A law: the statements that are left, and then the rank, fall with each step.
pub fn main_measure_falls()
    ensures { MeasureFalls }
{}

/// A law: main begins at a fine point, where its inputs are those that the object declares.
pub fn main_begins_fine()
    ensures { MainBeginsFine }
{}

/// A law: from a fine point main goes on to fine points alone, or is over.
pub fn main_is_never_stuck()
    ensures { MainIsNeverStuck }
{}

/// A law: each instruction of main finds at a fine point what it needs.
pub fn main_finds_what_it_needs()
    ensures { MainFinds }
{}

/// A law: main's run is over within its limit of steps, and its end is the meaning of the object.
pub fn main_ends()
    ensures { MainEnds }
{}

/// A law: a call statement of main, and a call that is a value, are calls of an instance for live containers.
pub fn main_calls_are_made()
    ensures { CallsAreMade }
{}

/// A law: in a fine world the containers of a call are as it wants them.
pub fn main_calls_are_given()
    ensures { CallsAreGiven }
{}

/// A law: the calls of sound instances leave fine worlds.
pub fn main_calls_are_fine()
    ensures { CallsAreFine }
{}

/// A law: main's run computes a call with the functions of the instance's meaning.
pub fn instances_compute_by_their_meaning()
    ensures { InstancesComputeByTheirMeaning }
{}

/// A law: from its start on main goes on as a run whose end is the meaning of the object, and each step leaves less of it.
pub fn main_runs_to_its_meaning()
    ensures { MainRuns }
{}
