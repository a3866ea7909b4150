ghost use Rattle.std.specs.Prelude.{List};
ghost use Rattle.sk_isa.specs.declared.code.Instr.{Instr};
ghost use Rattle.sk_isa.specs.declared.object.Object.{Object};
ghost use Rattle.sk_isa_laws.specs.Laws.{FunctionsHaveValues, RanksFall, SoundCodeEnds, SoundCodeIsNeverStuck};
ghost use Rattle.sk_isa.specs.SoundObjects.{HasSoundFunctions};
ghost use Rattle.sk_isa.specs.Soundness.{LoopsTakeTurns};

/// A law: where all loops take turns, steps without a turn come to an end.
pub fn ranks_fall()
    ensures { (instrs : List Instr) → LoopsTakeTurns instrs → RanksFall instrs }
{}

/// A law: each step of sound code finds what it needs, and leads on to the like.
pub fn sound_code_is_never_stuck()
    ensures { SoundCodeIsNeverStuck }
{}

/// A law: the run of sound code ends within its limit, with the code's value.
pub fn sound_code_ends()
    ensures { SoundCodeEnds }
{}

/// A law: the functions of a sound object have the values with which the runs of their codes end.
pub fn functions_have_values()
    ensures { (object : Object) → HasSoundFunctions object → FunctionsHaveValues object }
{}
