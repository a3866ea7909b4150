ghost use Rattle.std.specs.Prelude.{◌≡◌, ℕ, ℤ, ◌-◌, IfOk};
ghost use Rattle.sk_formula.specs.Calls.{part_fold};
ghost use Rattle.sk_seq.specs.Given.{AgreeAll, functions_over};
ghost use Rattle.sk_seq.specs.Joinings.{JoinsAs, MayStand};
ghost use Rattle.sk_seq.specs.Operands.{FoldsValues, HoldsTaken};
ghost use Rattle.sk_seq.specs.Results.{IsFold};
ghost use Rattle.sk_tree.specs.declared.tree.Skeleton.TheVariants.{MapReduce, Reduce};

use crate::folds::fold_part;
use crate::joining::Joining;
use crate::operands::Operands;
use crate::trapped::Trapped;
use sk_base::{Cell, Range};
use sk_kernel::{Data, Kernel};

/// SkePU's Reduce to a number, for a part of the elements: their fold behind what stands in front. There is none where there
/// are no elements and nothing stands in front.
pub fn reduce<K: Kernel, D: Data>(
    kernel: &mut K,
    joining: Joining,
    source: &D,
    part: Range,
    front: Option<Cell>,
) -> Result<Option<Cell>, Trapped>
    requires joins { JoinsAs joining (K.means kernel.old) }
    requires front { MayStand (K.means kernel.old) front }
    requires held { HoldsTaken (K.means kernel.old) (D.means source.now) part.lo (part.hi - part.lo) }
    ensures value { (cells : ℕ → ℕ → ℤ) → AgreeAll (D.means source.now) cells
        → IsFold (part_fold Reduce (functions_over (K.means kernel.old) (D.means source.now) cells) front part.lo part.hi) result }
    ensures range { IfOk result (MayStand (K.means kernel.old)) }
    ensures same { K.means kernel.new ≡ K.means kernel.old }
{
    fold_part(kernel, joining, Operands::Cells, source, part, front)
}

/// SkePU's MapReduce, for a part of the places: the fold of the function's values there.
pub fn map_reduce<K: Kernel, D: Data>(
    kernel: &mut K,
    joining: Joining,
    source: &D,
    part: Range,
    front: Option<Cell>,
) -> Result<Option<Cell>, Trapped>
    requires joins { JoinsAs joining (K.means kernel.old) }
    requires front { MayStand (K.means kernel.old) front }
    requires folds { FoldsValues (K.means kernel.old) (D.means source.now) part.lo (part.hi - part.lo) }
    ensures value { (cells : ℕ → ℕ → ℤ) → AgreeAll (D.means source.now) cells
        → IsFold (part_fold MapReduce (functions_over (K.means kernel.old) (D.means source.now) cells) front part.lo part.hi) result }
    ensures range { IfOk result (MayStand (K.means kernel.old)) }
    ensures same { K.means kernel.new ≡ K.means kernel.old }
{
    fold_part(kernel, joining, Operands::Values, source, part, front)
}
