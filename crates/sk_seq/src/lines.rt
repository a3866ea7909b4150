ghost use Rattle.std.specs.Prelude.{◌≡◌, ℕ, ℤ, ◌-◌, ◌<◌, ◌≤◌, ◌^◌, IfOk, IsSome, length};
ghost use Rattle.sk_base.specs.Shape.{cells_of};
ghost use Rattle.sk_formula.specs.Calls.{columns_of, rows_of, units_value};
ghost use Rattle.sk_seq.specs.Given.{AgreeAll, functions_over, sizes_in};
ghost use Rattle.sk_seq.specs.Joinings.{AreTaken, JoinsAs, MayStand};
ghost use Rattle.sk_seq.specs.Lines.{HoldsLine, SuitsLine};
ghost use Rattle.sk_seq.specs.Operands.{TakesValues};
ghost use Rattle.sk_seq.specs.Results.{AreComputed};
ghost use Rattle.sk_tree.specs.declared.tree.Skeleton.TheVariants.{MapPairsReduce, Reduce};

use crate::joining::Joining;
use crate::line_folds::{Lines, fold_lines};
use crate::trapped::Trapped;
use sk_base::{Cell, Range, Shape};
use sk_kernel::{Data, Kernel};
use sk_tree::Settings;

/// SkePU's Reduce with a container as its result, for some of its elements: each is the fold of a row of the matrix, or of a
/// column, behind the start value. It is 0 where a line has no elements and there is no start value.
pub fn reduce_lines<K: Kernel, D: Data>(
    kernel: &mut K,
    joining: Joining,
    source: &D,
    settings: &Settings,
    units: Range,
    out: &mut [Cell],
) -> Result<(), Trapped>
    requires there { 0 < length (D.means source.now).shapes }
    requires count { length out.old ≡ units.hi - units.lo }
    requires operator { IsSome (K.means kernel.old).operator }
    requires joins { JoinsAs joining (K.means kernel.old) }
    requires start { MayStand (K.means kernel.old) settings.now.start }
    requires held { (unit : ℕ) → units.lo ≤ unit → unit < units.hi → HoldsLine (K.means kernel.old) (D.means source.now) settings.now.columns unit }
    ensures values { (cells : ℕ → ℕ → ℤ) → AgreeAll (D.means source.now) cells
        → AreComputed (units_value Reduce settings.now (sizes_in (D.means source.now)) (functions_over (K.means kernel.old) (D.means source.now) cells) units.lo units.hi) out.new result }
    ensures range { IfOk result (λ done. AreTaken (K.means kernel.old) out.new (length out.old)) }
    ensures count { length out.new ≡ length out.old }
    ensures same { K.means kernel.new ≡ K.means kernel.old }
{
    let sizes = matrix_sizes(source.shape(0));
    if settings.columns {
        fold_lines(
            kernel,
            joining,
            Lines::Columns(sizes.columns),
            sizes.rows,
            source,
            settings.start,
            units,
            out,
        )
    } else {
        fold_lines(
            kernel,
            joining,
            Lines::Rows(sizes.columns),
            sizes.columns,
            source,
            settings.start,
            units,
            out,
        )
    }
}

/// The rows and the columns of a matrix.
#[derive(Clone, Copy)]
pub struct MatrixSizes {
    pub rows: u32,
    pub columns: u32,
}

/// The sizes of a matrix, and 0 by 0 of everything else.
fn matrix_sizes(shape: &Shape) -> MatrixSizes
    ensures rows { result.rows ≡ rows_of shape.now }
    ensures columns { result.columns ≡ columns_of shape.now }
    ensures bounded { cells_of shape.now ≤ 2 ^ 24 }
{
    match shape.sizes() {
        [rows, columns] => MatrixSizes {
            rows: *rows,
            columns: *columns,
        },
        _ => MatrixSizes {
            rows: 0,
            columns: 0,
        },
    }
}

/// SkePU's MapPairsReduce, for some elements of its result: each is the fold of the function's values at the pairs of an
/// element of the first container with all of the second, or by columns of all of the first with an element of the second,
/// behind the start value. It is 0 where there are no pairs and no start value.
pub fn map_pairs_reduce<K: Kernel, D: Data>(
    kernel: &mut K,
    joining: Joining,
    source: &D,
    settings: &Settings,
    units: Range,
    out: &mut [Cell],
) -> Result<(), Trapped>
    requires there { 1 < length (D.means source.now).shapes }
    requires count { length out.old ≡ units.hi - units.lo }
    requires operator { IsSome (K.means kernel.old).operator }
    requires joins { JoinsAs joining (K.means kernel.old) }
    requires start { MayStand (K.means kernel.old) settings.now.start }
    requires suits { (unit : ℕ) → units.lo ≤ unit → unit < units.hi → SuitsLine (K.means kernel.old) (D.means source.now) settings.now.columns unit }
    requires takes { TakesValues (K.means kernel.old) }
    ensures values { (cells : ℕ → ℕ → ℤ) → AgreeAll (D.means source.now) cells
        → AreComputed (units_value MapPairsReduce settings.now (sizes_in (D.means source.now)) (functions_over (K.means kernel.old) (D.means source.now) cells) units.lo units.hi) out.new result }
    ensures range { IfOk result (λ done. AreTaken (K.means kernel.old) out.new (length out.old)) }
    ensures count { length out.new ≡ length out.old }
    ensures same { K.means kernel.new ≡ K.means kernel.old }
{
    if settings.columns {
        let operands = source.shape(0).cells();
        fold_lines(
            kernel,
            joining,
            Lines::PairColumns,
            operands,
            source,
            settings.start,
            units,
            out,
        )
    } else {
        let operands = source.shape(1).cells();
        fold_lines(
            kernel,
            joining,
            Lines::PairRows,
            operands,
            source,
            settings.start,
            units,
            out,
        )
    }
}
