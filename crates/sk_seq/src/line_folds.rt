ghost use Rattle.std.specs.Prelude.{◌≡◌, ℕ, ℤ, ◌+◌, ◌-◌, ◌*◌, ◌<◌, ◌≤◌, ◌^◌, length, IfOk, IsSome, Some};
ghost use Rattle.sk_formula.specs.Elements.{folded, mapped};
ghost use Rattle.sk_kernel.specs.Kernels.{IsJoined, Suits, given_by};
ghost use Rattle.sk_seq.specs.Given.{AgreeAll, functions_over};
ghost use Rattle.sk_seq.specs.Joinings.{AreTaken, JoinsAs, MayStand};
ghost use Rattle.sk_seq.specs.Lines.{IsLineFold, MayTake, joined_with, line_fold, line_operand};
ghost use Rattle.sk_seq.specs.Operands.{TakesValues};
ghost use Rattle.sk_seq.specs.Results.{AreComputed};

use crate::joining::{Joining, join_more};
use crate::trapped::Trapped;
use sk_base::{Cell, Range, Trap};
use sk_kernel::{At, Data, Kernel};

/// Which lines are folded: rows or columns of a matrix of so many columns, or pairs by the one or the other container.
#[derive(Clone, Copy, PartialEq, Eq, Debug)]
pub enum Lines {
    Rows(u32),
    Columns(u32),
    PairRows,
    PairColumns,
}

/// A cell of a matrix of so many columns.
#[inline]
fn matrix_cell<D: Data>(source: &D, row: u32, columns: u32, column: u32) -> Cell
    requires places { row * columns + column < 2 ^ 32 }
    requires held { IsSome ((D.means source.now).held 0 (row * columns + column)) }
    ensures cell { (D.means source.now).held 0 (row * columns + column) ≡ Some result }
{
    source.cell(0, row * columns + column)
}

/// The function's value at a pair.
#[inline]
fn pair_cell<K: Kernel, D: Data>(
    kernel: &mut K,
    source: &D,
    place: u32,
    pair: u32,
) -> Result<Cell, Trap>
    requires suits { Suits (K.means kernel.old) (D.means source.now) place pair }
    requires takes { TakesValues (K.means kernel.old) }
    ensures value { (cells : ℕ → ℕ → ℤ) → AgreeAll (D.means source.now) cells → result ≡ (K.means kernel.old).value (given_by (D.means source.now) cells) place pair }
    ensures range { IfOk result (IsJoined (K.means kernel.old)) }
    ensures same { K.means kernel.new ≡ K.means kernel.old }
{
    kernel.apply(source, At { place, pair })
}

/// An operand of a line.
fn operand<K: Kernel, D: Data>(
    kernel: &mut K,
    lines: Lines,
    source: &D,
    line: u32,
    behind: u32,
) -> Result<Cell, Trap>
    requires may { MayTake lines (K.means kernel.old) (D.means source.now) line behind }
    ensures value { (cells : ℕ → ℕ → ℤ) → AgreeAll (D.means source.now) cells
        → result ≡ line_operand lines (functions_over (K.means kernel.old) (D.means source.now) cells) line behind }
    ensures range { IfOk result (IsJoined (K.means kernel.old)) }
    ensures same { K.means kernel.new ≡ K.means kernel.old }
{
    match lines {
        Lines::Rows(columns) => Ok(matrix_cell(source, line, columns, behind)),
        Lines::Columns(columns) => Ok(matrix_cell(source, behind, columns, line)),
        Lines::PairRows => pair_cell(kernel, source, line, behind),
        Lines::PairColumns => pair_cell(kernel, source, behind, line),
    }
}

/// One more operand of a line behind what was folded.
fn fold_more<K: Kernel, D: Data>(
    kernel: &mut K,
    joining: Joining,
    lines: Lines,
    source: &D,
    line: u32,
    behind: u32,
    before: Option<Cell>,
) -> Result<Option<Cell>, Trap>
    requires joins { JoinsAs joining (K.means kernel.old) }
    requires before { MayStand (K.means kernel.old) before }
    requires may { MayTake lines (K.means kernel.old) (D.means source.now) line behind }
    ensures value { (cells : ℕ → ℕ → ℤ) → AgreeAll (D.means source.now) cells
        → result ≡ joined_with (K.means kernel.old).join before (line_operand lines (functions_over (K.means kernel.old) (D.means source.now) cells) line behind) }
    ensures range { IfOk result (MayStand (K.means kernel.old)) }
    ensures same { K.means kernel.new ≡ K.means kernel.old }
{
    match operand(kernel, lines, source, line, behind) {
        Ok(last) => join_more(kernel, joining, before, last),
        Err(trap) => Err(trap),
    }
}

/// The fold of the operands of a line, behind what stands in front.
fn fold_line<K: Kernel, D: Data>(
    kernel: &mut K,
    joining: Joining,
    lines: Lines,
    operands: u32,
    source: &D,
    line: u32,
    front: Option<Cell>,
) -> Result<Option<Cell>, Trap>
    requires joins { JoinsAs joining (K.means kernel.old) }
    requires front { MayStand (K.means kernel.old) front }
    requires may { (behind : ℕ) → behind < operands → MayTake lines (K.means kernel.old) (D.means source.now) line behind }
    ensures value { (cells : ℕ → ℕ → ℤ) → AgreeAll (D.means source.now) cells
        → IsLineFold (folded (K.means kernel.old).join (line_operand lines (functions_over (K.means kernel.old) (D.means source.now) cells) line) front 0 operands) result }
    ensures range { IfOk result (MayStand (K.means kernel.old)) }
    ensures same { K.means kernel.new ≡ K.means kernel.old }
{
    let mut folded = front;
    for k in 0..operands {
        match fold_more(kernel, joining, lines, source, line, k, folded) {
            Ok(more) => folded = more,
            Err(trap) => return Err(trap),
        }
    }
    Ok(folded)
}

/// The folds of some lines, each behind what stands in front.
pub fn fold_lines<K: Kernel, D: Data>(
    kernel: &mut K,
    joining: Joining,
    lines: Lines,
    operands: u32,
    source: &D,
    front: Option<Cell>,
    units: Range,
    out: &mut [Cell],
) -> Result<(), Trapped>
    requires count { length out.old ≡ units.hi - units.lo }
    requires operator { IsSome (K.means kernel.old).operator }
    requires joins { JoinsAs joining (K.means kernel.old) }
    requires front { MayStand (K.means kernel.old) front }
    requires may { (unit : ℕ) → units.lo ≤ unit → unit < units.hi → (behind : ℕ) → behind < operands
        → MayTake lines (K.means kernel.old) (D.means source.now) unit behind }
    ensures values { (cells : ℕ → ℕ → ℤ) → AgreeAll (D.means source.now) cells
        → AreComputed (mapped (line_fold lines (functions_over (K.means kernel.old) (D.means source.now) cells) front operands) units.lo (length out.old)) out.new result }
    ensures range { IfOk result (λ done. AreTaken (K.means kernel.old) out.new (length out.old)) }
    ensures count { length out.new ≡ length out.old }
    ensures same { K.means kernel.new ≡ K.means kernel.old }
{
    for k in 0..out.len() {
        let unit = units.lo + k as u32;
        match fold_line(kernel, joining, lines, operands, source, unit, front) {
            Ok(folded) => out[k] = folded.unwrap_or(0),
            Err(trap) => {
                return Err(Trapped {
                    trap,
                    element: unit,
                });
            }
        }
    }
    Ok(())
}
