ghost use Rattle.std.specs.Prelude.{◌≡◌, ℕ, ℤ, ◌+◌, ◌-◌, ◌<◌, ◌≤◌, ◌^◌, length, IfErr, IfOk};
ghost use Rattle.sk_formula.specs.Elements.{folded};
ghost use Rattle.sk_kernel.specs.Kernels.{given_by};
ghost use Rattle.sk_seq.specs.Given.{AgreeAll, functions_over};
ghost use Rattle.sk_seq.specs.Joinings.{AreTaken, JoinsAs, MayStand, cell_in};
ghost use Rattle.sk_seq.specs.Operands.{IsRunFold, MayFold, operand_at, operand_of};
ghost use Rattle.sk_seq.specs.Results.{IsFold};

use crate::joining::{Joining, join_more};
use crate::operands::{Operands, fill_before};
use crate::trapped::Trapped;
use sk_base::{Cell, Range};
use sk_kernel::{Data, Kernel, RunTrap};

/// How many operands are evaluated at once.
const BLOCK: usize = 1024;

/// The fold of the first so many cells, behind what stands in front.
fn fold_cells<K: Kernel>(
    kernel: &mut K,
    joining: Joining,
    front: Option<Cell>,
    cells: &[Cell],
    count: usize,
) -> Result<Option<Cell>, RunTrap>
    requires joins { JoinsAs joining (K.means kernel.old) }
    requires front { MayStand (K.means kernel.old) front }
    requires within { count ≤ length cells.now }
    requires few { count < 2 ^ 32 }
    requires cells { AreTaken (K.means kernel.old) cells.now count }
    ensures value { IsRunFold (folded (K.means kernel.old).join (cell_in cells.now) front 0 count) result }
    ensures inside { IfErr result (λ trapped. trapped.offset < count) }
    ensures range { IfOk result (MayStand (K.means kernel.old)) }
    ensures same { K.means kernel.new ≡ K.means kernel.old }
{
    let mut folded = front;
    for k in 0..count {
        match join_more(kernel, joining, folded, cells[k]) {
            Ok(more) => folded = more,
            Err(trap) => {
                return Err(RunTrap {
                    trap,
                    offset: k as u32,
                });
            }
        }
    }
    Ok(folded)
}

/// The fold of as many operands as the block has cells, from a place on.
fn fold_block<K: Kernel, D: Data>(
    kernel: &mut K,
    joining: Joining,
    operands: Operands,
    source: &D,
    first: u32,
    front: Option<Cell>,
    block: &mut [Cell],
) -> Result<Option<Cell>, RunTrap>
    requires joins { JoinsAs joining (K.means kernel.old) }
    requires front { MayStand (K.means kernel.old) front }
    requires places { first + length block.old < 2 ^ 32 }
    requires may { MayFold operands (K.means kernel.old) (D.means source.now) first (length block.old) }
    ensures value { (cells : ℕ → ℕ → ℤ) → AgreeAll (D.means source.now) cells
        → IsRunFold (folded (K.means kernel.old).join (operand_at operands (K.means kernel.old) (given_by (D.means source.now) cells) first) front 0 (length block.old)) result }
    ensures inside { IfErr result (λ trapped. trapped.offset < length block.old) }
    ensures range { IfOk result (MayStand (K.means kernel.old)) }
    ensures same { K.means kernel.new ≡ K.means kernel.old }
{
    let filled = fill_before(kernel, operands, source, first, block);
    match fold_cells(kernel, joining, front, block, filled.count) {
        Ok(folded) => match filled.trap {
            None => Ok(folded),
            Some(trap) => Err(RunTrap {
                trap,
                offset: filled.count as u32,
            }),
        },
        Err(trapped) => Err(trapped),
    }
}

/// The fold of so many operands from one on, at most as many as the block has cells.
fn fold_piece<K: Kernel, D: Data>(
    kernel: &mut K,
    joining: Joining,
    operands: Operands,
    source: &D,
    first: u32,
    count: u32,
    front: Option<Cell>,
    block: &mut [Cell],
) -> Result<Option<Cell>, Trapped>
    requires joins { JoinsAs joining (K.means kernel.old) }
    requires front { MayStand (K.means kernel.old) front }
    requires within { count ≤ length block.old }
    requires places { first + count < 2 ^ 32 }
    requires may { MayFold operands (K.means kernel.old) (D.means source.now) first count }
    ensures value { (cells : ℕ → ℕ → ℤ) → AgreeAll (D.means source.now) cells
        → IsFold (folded (K.means kernel.old).join (operand_of operands (functions_over (K.means kernel.old) (D.means source.now) cells)) front first count) result }
    ensures range { IfOk result (MayStand (K.means kernel.old)) }
    ensures same { K.means kernel.new ≡ K.means kernel.old }
{
    let (part, _) = block.split_at_mut(count as usize);
    match fold_block(kernel, joining, operands, source, first, front, part) {
        Ok(folded) => Ok(folded),
        Err(trapped) => Err(Trapped {
            trap: trapped.trap,
            element: first + trapped.offset,
        }),
    }
}

/// The fold of a part of the operands, behind what stands in front.
pub fn fold_part<K: Kernel, D: Data>(
    kernel: &mut K,
    joining: Joining,
    operands: Operands,
    source: &D,
    part: Range,
    front: Option<Cell>,
) -> Result<Option<Cell>, Trapped>
    requires joins { JoinsAs joining (K.means kernel.old) }
    requires front { MayStand (K.means kernel.old) front }
    requires may { MayFold operands (K.means kernel.old) (D.means source.now) part.lo (part.hi - part.lo) }
    ensures value { (cells : ℕ → ℕ → ℤ) → AgreeAll (D.means source.now) cells
        → IsFold (folded (K.means kernel.old).join (operand_of operands (functions_over (K.means kernel.old) (D.means source.now) cells)) front part.lo (part.hi - part.lo)) result }
    ensures range { IfOk result (MayStand (K.means kernel.old)) }
    ensures same { K.means kernel.new ≡ K.means kernel.old }
{
    let mut block = [0; BLOCK];
    let mut folded = front;
    let mut done = part.lo;
    while done < part.hi {
        let count = (part.hi - done).min(BLOCK as u32);
        match fold_piece(
            kernel, joining, operands, source, done, count, folded, &mut block,
        ) {
            Ok(more) => folded = more,
            Err(trapped) => return Err(trapped),
        }
        done += count;
    }
    Ok(folded)
}
