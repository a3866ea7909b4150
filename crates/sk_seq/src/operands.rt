ghost use Rattle.std.specs.Prelude.{◌≡◌, ℕ, ℤ, ◌+◌, ◌<◌, ◌≤◌, ◌^◌, length, pos, Some, IsSome, IfOk, IfSome, slice_index_or};
ghost use Rattle.sk_kernel.specs.Kernels.{AreValues, given_by};
ghost use Rattle.sk_seq.specs.Given.{AgreeAll};
ghost use Rattle.sk_seq.specs.Joinings.{AreTaken};
ghost use Rattle.sk_seq.specs.Operands.{AreFilled, MayFold, operand_at};

use sk_base::{Cell, Trap};
use sk_kernel::{At, Data, Kernel, RunTrap};

/// What a fold goes over: the cells of the first container, or the function's values.
#[derive(Clone, Copy, PartialEq, Eq, Debug)]
pub enum Operands {
    Cells,
    Values,
}

/// How many operands have values before a trap, if there is one.
#[derive(Clone, Copy, PartialEq, Eq, Debug)]
pub struct Filled {
    pub count: usize,
    pub trap: Option<Trap>,
}

/// Loads cells of the first container, from one on.
pub fn load<D: Data>(source: &D, first: u32, out: &mut [Cell])
    requires places { first + length out.old < 2 ^ 32 }
    requires held { (behind : ℕ) → behind < length out.old → IsSome ((D.means source.now).held 0 (first + behind)) }
    ensures cells { (behind : ℕ) → behind < length out.old → (D.means source.now).held 0 (first + behind) ≡ Some (slice_index_or out.new behind (pos 0)) }
    ensures count { length out.new ≡ length out.old }
{
    let mut done = 0;
    while done < out.len() {
        done += load_piece(source, first, done, out);
    }
}

/// Loads at least one cell more.
fn load_piece<D: Data>(source: &D, first: u32, done: usize, out: &mut [Cell]) -> usize
    requires places { first + length out.old < 2 ^ 32 }
    requires more { done < length out.old }
    requires held { (behind : ℕ) → behind < length out.old → IsSome ((D.means source.now).held 0 (first + behind)) }
    ensures some { 0 < result }
    ensures upto { done + result ≤ length out.old }
    ensures cells { (behind : ℕ) → done ≤ behind → behind < done + result → (D.means source.now).held 0 (first + behind) ≡ Some (slice_index_or out.new behind (pos 0)) }
    ensures before { (behind : ℕ) → behind < done → slice_index_or out.new behind (pos 0) ≡ slice_index_or out.old behind (pos 0) }
    ensures count { length out.new ≡ length out.old }
{
    let (_, rest) = out.split_at_mut(done);
    let piece = source.column(0, first + done as u32, rest.len() as u32);
    let (place, _) = rest.split_at_mut(piece.len());
    place.copy_from_slice(piece);
    piece.len()
}

/// The operands from a place on, or the least of them that traps.
fn fill<K: Kernel, D: Data>(
    kernel: &mut K,
    operands: Operands,
    source: &D,
    first: u32,
    out: &mut [Cell],
) -> Result<(), RunTrap>
    requires places { first + length out.old < 2 ^ 32 }
    requires may { MayFold operands (K.means kernel.old) (D.means source.now) first (length out.old) }
    ensures values { (cells : ℕ → ℕ → ℤ) → AgreeAll (D.means source.now) cells
        → AreValues (operand_at operands (K.means kernel.old) (given_by (D.means source.now) cells) first) out.new result }
    ensures range { IfOk result (λ done. AreTaken (K.means kernel.old) out.new (length out.old)) }
    ensures count { length out.new ≡ length out.old }
    ensures same { K.means kernel.new ≡ K.means kernel.old }
{
    match operands {
        Operands::Cells => {
            load(source, first, out);
            Ok(())
        }
        Operands::Values => kernel.apply_each(
            source,
            At {
                place: first,
                pair: 0,
            },
            out,
        ),
    }
}

/// The operands from a place on, up to the least that traps.
pub fn fill_before<K: Kernel, D: Data>(
    kernel: &mut K,
    operands: Operands,
    source: &D,
    first: u32,
    out: &mut [Cell],
) -> Filled
    requires places { first + length out.old < 2 ^ 32 }
    requires may { MayFold operands (K.means kernel.old) (D.means source.now) first (length out.old) }
    ensures values { (cells : ℕ → ℕ → ℤ) → AgreeAll (D.means source.now) cells
        → AreFilled (operand_at operands (K.means kernel.old) (given_by (D.means source.now) cells) first) out.new result }
    ensures range { AreTaken (K.means kernel.old) out.new result.count }
    ensures upto { result.count ≤ length out.old }
    ensures inside { IfSome result.trap (λ trap. result.count < length out.old) }
    ensures count { length out.new ≡ length out.old }
    ensures same { K.means kernel.new ≡ K.means kernel.old }
{
    match fill(kernel, operands, source, first, out) {
        Ok(()) => Filled {
            count: out.len(),
            trap: None,
        },
        Err(trapped) => {
            let (before, _) = out.split_at_mut(trapped.offset as usize);
            match fill(kernel, operands, source, first, before) {
                Ok(()) => Filled {
                    count: trapped.offset as usize,
                    trap: Some(trapped.trap),
                },
                Err(_) => unreachable!(),
            }
        }
    }
}
