ghost use Rattle.std.specs.Prelude.{◌≡◌, ℕ, ℤ, ◌-◌, ◌+◌, ◌*◌, ◌<◌, ◌≤◌, ◌^◌, IfErr, IfOk, length, pos, slice_index_or, true};
ghost use Rattle.sk_base.specs.Arithmetic.{InRange};
ghost use Rattle.sk_formula.specs.Calls.{unit_elements, units_value};
ghost use Rattle.sk_kernel.specs.Kernels.{AreValues, SuitsRun};
ghost use Rattle.sk_seq.specs.Given.{AgreeAll, functions_over, sizes_in};
ghost use Rattle.sk_seq.specs.Pairs.{AreOf, ArePairs, pair_from};
ghost use Rattle.sk_seq.specs.Results.{AreComputed};
ghost use Rattle.sk_tree.specs.declared.tree.Skeleton.TheVariants.{MapPairs};

use crate::elements::first_place;
use crate::trapped::Trapped;
use sk_base::{Cell, Range};
use sk_kernel::{At, Data, Kernel, RunTrap};
use sk_tree::Settings;

/// SkePU's MapPairs, for some elements of the first container: a row of the result for each.
pub fn map_pairs<K: Kernel, D: Data>(
    kernel: &mut K,
    source: &D,
    settings: &Settings,
    units: Range,
    out: &mut [Cell],
) -> Result<(), Trapped>
    requires there { 1 < length (D.means source.now).shapes }
    requires count { length out.old ≡ (units.hi - units.lo) * unit_elements MapPairs (sizes_in (D.means source.now)) }
    requires places { units.hi * unit_elements MapPairs (sizes_in (D.means source.now)) < 2 ^ 32 }
    requires pairs { (K.means kernel.old).pairs ≡ true }
    requires suits { (unit : ℕ) → units.lo ≤ unit → unit < units.hi → SuitsRun (K.means kernel.old) (D.means source.now) unit 0 (unit_elements MapPairs (sizes_in (D.means source.now))) }
    ensures values { (cells : ℕ → ℕ → ℤ) → AgreeAll (D.means source.now) cells
        → AreComputed (units_value MapPairs settings.now (sizes_in (D.means source.now)) (functions_over (K.means kernel.old) (D.means source.now) cells) units.lo units.hi) out.new result }
    ensures range { IfOk result (λ done. AreOf (K.means kernel.old).ty out.new (length out.old)) }
    ensures count { length out.new ≡ length out.old }
    ensures same { K.means kernel.new ≡ K.means kernel.old }
{
    let width = source.shape(1).cells();
    let first = first_place(units, width);
    match rows(kernel, source, units, width, out) {
        Ok(()) => Ok(()),
        Err(trapped) => Err(Trapped {
            trap: trapped.trap,
            element: first + trapped.offset,
        }),
    }
}

/// The function's values at the pairs of some places with so many others, row by row.
fn rows<K: Kernel, D: Data>(
    kernel: &mut K,
    source: &D,
    units: Range,
    width: u32,
    out: &mut [Cell],
) -> Result<(), RunTrap>
    requires count { length out.old ≡ (units.hi - units.lo) * width }
    requires places { units.hi * width < 2 ^ 32 }
    requires pairs { (K.means kernel.old).pairs ≡ true }
    requires suits { (unit : ℕ) → units.lo ≤ unit → unit < units.hi → SuitsRun (K.means kernel.old) (D.means source.now) unit 0 width }
    ensures values { (cells : ℕ → ℕ → ℤ) → AgreeAll (D.means source.now) cells
        → AreValues (pair_from (functions_over (K.means kernel.old) (D.means source.now) cells) width (units.lo * width)) out.new result }
    ensures range { IfOk result (λ done. AreOf (K.means kernel.old).ty out.new (length out.old)) }
    ensures inside { IfErr result (λ trapped. trapped.offset < length out.old) }
    ensures count { length out.new ≡ length out.old }
    ensures same { K.means kernel.new ≡ K.means kernel.old }
{
    let mut done = 0;
    for unit in units.lo..units.hi {
        match row(kernel, source, unit, width, done, out) {
            Ok(()) => done += width as usize,
            Err(trapped) => return Err(trapped),
        }
    }
    Ok(())
}

/// The values at the pairs of one place, from a cell of `out` on.
fn row<K: Kernel, D: Data>(
    kernel: &mut K,
    source: &D,
    unit: u32,
    width: u32,
    done: usize,
    out: &mut [Cell],
) -> Result<(), RunTrap>
    requires place { unit + width < 2 ^ 32 }
    requires within { done + width ≤ length out.old }
    requires few { length out.old < 2 ^ 32 }
    requires pairs { (K.means kernel.old).pairs ≡ true }
    requires suits { SuitsRun (K.means kernel.old) (D.means source.now) unit 0 width }
    ensures values { (cells : ℕ → ℕ → ℤ) → AgreeAll (D.means source.now) cells
        → ArePairs (functions_over (K.means kernel.old) (D.means source.now) cells) unit width done out.new result }
    ensures range { IfOk result (λ ended. (k : ℕ) → done ≤ k → k < done + width → InRange (K.means kernel.old).ty (slice_index_or out.new k (pos 0))) }
    ensures before { (k : ℕ) → k < done → slice_index_or out.new k (pos 0) ≡ slice_index_or out.old k (pos 0) }
    ensures inside { IfErr result (λ trapped. trapped.offset < length out.old) }
    ensures count { length out.new ≡ length out.old }
    ensures same { K.means kernel.new ≡ K.means kernel.old }
{
    let (_, rest) = out.split_at_mut(done);
    let (line, _) = rest.split_at_mut(width as usize);
    match kernel.apply_each(
        source,
        At {
            place: unit,
            pair: 0,
        },
        line,
    ) {
        Ok(()) => Ok(()),
        Err(trapped) => Err(RunTrap {
            trap: trapped.trap,
            offset: done as u32 + trapped.offset,
        }),
    }
}
