ghost use Rattle.std.specs.Prelude.{◌≡◌, ℕ, ℤ, ◌-◌, ◌+◌, ◌*◌, ◌<◌, ◌^◌, All, IfOk, false, length};
ghost use Rattle.sk_base.specs.Arithmetic.{InRange};
ghost use Rattle.sk_formula.specs.Calls.{row_length, unit_elements, units_value};
ghost use Rattle.sk_formula.specs.Elements.{mapped};
ghost use Rattle.sk_formula.specs.Skeletons.{value_at};
ghost use Rattle.sk_kernel.specs.Kernels.{Suits, SuitsRun};
ghost use Rattle.sk_seq.specs.Given.{AgreeAll, functions_over, sizes_in};
ghost use Rattle.sk_seq.specs.Results.{AreComputed};
ghost use Rattle.sk_tree.specs.declared.tree.Skeleton.TheVariants.{Map, MapOverlap};

use crate::trapped::Trapped;
use sk_base::{Cell, Range, Shape, Trap};
use sk_kernel::{At, Data, Kernel};
use sk_tree::Settings;

/// SkePU's Map, for some of its elements: the function's values at their places.
pub fn map<K: Kernel, D: Data>(
    kernel: &mut K,
    source: &D,
    settings: &Settings,
    units: Range,
    out: &mut [Cell],
) -> Result<(), Trapped>
    requires count { length out.old ≡ units.hi - units.lo }
    requires single { (K.means kernel.old).pairs ≡ false }
    requires suits { SuitsRun (K.means kernel.old) (D.means source.now) units.lo 0 (length out.old) }
    ensures values { (cells : ℕ → ℕ → ℤ) → AgreeAll (D.means source.now) cells
        → AreComputed (units_value Map settings.now (sizes_in (D.means source.now)) (functions_over (K.means kernel.old) (D.means source.now) cells) units.lo units.hi) out.new result }
    ensures range { IfOk result (λ done. All (InRange (K.means kernel.old).ty) out.new) }
    ensures count { length out.new ≡ length out.old }
    ensures same { K.means kernel.new ≡ K.means kernel.old }
{
    at_places(kernel, source, units.lo, out)
}

/// SkePU's MapOverlap, for some of its elements, or rows of a matrix: the function's values at their places.
pub fn map_overlap<K: Kernel, D: Data>(
    kernel: &mut K,
    source: &D,
    settings: &Settings,
    units: Range,
    out: &mut [Cell],
) -> Result<(), Trapped>
    requires there { 0 < length (D.means source.now).shapes }
    requires count { length out.old ≡ (units.hi - units.lo) * unit_elements MapOverlap (sizes_in (D.means source.now)) }
    requires places { units.hi * unit_elements MapOverlap (sizes_in (D.means source.now)) < 2 ^ 32 }
    requires single { (K.means kernel.old).pairs ≡ false }
    requires suits { SuitsRun (K.means kernel.old) (D.means source.now) (units.lo * unit_elements MapOverlap (sizes_in (D.means source.now))) 0 (length out.old) }
    ensures values { (cells : ℕ → ℕ → ℤ) → AgreeAll (D.means source.now) cells
        → AreComputed (units_value MapOverlap settings.now (sizes_in (D.means source.now)) (functions_over (K.means kernel.old) (D.means source.now) cells) units.lo units.hi) out.new result }
    ensures range { IfOk result (λ done. All (InRange (K.means kernel.old).ty) out.new) }
    ensures count { length out.new ≡ length out.old }
    ensures same { K.means kernel.new ≡ K.means kernel.old }
{
    let first = first_place(units, row_length(source.shape(0)));
    at_places(kernel, source, first, out)
}

/// Where units of so many elements each begin.
pub fn first_place(units: Range, width: u32) -> u32
    requires { units.hi * width < 2 ^ 32 }
    ensures first { result ≡ units.lo * width }
    ensures end { result + (units.hi - units.lo) * width ≡ units.hi * width }
{
    units.lo * width
}

/// The elements of a row of a matrix, and one of everything else.
fn row_length(shape: &Shape) -> u32
    ensures { result ≡ row_length shape.now }
{
    match shape.sizes() {
        [_, columns] => *columns,
        _ => 1,
    }
}

/// The function's values at places from one on.
fn at_places<K: Kernel, D: Data>(
    kernel: &mut K,
    source: &D,
    first: u32,
    out: &mut [Cell],
) -> Result<(), Trapped>
    requires places { first + length out.old < 2 ^ 32 }
    requires single { (K.means kernel.old).pairs ≡ false }
    requires suits { SuitsRun (K.means kernel.old) (D.means source.now) first 0 (length out.old) }
    ensures values { (cells : ℕ → ℕ → ℤ) → AgreeAll (D.means source.now) cells
        → AreComputed (mapped (value_at (functions_over (K.means kernel.old) (D.means source.now) cells)) first (length out.old)) out.new result }
    ensures range { IfOk result (λ done. All (InRange (K.means kernel.old).ty) out.new) }
    ensures count { length out.new ≡ length out.old }
    ensures same { K.means kernel.new ≡ K.means kernel.old }
{
    match kernel.apply_each(
        source,
        At {
            place: first,
            pair: 0,
        },
        out,
    ) {
        Ok(()) => Ok(()),
        Err(trapped) => Err(Trapped {
            trap: trapped.trap,
            element: first + trapped.offset,
        }),
    }
}

/// SkePU's Call: the function's value, for what it is given whole and uniform arguments.
pub fn call<K: Kernel, D: Data>(kernel: &mut K, source: &D) -> Result<Cell, Trap>
    requires suits { Suits (K.means kernel.old) (D.means source.now) 0 0 }
    ensures value { (cells : ℕ → ℕ → ℤ) → AgreeAll (D.means source.now) cells
        → result ≡ value_at (functions_over (K.means kernel.old) (D.means source.now) cells) 0 }
    ensures range { IfOk result (InRange (K.means kernel.old).ty) }
    ensures same { K.means kernel.new ≡ K.means kernel.old }
{
    kernel.apply(source, At { place: 0, pair: 0 })
}
