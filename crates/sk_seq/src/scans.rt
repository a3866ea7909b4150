ghost use Rattle.std.specs.Prelude.{◌≡◌, ℕ, ℤ, ◌-◌, ◌<◌, ◌^◌, length, IfErr, IfOk};
ghost use Rattle.sk_formula.specs.Calls.{part_scan};
ghost use Rattle.sk_kernel.specs.Kernels.{AreValues};
ghost use Rattle.sk_seq.specs.Given.{AgreeAll, functions_over};
ghost use Rattle.sk_seq.specs.Joinings.{AreTaken, JoinsAs, MayStand, fold_before, fold_in_scan, fold_upto};
ghost use Rattle.sk_seq.specs.Operands.{HoldsTaken};
ghost use Rattle.sk_seq.specs.Results.{AreComputed};

use crate::joining::{Joining, join_more};
use crate::operands::load;
use crate::trapped::Trapped;
use sk_base::{Cell, Range};
use sk_kernel::{Data, Kernel, RunTrap};
use sk_tree::Settings;

/// SkePU's Scan, for a part of the elements: the folds up to each of them, or before each where it is exclusive, behind what
/// stands in front.
pub fn scan<K: Kernel, D: Data>(
    kernel: &mut K,
    joining: Joining,
    source: &D,
    settings: &Settings,
    part: Range,
    front: Option<Cell>,
    out: &mut [Cell],
) -> Result<(), Trapped>
    requires count { length out.old ≡ part.hi - part.lo }
    requires joins { JoinsAs joining (K.means kernel.old) }
    requires front { MayStand (K.means kernel.old) front }
    requires held { HoldsTaken (K.means kernel.old) (D.means source.now) part.lo (length out.old) }
    ensures values { (cells : ℕ → ℕ → ℤ) → AgreeAll (D.means source.now) cells
        → AreComputed (part_scan (functions_over (K.means kernel.old) (D.means source.now) cells) settings.now.exclusive front part.lo part.hi) out.new result }
    ensures range { IfOk result (λ done. AreTaken (K.means kernel.old) out.new (length out.old)) }
    ensures count { length out.new ≡ length out.old }
    ensures same { K.means kernel.new ≡ K.means kernel.old }
{
    load(source, part.lo, out);
    match scan_cells(kernel, joining, settings.exclusive, front, out) {
        Ok(()) => Ok(()),
        Err(trapped) => Err(Trapped {
            trap: trapped.trap,
            element: part.lo + trapped.offset,
        }),
    }
}

/// In place of each cell the fold up to it, or before it.
fn scan_cells<K: Kernel>(
    kernel: &mut K,
    joining: Joining,
    exclusive: bool,
    front: Option<Cell>,
    out: &mut [Cell],
) -> Result<(), RunTrap>
    requires few { length out.old < 2 ^ 32 }
    requires joins { JoinsAs joining (K.means kernel.old) }
    requires front { MayStand (K.means kernel.old) front }
    requires cells { AreTaken (K.means kernel.old) out.old (length out.old) }
    ensures values { AreValues (fold_in_scan exclusive (K.means kernel.old) front out.old) out.new result }
    ensures range { IfOk result (λ done. AreTaken (K.means kernel.old) out.new (length out.old)) }
    ensures inside { IfErr result (λ trapped. trapped.offset < length out.old) }
    ensures count { length out.new ≡ length out.old }
    ensures same { K.means kernel.new ≡ K.means kernel.old }
{
    if exclusive {
        scan_before(kernel, joining, front, out)
    } else {
        scan_upto(kernel, joining, front, out)
    }
}

/// In place of each cell the fold up to it.
fn scan_upto<K: Kernel>(
    kernel: &mut K,
    joining: Joining,
    front: Option<Cell>,
    out: &mut [Cell],
) -> Result<(), RunTrap>
    requires few { length out.old < 2 ^ 32 }
    requires joins { JoinsAs joining (K.means kernel.old) }
    requires front { MayStand (K.means kernel.old) front }
    requires cells { AreTaken (K.means kernel.old) out.old (length out.old) }
    ensures values { AreValues (fold_upto (K.means kernel.old) front out.old) out.new result }
    ensures range { IfOk result (λ done. AreTaken (K.means kernel.old) out.new (length out.old)) }
    ensures inside { IfErr result (λ trapped. trapped.offset < length out.old) }
    ensures count { length out.new ≡ length out.old }
    ensures same { K.means kernel.new ≡ K.means kernel.old }
{
    let mut folded = front;
    for k in 0..out.len() {
        match join_more(kernel, joining, folded, out[k]) {
            Ok(more) => {
                folded = more;
                out[k] = folded.unwrap_or(0);
            }
            Err(trap) => {
                return Err(RunTrap {
                    trap,
                    offset: k as u32,
                });
            }
        }
    }
    Ok(())
}

/// In place of each cell the fold of those before it, 0 where there is nothing.
fn scan_before<K: Kernel>(
    kernel: &mut K,
    joining: Joining,
    front: Option<Cell>,
    out: &mut [Cell],
) -> Result<(), RunTrap>
    requires few { length out.old < 2 ^ 32 }
    requires joins { JoinsAs joining (K.means kernel.old) }
    requires front { MayStand (K.means kernel.old) front }
    requires cells { AreTaken (K.means kernel.old) out.old (length out.old) }
    ensures values { AreValues (fold_before (K.means kernel.old) front out.old) out.new result }
    ensures range { IfOk result (λ done. AreTaken (K.means kernel.old) out.new (length out.old)) }
    ensures inside { IfErr result (λ trapped. trapped.offset < length out.old) }
    ensures count { length out.new ≡ length out.old }
    ensures same { K.means kernel.new ≡ K.means kernel.old }
{
    if out.is_empty() {
        return Ok(());
    }
    let mut folded = front;
    let mut k = 0;
    while k + 1 < out.len() {
        let last = out[k];
        out[k] = folded.unwrap_or(0);
        match join_more(kernel, joining, folded, last) {
            Ok(more) => folded = more,
            Err(trap) => {
                return Err(RunTrap {
                    trap,
                    offset: k as u32 + 1,
                });
            }
        }
        k += 1;
    }
    out[k] = folded.unwrap_or(0);
    Ok(())
}
