ghost use Rattle.std.specs.Prelude.{◌≡◌, IfOk};
ghost use Rattle.sk_formula.specs.Elements.{joined};
ghost use Rattle.sk_kernel.specs.Kernels.{AreJoined, IsJoined};
ghost use Rattle.sk_seq.specs.Joinings.{JoinsAs, MayStand};

use sk_base::{Cell, Trap};
use sk_kernel::Kernel;
use sk_tree::Operator;

/// How two cells are joined: by the kernel, or by an operator that is known to give the same, at the cost of one operation.
#[derive(Clone, Copy, PartialEq, Eq, Debug)]
pub enum Joining {
    ByKernel,
    ByOperator(Operator),
}

/// The operator's value, or its trap.
#[inline]
pub fn join<K: Kernel>(kernel: &mut K, joining: Joining, a: Cell, b: Cell) -> Result<Cell, Trap>
    requires joins { JoinsAs joining (K.means kernel.old) }
    requires joined { AreJoined (K.means kernel.old) a b }
    ensures value { result ≡ (K.means kernel.old).join a b }
    ensures range { IfOk result (IsJoined (K.means kernel.old)) }
    ensures same { K.means kernel.new ≡ K.means kernel.old }
{
    match joining {
        Joining::ByKernel => kernel.combine(a, b),
        Joining::ByOperator(operator) => Ok(operator.apply(a, b)),
    }
}

/// One more cell behind what was folded, if anything was.
#[inline]
pub fn join_more<K: Kernel>(
    kernel: &mut K,
    joining: Joining,
    before: Option<Cell>,
    last: Cell,
) -> Result<Option<Cell>, Trap>
    requires joins { JoinsAs joining (K.means kernel.old) }
    requires before { MayStand (K.means kernel.old) before }
    requires last { IsJoined (K.means kernel.old) last }
    ensures value { result ≡ joined (K.means kernel.old).join before last }
    ensures range { IfOk result (MayStand (K.means kernel.old)) }
    ensures same { K.means kernel.new ≡ K.means kernel.old }
{
    match before {
        Some(before) => match join(kernel, joining, before, last) {
            Ok(value) => Ok(Some(value)),
            Err(trap) => Err(trap),
        },
        None => Ok(Some(last)),
    }
}
