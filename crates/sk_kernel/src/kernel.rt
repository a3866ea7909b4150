ghost use Rattle.std.specs.Prelude.{◌≡◌, ℕ, ℤ, ◌<◌, ◌≤◌, ◌+◌, ◌^◌, All, length, slice_get, Some, IsSome, IfOk};
ghost use Rattle.sk_base.specs.Arithmetic.{InRange};
ghost use Rattle.sk_kernel.specs.Kernels.{Source, Meaning, HoldsInside, Suits, Agree, SuitsRun, AgreeRun, AreValues, AreJoined, IsJoined, NeverTraps, NeverTrapsJoining, DependsOnReads, given_by, run_value};

use sk_base::{Cell, Shape, Trap};

/// Where a function is evaluated: an index, and the index in the second container where a skeleton goes over pairs.
#[derive(Clone, Copy, PartialEq, Eq, Debug)]
pub struct At {
    pub place: u32,
    pub pair: u32,
}

/// A trap in a run of places, with the number of places of the run before it, which have values.
#[derive(Clone, Copy, PartialEq, Eq, Debug)]
pub struct RunTrap {
    pub trap: Trap,
    pub offset: u32,
}

/// What a skeleton call works on: containers as operands, counted from 0, and uniform arguments. It may hold a part of
/// the cells alone.
pub trait Data {
    /// What it holds.
    ghost means: { Self → Source };

    /// A cell of an operand by its row-major index.
    fn cell(&self, operand: u32, index: u32) -> Cell
        requires held { IsSome ((means self.now).held operand index) }
        ensures { (means self.now).held operand index ≡ Some result };

    /// The cells of an operand at indices from one on, at least one and at most so many, all of which it holds: as many as
    /// lie in one piece with the first.
    fn column(&self, operand: u32, from: u32, count: u32) -> &[Cell]
        requires some { 0 < count }
        requires held { (index : ℕ) → from ≤ index → index < from + count → IsSome ((means self.now).held operand index) }
        ensures some { 0 < length result.now }
        ensures most { length result.now ≤ count }
        ensures cells { (k : ℕ) → k < length result.now → (means self.now).held operand (from + k) ≡ slice_get result.now k };

    /// The sizes of an operand.
    fn shape(&self, operand: u32) -> &Shape
        requires there { operand < length (means self.now).shapes }
        ensures { slice_get (means self.now).shapes operand ≡ Some result.now };

    /// A uniform argument.
    fn uniform(&self, k: u32) -> Cell
        requires there { k < length (means self.now).uniforms }
        ensures { slice_get (means self.now).uniforms k ≡ Some result };

    /// The sizes of the container in which indices are counted: the first element argument of a MapReduce, and the result
    /// of every other skeleton.
    fn over(&self) -> &Shape
        requires there { IsSome (means self.now).over }
        ensures { (means self.now).over ≡ Some result.now };

    ghost holds_inside: { (source : Self) → HoldsInside (means source) };
}

/// The function and the operator of a skeleton instance. No call takes memory.
pub trait Kernel {
    /// What they mean.
    ghost means: { Self → Meaning };

    /// The function's value, or its first trap. It depends on the cells that the meaning says it may read, the sizes and
    /// the uniform arguments alone.
    fn apply<D: Data>(&mut self, source: &D, at: At) -> Result<Cell, Trap>
        requires suits { Suits (means self.old) (D.means source.now) at.place at.pair }
        ensures value { (cells : ℕ → ℕ → ℤ) → Agree (means self.old) (D.means source.now) at.place at.pair cells
            → result ≡ (means self.old).value (given_by (D.means source.now) cells) at.place at.pair }
        ensures range { IfOk result (InRange (means self.old).ty) }
        ensures same { means self.new ≡ means self.old };

    /// The function's values at as many places one behind another as `out` has cells, into `out`; or the least of these
    /// places that traps, with its trap, and nothing is then said of `out`. Over pairs the place stays, and the pair goes on.
    fn apply_each<D: Data>(&mut self, source: &D, at: At, out: &mut [Cell]) -> Result<(), RunTrap>
        requires suits { SuitsRun (means self.old) (D.means source.now) at.place at.pair (length out.old) }
        requires places { at.place + length out.old < 2 ^ 32 }
        requires pairs { at.pair + length out.old < 2 ^ 32 }
        ensures values { (cells : ℕ → ℕ → ℤ) → AgreeRun (means self.old) (D.means source.now) at.place at.pair (length out.old) cells
            → AreValues (run_value (means self.old) (given_by (D.means source.now) cells) at.place at.pair) out.new result }
        ensures range { IfOk result (λ done. All (InRange (means self.old).ty) out.new) }
        ensures count { length out.new ≡ length out.old }
        ensures same { means self.new ≡ means self.old };

    /// The operator's value, or its first trap.
    fn combine(&mut self, a: Cell, b: Cell) -> Result<Cell, Trap>
        requires joined { AreJoined (means self.old) a b }
        ensures value { result ≡ (means self.old).join a b }
        ensures range { IfOk result (IsJoined (means self.old)) }
        ensures same { means self.new ≡ means self.old };

    /// Whether neither of them ever traps.
    fn safe(&self) -> bool
        ensures { result ≡ (means self.now).safe };

    ghost never_traps: { (kernel : Self) → NeverTraps (means kernel) };

    ghost never_traps_joining: { (kernel : Self) → NeverTrapsJoining (means kernel) };

    ghost depends_on_reads: { (kernel : Self) → DependsOnReads (means kernel) };
}
