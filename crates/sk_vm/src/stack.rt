ghost use Rattle.std.specs.Prelude.{◌≡◌, ℕ, ℤ, ◌<◌, ◌≤◌, ◌+◌, ◌-◌, ◌^◌, suc, pos, List, ◌∷◌, length, slice_set, slice_index_or};
ghost use Rattle.sk_vm.specs.Points.{values_in, point_at};

use sk_base::Cell;

/// Where the run of a code stands: the address of the next instruction, how many values are on the stack, and the turns
/// that are left.
#[derive(Clone, Copy)]
pub struct Stand {
    pub at: usize,
    pub top: usize,
    pub turns: u32,
}

impl Stand {
    /// The next address, with so many values on the stack.
    #[inline]
    pub fn past(self, top: usize) -> Stand
        requires { self.at + 1 < 2 ^ 64 }
        ensures { result ≡ record { at = suc self.at; top = top; turns = self.turns } }
    {
        Stand {
            at: self.at + 1,
            top,
            turns: self.turns,
        }
    }
}

/// The topmost value.
#[inline]
pub fn last(stack: &[Cell], top: usize) -> Cell
    requires some { 0 < top }
    requires inside { top ≤ length stack.now }
    ensures { values_in stack.now top ≡ result ∷ values_in stack.now (top - 1) }
{
    stack[top - 1]
}

/// Puts a value on the first `top` ones.
#[inline]
pub fn put(stack: &mut [Cell], top: usize, value: Cell)
    requires room { top < length stack.old }
    ensures values { values_in stack.new (suc top) ≡ value ∷ values_in stack.old top }
    ensures len { length stack.new ≡ length stack.old }
{
    stack[top] = value;
}
